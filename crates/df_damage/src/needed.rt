// What was written: laws, each the clause of a function that does nothing.
ghost use Rattle.df_damage.specs.Written.{HadIsWritten, OpenedIsWritten};

/// What a view needs was written at its places, where the file had that view, and where an open found it.
pub fn needed_units_were_written()
    ensures had { HadIsWritten }
    ensures opened { OpenedIsWritten }
{}
