// The law by which kept notes stay.
ghost use Rattle.df_notes.specs.Staying.{KeptNotesStay};

/// Notes whose ops were printed are in the file, where a stop falls after that and before the next call.
pub fn kept_notes_stay()
    ensures { KeptNotesStay }
{}
