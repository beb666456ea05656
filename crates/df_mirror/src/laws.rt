// What a list of mends leaves true: laws, each the clause of a function that does nothing.
ghost use Rattle.df_mirror.specs.Outcome.{OutcomeIsOne, RunStopsBefore};
ghost use Rattle.df_mirror.specs.Laws.{FoundHasNoneBack, KnownStays, LeftIsNoneBack, MendedIsOpened, MendedWasWritten, MendsGoOn, MirroredIsOpened, RunKeepsKnown, UnitsComeInOrder};

/// Mends go on with mends of what they left.
pub fn mends_go_on()
    ensures { MendsGoOn }
{}

/// Blocks of the trailer are mended first, then those that it references, then prepares, and then replies.
pub fn units_come_in_order()
    ensures { UnitsComeInOrder }
{}

/// At every moment each known unit that was shown is still shown, in whatever a stop leaves: of a list of mends by any honest log
/// of which nothing is loose, and of a run, however it ends, by the log that begins after its barrier.
pub fn known_units_stay()
    ensures mends { KnownStays }
    ensures run { RunKeepsKnown }
{}

/// A mended unit is the one that was written at its place, under no chance over the history: no other unit of its kind has its checksum.
pub fn a_mended_unit_was_written()
    ensures { MendedWasWritten }
{}

/// A file that had four equal superblock copies, and of which only known units and at most two copies were hurt, is opened as it was left, once all known units are shown again.
pub fn a_mended_file_is_opened()
    ensures mends { MirroredIsOpened }
    ensures run { MendedIsOpened }
    ensures necessary { FoundHasNoneBack }
    ensures left { LeftIsNoneBack }
{}

/// What a run mends, prints and ends with is one outcome of what both files show, where no call fails; and a run that a failing call ends stops on its way to that.
pub fn the_outcome_is_one()
    ensures whole { OutcomeIsOne }
    ensures any { RunStopsBefore }
{}
