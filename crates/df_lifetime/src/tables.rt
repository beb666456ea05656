// The table in the life of a file, whichever programs ran over it: laws, each the clause of a function that does nothing.
ghost use Rattle.df_lifetime.specs.Since.{ServedTableBegins, ServedTableWasHad};
ghost use Rattle.df_lifetime.specs.Tables.{CopiesLeaveIt, EveryTableGoesOn, LeavingRunsKeepIt, NextRunServesIt, QuietRunsLeaveIt, TableRunsKeepIt, WordsLeaveIt};

/// Whatever life a file has had in which each session kept the table, its table is the fold of all puts and drops that were kept, from the one on with which the life began; the next run of the table serves it,
/// unless the disk fails in its opening. Each run of the table keeps it, and so does each run of any program that makes no call on the file, or reads alone: `recover`, `scrub`, `inspect`, and a copy of which the
/// file is the source.
pub fn a_table_lives_in_any_life()
    ensures goes_on { EveryTableGoesOn }
    ensures serves { NextRunServesIt }
    ensures tables { TableRunsKeepIt }
    ensures leaving { LeavingRunsKeepIt }
    ensures quiet { QuietRunsLeaveIt }
    ensures words { WordsLeaveIt }
    ensures copies { CopiesLeaveIt }
{}

/// After damage before any number of opens, too, the table that a run serves is one that the file had since the last open that raised its boot: that of the view which is found, whose blocks were all written so. And
/// a life with it begins at the end of that open, whatever was done to the disk before.
pub fn a_table_is_found_after_damage()
    ensures had { ServedTableWasHad }
    ensures begins { ServedTableBegins }
{}
