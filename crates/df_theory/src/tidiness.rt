// The state of a file between two commands.

ghost use Rattle.df_theory.specs.TidyLaws.{TidyFormatLaw, TidyMendLaw, TidyAppendLaw, TidyReplyLaw, TidyBlockLaw, TidyFinishLaw, TidySyncLaw, TidyIdleLaw, TidyRunLaw, StandingRunLaw};

/// A format ends in a tidy file with the first view.
pub fn format_ends_tidy()
    ensures { TidyFormatLaw }
{}

/// The mending of an open ends in a tidy file.
pub fn mending_leads_tidily()
    ensures { TidyMendLaw }
{}

/// An append leads from one tidy file to the next.
pub fn append_leads_tidily()
    ensures { TidyAppendLaw }
{}

/// A reply leads from one tidy file to the next.
pub fn reply_leads_tidily()
    ensures { TidyReplyLaw }
{}

/// A block at an address that the checkpoint does not hold keeps the file tidy, and stays loose.
pub fn block_leads_tidily()
    ensures { TidyBlockLaw }
{}

/// What writes nothing keeps the file tidy.
pub fn reading_leads_tidily()
    ensures { TidyIdleLaw }
{}

/// A sync keeps the file tidy.
pub fn sync_leads_tidily()
    ensures { TidySyncLaw }
{}

/// A finished checkpoint leads from one tidy file to the next.
pub fn checkpoint_leads_tidily()
    ensures { TidyFinishLaw }
{}

/// A run of commands ends in a tidy file, and a stop anywhere is survived; referenced blocks that stand do so in whatever is left.
pub fn run_ends_tidy()
    ensures tidy { TidyRunLaw }
    ensures standing { StandingRunLaw }
{}
