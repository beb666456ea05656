// What holds of all that was ever settled.

ghost use Rattle.df_theory.specs.HistoryLaws.{OnePrepareLaw, OneReplyLaw, OneContentLaw, StampLaw, FoundWasLaw, FoundWasOfLogLaw};

/// All settled prepares of one op are equal.
pub fn one_prepare_an_op()
    ensures { OnePrepareLaw }
{}

/// All settled replies of one op are equal.
pub fn one_reply_an_op()
    ensures { OneReplyLaw }
{}

/// What copies 1 to 3 ever showed was the content of a view, one for each rank.
pub fn one_content_a_rank()
    ensures { OneContentLaw }
{}

/// Three counters that each stood, and none of whose bearers had seen more of the others, stood together.
pub fn counters_stood_together()
    ensures { StampLaw }
{}

/// An open that finds a state finds one that the file really had.
pub fn found_was_had()
    ensures { FoundWasLaw }
{}

/// The same of a log of which nothing is being written.
pub fn found_was_had_by_the_log()
    ensures { FoundWasOfLogLaw }
{}
