// What holds of all that the logs of a history ever settled.

ghost use Rattle.df_theory.specs.HistoryLaws.{FoundWasLaw};
ghost use Rattle.df_history.specs.{Sample.{HistorySampleLaw, PassedSampleLaw, ThriceSampleLaw}, Laws.{FoundLivedLaw, OneContentLaw, OnePrepareLaw, OneReplyLaw}};

/// All settled prepares of one op and one boot are equal, over all logs of a history.
pub fn one_prepare_an_op_and_boot()
    ensures { OnePrepareLaw }
{}

/// All settled replies of one op and one boot are equal.
pub fn one_reply_an_op_and_boot()
    ensures { OneReplyLaw }
{}

/// What copies 1 to 3 ever showed was the content of a view, one for each rank.
pub fn one_content_a_rank()
    ensures { OneContentLaw }
{}

/// An open that finds a state finds one that an awake log of the history had, whatever was damaged before any
/// number of opens.
pub fn found_was_lived()
    ensures { FoundLivedLaw }
{}

/// A file is made and opened, a prepare is appended, its every trace is lost, and the file is opened again: each
/// premise is met.
pub fn a_history_is_lived()
    ensures { HistorySampleLaw }
{}

/// One log from the empty image is a history: what an open finds there was had by it.
pub fn one_log_is_a_history()
    ensures { FoundWasLaw }
{}

/// One is stopped within a group of two and opened again: the prepare that survived is passed over, its op is
/// written anew, and it is passed over again when it is shown once more.
pub fn a_survivor_is_passed_over()
    ensures { PassedSampleLaw }
{}

/// A file is damaged and opened three times: each premise is met each time, and each open finds what was had since
/// the last log that raised its boot.
pub fn a_damaged_file_is_opened_three_times()
    ensures { ThriceSampleLaw }
{}
