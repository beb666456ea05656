// A call over what a disk shows: laws, each the clause of a function that does nothing.
ghost use Rattle.df_session.specs.Results.{NextAgrees, OneMoreIsResult, ResultAgrees, SuppliedIsResult};

/// No command tells two things apart that a disk may show and that agree: over both it answers the same, and leaves the same state; and so do commands one after the
/// other.
pub fn what_agrees_is_not_told_apart()
    ensures next { NextAgrees }
    ensures result { ResultAgrees }
{}

/// A call that is answered answers what the machine answers over the image that the disk shows, and leaves in memory and shown what the machine leaves: so a further
/// call does the same. Nothing is asked of the image but that its sectors are whole.
pub fn a_call_answers_the_result()
    ensures supplied { SuppliedIsResult }
    ensures answered { OneMoreIsResult }
{}
