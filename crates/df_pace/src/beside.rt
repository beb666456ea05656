// What the loop's work beside a script leaves as it was.

ghost use Rattle.df_pace.specs.{Beats.{FewerDue, LineCounts, NothingDue, PieceCounts, PieceDue, StartsIdle, WholeDue}, Laws.{AnsweredLaw, IdleLaw, PacingLaw, ScrubbingLaw, SessionLaw}};

/// A script prints the texts of its answers, also with work beside it, and where nothing is due it prints what it prints
/// alone. With the work beside it it is one session of the machine.
pub fn a_paced_script_is_a_session()
    ensures idle { IdleLaw }
    ensures answered { AnsweredLaw }
    ensures session { SessionLaw }
{}

/// However much is scrubbed beside a script that asks for nothing of it: the lines are answered alike, and the image and
/// the view at the end are the same.
pub fn scrubbing_is_unseen()
    ensures { ScrubbingLaw }
{}

/// Whatever work is done beside a script of appends, stages, flushes, replies and lookups: as long as the ring is never full the lines
/// are answered alike, but for the number of the checkpoint in what is looked up, and head, replies and sessions at the
/// end are the same.
pub fn work_is_unseen_in_the_log()
    ensures { PacingLaw }
{}

/// The work after a line is all that is due there, taken piece by piece, and as many prepares count as the head has grown since
/// the loop's last begin.
pub fn work_is_done_piece_by_piece()
    ensures whole { WholeDue }
    ensures nothing { NothingDue }
    ensures starts { StartsIdle }
    ensures piece { PieceDue }
    ensures fewer { FewerDue }
    ensures line { LineCounts }
    ensures counts { PieceCounts }
{}
