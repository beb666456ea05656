// Worked scripts with work beside them, computed by the checker.

ghost use Rattle.df_pace.specs.Worked.{FullRing, GroupsCount, LongSession, OwnCheckpoint, RefusedBegin};

/// Forty requests with their replies go through a ring of 32 slots, and with no work beside them it is full.
pub fn a_long_session()
    ensures paced { LongSession }
    ensures alone { FullRing }
{}

/// A begin that was refused is due again after the next line, a checkpoint of the script's own starts no count, and a flush counts
/// as many as it appends.
pub fn a_begin_stays_due()
    ensures refused { RefusedBegin }
    ensures own { OwnCheckpoint }
    ensures groups { GroupsCount }
{}
