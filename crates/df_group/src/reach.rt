// How far a walk along prepares comes after a checkpoint; the tail ends where the last whole group does.
ghost use Rattle.std.specs.Prelude.{◌≡◌, ◌≤◌, ◌<◌};

use crate::{Position, Tail};
use df_sessions::SessionTable;

/// How far a walk came.
#[derive(Clone, Copy, Debug, PartialEq, Eq)]
pub struct Reach {
    /// The end of the last group that is whole: the end of the tail.
    pub tail: Tail,
    /// The op of the last prepare that fits; it is above the tail's where the group of that prepare isn't whole.
    pub op: u64,
}

/// Ends the tail where a walk stands, if a group is over there; the sessions of the tail are then those that are ahead.
pub fn keep_whole(at: &Position, ahead: &SessionTable, tail: &mut Tail, sessions: &mut SessionTable)
    ensures over { at.now.group_last ≤ at.now.last.op → (tail.new ≡ at.now.last) × (sessions.new ≡ ahead.now) }
    ensures open { at.now.last.op < at.now.group_last → (tail.new ≡ tail.old) × (sessions.new ≡ sessions.old) }
{
    if at.group_last <= at.last.op {
        *tail = at.last;
        *sessions = ahead.copied();
    }
}
