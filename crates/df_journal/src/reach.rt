// The walk of an open: from the checkpoint on, the prepares that the superblock names and then those that are taken, as long as each
// fits what precedes it. The tail ends where the last whole group does.
ghost use Rattle.std.specs.Prelude.{◌≡◌, ◌≤◌, ◌<◌, ◌+◌, ◌^◌, IfSome};
ghost use Rattle.df_base.specs.declared.TheConstants.{GREATEST};
ghost use Rattle.df_journal.specs.{Below.{IsCheck, Units, Shape, Checkpoint}, Known.{AllKnown}, Shows.{IsSeenTable, TellsRings}};
ghost use Rattle.df_journal.specs.Tail.{BeginsAt, CanBeNoted, FindsReach, IsWithinRing, KeepsRules, TailWalkGoesOn};

use crate::seen::taken;
use crate::{SlotTable, Start};
use df_base::Check;
use df_format::Header;
use df_group::{Position, Reach, empty_tail, goes_on, keep_whole, position_behind, position_of};
use df_layout::Layout;
use df_sessions::SessionTable;

// The header of the prepare that comes next, if there is one.
fn next(
    layout: &Layout,
    found: &SlotTable,
    start: &Start,
    at: &Position,
    sessions: &SessionTable,
) -> Option<Header>
    requires table { IsSeenTable layout.now found.now.start.cluster found.now.slots }
    requires op { at.now.last.op < 2 ^ 63 }
    requires places { sessions.now.max ≡ layout.now.clients }
    ensures next { TailWalkGoesOn layout.now start.now found.now.slots at.now sessions.now.sessions result }
    ensures op { IfSome result (λ h. h.op ≡ at.now.last.op + 1) }
    ensures sound { IfSome result (CanBeNoted sessions.now) }
{
    let op = at.last.op + 1;
    let seen = found.seen((op % u64::from(layout.slots)) as u32);
    let header = taken(&seen, start, op)?;
    if goes_on(start.head, at, sessions, layout.clients, &header) {
        Some(header)
    } else {
        None
    }
}

/// How far taken prepares go on after the checkpoint that a scan started from, whose prepare has this checksum (zeros where its
/// op is 0), where each prepare that the superblock names is shown as it is named (`lacking_known`). A walk that stops short of
/// the superblock's head has come to a named prepare that doesn't fit, the one after `op`. The sessions, at first the
/// checkpoint's, become those after the tail.
pub fn find_reach(
    layout: &Layout,
    found: &SlotTable,
    checksum: &Check,
    sessions: &mut SessionTable,
) -> Reach
    requires table { IsSeenTable layout.now found.now.start.cluster found.now.slots }
    requires op { found.now.start.op ≤ GREATEST }
    requires checksum { IsCheck checksum.now }
    requires places { sessions.old.max ≡ layout.now.clients }
    ensures reach { (sh : Shape) (image : Units) (b : Checkpoint) → TellsRings layout.now image found.now
        → BeginsAt sh b layout.now found.now.start checksum.now sessions.old.sessions → AllKnown sh image b.content → FindsReach sh image b result sessions.new.sessions }
    ensures bounds { IsWithinRing found.now.start.op layout.now.slots checksum.now result }
    ensures sessions { KeepsRules sessions.old sessions.new }
{
    let start = found.start;
    let first = start.op;
    let mut tail = empty_tail(first, checksum);
    let mut at = position_behind(&tail);
    let mut ahead = sessions.copied();
    while at.last.op - first < u64::from(layout.slots) {
        match next(layout, found, &start, &at, &ahead) {
            Some(header) => {
                ahead.apply(header.client, header.request, header.op);
                at = position_of(&header);
                keep_whole(&at, &ahead, &mut tail, sessions);
            }
            None => return Reach {
                tail,
                op: at.last.op,
            },
        }
    }
    Reach {
        tail,
        op: at.last.op,
    }
}
