// The prepares that a superblock of version 2 names: its head by a checksum, and each one below it by its parent. No memory is
// needed, since each of them has a slot of its own.
ghost use Rattle.std.specs.Prelude.{◌≡◌, ◌≤◌, ◌<◌, ◌%◌, IfSome};
ghost use Rattle.df_journal.specs.{Below.{Content, IsCheck, Shape, Units}, Known.{NamesFrom, TellsKnown}, Shows.{IsSeenTable, TellsRings}};

use crate::SlotTable;
use df_base::Check;
use df_layout::Layout;

/// The slot of an op.
pub fn slot_of(layout: &Layout, op: u64) -> u32
    ensures value { result ≡ op % layout.now.slots }
    ensures below { result < layout.now.slots }
{
    (op % u64::from(layout.slots)) as u32
}

/// Of the ops that a superblock names, whose head has this checksum, the greatest one whose slot doesn't show the prepare that is
/// named; None where all are shown. Of a file of version 1, whose superblock names none, it is None.
pub fn lacking_known(layout: &Layout, found: &SlotTable, checksum: &Check) -> Option<u64>
    requires table { IsSeenTable layout.now found.now.start.cluster found.now.slots }
    requires checksum { IsCheck checksum.now }
    ensures tells { (sh : Shape) (image : Units) (c : Content) → TellsRings layout.now image found.now
        → NamesFrom sh c layout.now found.now.start checksum.now → TellsKnown sh image c result }
    ensures above { IfSome result (λ op. found.now.start.op < op) }
    ensures named { IfSome result (λ op. op ≤ found.now.start.head) }
{
    let mut op = found.start.head;
    let mut wanted = *checksum;
    while found.start.op < op {
        let Ok(header) = found.seen(slot_of(layout, op)).prepare else {
            return Some(op);
        };
        if header.checksum != wanted {
            return Some(op);
        }
        wanted = header.parent;
        op -= 1;
    }
    None
}
