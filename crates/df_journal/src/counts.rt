// The greatest numbers of the units in the two rings, and what they say of a state with those of the replies.
ghost use Rattle.std.specs.{Prelude.{◌≡◌, ◌↔◌, ◌<◌, ◌^◌, IsTrue, IsFalse}, Bool.{OnFalse}};
ghost use Rattle.df_stamps.specs.Evidence.{IsComplete};
ghost use Rattle.df_journal.specs.{Below.{Content, Units, Shape, slots as shape_slots, NotBehind, NotLost}, Shows.{ShowsTable}};
ghost use Rattle.df_journal.specs.Counts.{CountsAll, CountsBinding, CountsBound, CountsRings, binding_op, in_boot, number_in, with_unit};

use crate::SlotTable;
use df_format::Header;
use df_group::binding_op;
use df_layout::Class;
use df_stamps::{Counters, behind, lost};

// The counters with one more unit of the rings.
fn with_unit(seen: &Counters, ring: &Result<Header, Class>) -> Counters
    ensures { result ≡ with_unit seen.now ring.now }
{
    match ring {
        Ok(header) => Counters {
            ring_op: seen.ring_op.max(header.op),
            reply_top: seen.reply_top,
            checkpoint: seen.checkpoint.max(header.checkpoint),
            boot: seen.boot.max(header.boot),
        },
        Err(_) => *seen,
    }
}

/// The counters that the units of the two rings show; they count no reply.
pub fn count_rings(found: &SlotTable) -> Counters
    ensures rings { (image : Units) → ShowsTable image found.now.slots → CountsRings image result }
    ensures replies { result.reply_top ≡ 0 }
{
    let mut seen = Counters::default();
    for slot in &found.slots {
        seen = with_unit(&with_unit(&seen, &slot.header), &slot.prepare);
    }
    seen
}

// The op of a unit of this boot, 0 of any other.
fn own_op(seen: &Result<Header, Class>, boot: u64) -> u64
    ensures { result ≡ number_in (in_boot boot (λ h. h.op)) seen.now }
{
    match seen {
        Ok(header) => { if header.boot == boot { header.op } else { 0 } }
        Err(_) => 0,
    }
}

// The op of a prepare that binds the head in this boot, 0 of any other.
fn bound_op(seen: &Result<Header, Class>, boot: u64, top: u64) -> u64
    requires { top < 2 ^ 63 }
    ensures { result ≡ number_in (binding_op boot top) seen.now }
{
    match seen {
        Ok(header) => binding_op(header, boot, top),
        Err(_) => 0,
    }
}

/// The greatest op that binds the head in this boot, 0 where none does, where the head that is found is `top`: of a header of this
/// boot, and of a prepare of it that wasn't cut off with its group above that head.
pub fn bound_top(found: &SlotTable, boot: u64, top: u64) -> u64
    requires { top < 2 ^ 63 }
    ensures { (image : Units) → ShowsTable image found.now.slots → CountsBinding boot top image result }
{
    let mut greatest: u64 = 0;
    for slot in &found.slots {
        greatest = greatest
            .max(own_op(&slot.header, boot))
            .max(bound_op(&slot.prepare, boot, top));
    }
    greatest
}

/// Whether a unit is of a later checkpoint than that of this sequence and op, or of a later boot.
pub fn is_behind(seen: &Counters, sequence: u64, op: u64, slots: u32, boot: u64) -> bool
    ensures behind { (sh : Shape) (image : Units) (c : Content) → CountsAll image seen.now → c.boot ≡ boot → c.sequence ≡ sequence → c.op ≡ op → shape_slots sh ≡ slots
        → IsTrue result ↔ (NotBehind sh image c → ⊥) }
    ensures none { (sh : Shape) (image : Units) (c : Content) → CountsAll image seen.now → c.boot ≡ boot → c.sequence ≡ sequence → c.op ≡ op → shape_slots sh ≡ slots
        → IsFalse result ↔ NotBehind sh image c }
{
    behind(seen, sequence, op, slots, boot)
}

/// Whether a unit of the superblock's boot shows an op above the head; the counters are those of this boot's own units, prepares
/// aside that were cut off with their group above that head.
pub fn is_lost(own: &Counters, superblock_head: u64, head: u64) -> bool
    ensures lost { (image : Units) (c : Content) → CountsBound c.boot head image own.now → c.head ≡ superblock_head
        → IsTrue result ↔ (NotLost image c head → ⊥) }
    ensures none { (image : Units) (c : Content) → CountsBound c.boot head image own.now → c.head ≡ superblock_head
        → IsFalse result ↔ NotLost image c head }
    ensures counters { OnFalse result (IsComplete own.now superblock_head head) }
{
    lost(own, superblock_head, head)
}
