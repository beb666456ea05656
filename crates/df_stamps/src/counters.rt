// What all units of a file show of three counters, and what that says of the state that was found.
ghost use Rattle.std.specs.{Prelude.{◌↔◌, IsTrue}, Bool.{OnFalse}};
ghost use Rattle.df_stamps.specs.Evidence.{IsBehind, IsUpToDate, IsLost, IsComplete};

/// The greatest numbers that were seen, zero where nothing was.
#[derive(Clone, Copy, Debug, PartialEq, Eq, Default)]
pub struct Counters {
    /// The greatest op in the two rings.
    pub ring_op: u64,
    /// The greatest op or mark of a reply.
    pub reply_top: u64,
    /// The greatest checkpoint sequence that a header, prepare or reply carries.
    pub checkpoint: u64,
    /// The greatest boot that a header, prepare or reply carries; 0 of those of version 1.
    pub boot: u64,
}

/// Whether something was written after a later checkpoint than the one found, which has this sequence and op, or in a later
/// boot than this one: a unit carries a later sequence, a ring of this many slots holds an op that this checkpoint leaves no
/// room for, or a unit carries a later boot.
pub fn behind(seen: &Counters, sequence: u64, op: u64, slots: u32, boot: u64) -> bool
    ensures found { IsTrue result ↔ IsBehind seen.now sequence op slots boot }
    ensures none { OnFalse result (IsUpToDate seen.now sequence op slots boot) }
{
    seen.checkpoint > sequence
        || seen.ring_op.saturating_sub(op) > u64::from(slots)
        || seen.boot > boot
}

/// Whether something shows an op beyond `head`, the last that was found: a unit of the rings, a reply that was stored
/// later, or the superblock's own head. The counters are those of the units of the superblock's boot alone.
pub fn lost(seen: &Counters, superblock_head: u64, head: u64) -> bool
    ensures found { IsTrue result ↔ IsLost seen.now superblock_head head }
    ensures none { OnFalse result (IsComplete seen.now superblock_head head) }
{
    seen.ring_op > head || seen.reply_top > head || superblock_head > head
}
