// What the calls of a replica answer.
use df_base::Check;
use df_layout::{Class, Layout};

/// The state of an open file, in numbers.
#[derive(Clone, Copy, Debug, PartialEq, Eq)]
pub struct Summary {
    pub cluster: u128,
    pub layout: Layout,
    /// How often the superblock was written, counted from 1.
    pub sequence: u64,
    /// The op that the durable checkpoint reaches.
    pub checkpoint_op: u64,
    /// The op of the last prepare.
    pub head: u64,
    /// How many replies are stored; each op up to this one has its own.
    pub replies: u64,
    /// How many clients have a session.
    pub sessions: u64,
    /// How many blocks the durable checkpoint references, its trailer aside.
    pub references: u64,
}

/// A prepare that is durable.
#[derive(Clone, Copy, Debug, PartialEq, Eq)]
pub struct Receipt {
    pub op: u64,
    /// The checksum of its header.
    pub checksum: Check,
}

/// How far the running checkpoint came.
#[derive(Clone, Copy, Debug, PartialEq, Eq)]
pub enum Progress {
    /// This many steps are still to come, the last one included.
    Working { left: u64 },
    /// The checkpoint is durable; the superblock has this sequence.
    Done { sequence: u64 },
}

/// What a check of a block found.
#[derive(Clone, Copy, Debug, PartialEq, Eq)]
pub enum Verdict {
    /// The block that is known is shown.
    Sound,
    /// Something else is.
    Failing(Class),
}

/// How far the scrubber came.
#[derive(Clone, Copy, Debug, PartialEq, Eq)]
pub enum Scrubbed {
    /// This block was checked.
    Checked { address: u64, verdict: Verdict },
    /// Every referenced block was; the next step begins a new tour.
    TourEnd { checked: u64, failing: u64 },
}
