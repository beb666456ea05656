// How far a generated run has come.
use crate::{Counts, Held};

/// What is asked for next.
#[derive(Clone, Copy, Debug, PartialEq, Eq)]
pub enum Point {
    /// The append of the body that was drawn for this round.
    Appending,
    /// The reply to this op.
    Replying { op: u64 },
    /// The step that a round has while a checkpoint runs.
    Stepping,
    /// The block of the body that was drawn last.
    Writing,
    /// The release of the oldest address.
    Releasing,
    /// The begin of a checkpoint.
    Beginning,
    /// All rounds are over; while a checkpoint runs, its next step.
    Ending,
}

/// The number that was drawn last, how many rounds there are and how many clients take turns, the round, the point of it,
/// the addresses that are held, whether a checkpoint runs, and what was counted.
#[derive(Drop)]
pub struct State {
    pub number: u64,
    pub count: u64,
    pub clients: u64,
    pub round: u64,
    pub point: Point,
    pub held: Held,
    pub running: bool,
    pub counts: Counts,
}
