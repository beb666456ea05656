// What a generated run has counted.

/// What was answered so far.
#[derive(Clone, Copy, Debug, PartialEq, Eq)]
pub struct Counts {
    /// Prepares that were appended.
    pub appended: u64,
    /// Replies that were stored.
    pub replied: u64,
    /// Blocks that were written.
    pub wrote: u64,
    /// Blocks that were released.
    pub released: u64,
    /// Checkpoints that became durable.
    pub checkpoints: u64,
    /// Commands of any kind that were refused.
    pub refused: u64,
    /// Bytes in the bodies of the prepares that were appended.
    pub bytes: u64,
}
