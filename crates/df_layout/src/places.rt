// The zones of a data file, the places in them, and runs of sectors.

/// The zones, in the order in which they stand in the file.
#[derive(Clone, Copy, Debug, PartialEq, Eq)]
pub enum Zone {
    /// The four copies of the superblock.
    Superblock,
    /// The ring of redundant headers, sixteen slots to a sector.
    WalHeaders,
    /// The ring of whole prepares.
    WalPrepares,
    /// One slot for each session, which keeps its latest reply.
    ClientReplies,
    /// The blocks, after padding up to a whole number of blocks.
    Grid,
}

/// A place where one unit stands.
#[derive(Clone, Copy, Debug, PartialEq, Eq)]
pub struct Place {
    pub zone: Zone,
    /// The number of a copy (from 0), a slot of a ring (from 0), a session's place (from 0) or a block's address (from 1).
    pub index: u64,
}

/// A run of sectors.
#[derive(Clone, Copy, Debug, PartialEq, Eq)]
pub struct Span {
    /// The number of the first sector.
    pub first: u64,
    /// How many sectors there are.
    pub count: u64,
}
