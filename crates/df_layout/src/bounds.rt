// Numbers that are the same in every layout, each under the one name by which all crates know it.

/// Headers of one sector of the header ring.
pub const SECTOR_HEADERS: u32 = 16;

/// Bytes of the root of a checkpoint, at most.
pub const ROOT: usize = 1024;

/// Blocks of the chain of a trailer, at most.
pub const LINKS: usize = 70;

/// Findings that a scrubber keeps, the newest ones.
pub const FINDINGS: usize = 64;
