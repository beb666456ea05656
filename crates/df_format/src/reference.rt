// What one unit knows of another that stands in the grid.
use df_base::Check;

/// A block of the grid, and the checksum that its header has to have.
#[derive(Clone, Copy, Debug, PartialEq, Eq)]
pub struct Reference {
    /// The block's address, from 1.
    pub address: u64,
    /// The checksum of the block's header.
    pub checksum: Check,
}
