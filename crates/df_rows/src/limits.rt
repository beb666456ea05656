// How many rows a table may have, and how many blocks that takes.
ghost use Rattle.std.specs.Prelude.{◌≡◌, ◌≤◌, ◌^◌, ◌<◌};
ghost use Rattle.df_rows.specs.Limits as limits;

use crate::bytes::ROW;
use df_base::HEADER;
use df_layout::Layout;

/// Rows of the largest table, whatever the layout.
const MOST: u64 = 65_536;

/// How many rows a block has room for.
pub fn rows_in_block(layout: &Layout) -> u64
    ensures value { result ≡ limits.rows_in_block layout.now }
    ensures some { 60 ≤ result }
    ensures most { result < 2 ^ 14 }
{
    u64::from(layout.block_size - HEADER as u32) / ROW as u64
}

/// How many blocks a table takes at most: a third of all but four, so that a table that is written stands beside the one that the durable
/// checkpoint holds, with both trailers.
pub fn blocks_of_table(layout: &Layout) -> u64
    ensures value { result ≡ limits.blocks_of_table layout.now }
    ensures some { 1 ≤ result }
    ensures most { result < 2 ^ 14 }
{
    (u64::from(layout.blocks) - 4) / 3
}

/// How many rows a table may have: as many as its blocks have room for, and at most 65,536.
pub fn most_rows(layout: &Layout) -> u64
    ensures value { result ≡ limits.most_rows layout.now }
    ensures most { result ≤ 65536 }
{
    MOST.min(rows_in_block(layout) * blocks_of_table(layout))
}
