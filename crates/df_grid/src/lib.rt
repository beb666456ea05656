//! The grid: the table of blocks, which addresses are held and why, and the writes and reads of blocks and of a checkpoint's trailer.
#![tactic(auto)]

mod changes;
mod entry;
mod grid;
mod reads;
mod table;
mod writes;

pub use grid::{Grid, chains_have_room};
pub use reads::known_at;
