//! Units on a disk: a unit is written into its place and made durable, and a place is read into a room, or onto a shelf that lends
//! the unit it holds.
#![tactic(auto)]

mod shelf;
mod units;

pub use shelf::Shelf;
pub use units::{put_unit, read_place, write_unit};
