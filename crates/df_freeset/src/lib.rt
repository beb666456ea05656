//! The free set: which addresses of the grid's blocks are taken, one bit each.
#![tactic(auto)]

mod bits;
mod set;

pub use set::FreeSet;
