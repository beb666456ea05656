//! Evidence: whether the units that a file shows are newer than the state that was found in it.
#![tactic(auto)]

mod counters;

pub use counters::{Counters, behind, lost};
