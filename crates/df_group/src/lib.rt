//! Groups of prepares, over plain headers and without a disk: which prepare fits after others, where the last whole group of a walk
//! along them ends, and what a header or a prepare above that end says of it.
#![tactic(auto)]

mod groups;
mod reach;
mod words;

pub use groups::{Position, Tail, binding_op, empty_tail, goes_on, position_behind, position_of};
pub use reach::{Reach, keep_whole};
pub use words::{groups_follow_one_another, head_is_told, lost_is_told, survivors_are_told};
