//! The choice among the four copies of the superblock: the greatest content on which two agree.
#![tactic(auto)]

mod best;
mod choice;
mod choice_laws;
mod slot;
mod votes;

pub use choice::{Chosen, choose};
pub use choice_laws::{
    copies_decide, one_is_chosen, three_equal_are_chosen, two_newest_are_chosen,
};
pub use slot::Slot;
pub use votes::same_fields;
