//! A checkpoint's trailer on the disk: its text is written as a chain of blocks, and read back from the last block of the chain.
#![tactic(auto)]

mod adopting;
mod capture;
mod fault;
mod links;
mod meaning;
mod reading;

pub use capture::{Capture, root_of, write_piece};
pub use fault::TrailerFault;
pub use links::{Link, is_among, link_before};
pub use meaning::{damage_is_missed, one_test_fails, refused_is_shown, refused_is_unreadable};
pub use reading::{block_count, pending, read_chain};
