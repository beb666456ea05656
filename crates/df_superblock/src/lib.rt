//! The four copies of the superblock on disk: how they are read, written and mended, and what a stop may leave of them at
//! every moment.
#![tactic(auto)]

mod copies;
mod misleading;
mod updates;

pub use copies::{first_written, read_all, write_copy};
pub use misleading::a_start_can_mislead;
pub use updates::{UpdateError, repair, update, write_copies};
