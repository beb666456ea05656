//! The object table: a map of keys to small values in a data file. A put or a drop is a prepare of the one client, which is replied to at once; where the ring has no slot for the next
//! one, the table is written as blocks of a checkpoint; an open reads these blocks and applies the prepares after them. What was answered is there after any stop.
#![tactic(auto)]

mod appending;
mod calls;
mod checkpointing;
mod ending;
mod engine;
mod meaning;
mod opening;
mod serving;
mod session;
mod status;
mod turns;

pub use ending::Ending;
pub use engine::{USAGE, run_table};
pub use meaning::{
    a_safe_table_is_served, a_table_is_one, an_opening_finds_one_thing, rows_are_in_order,
    sessions_may_leave_the_table, what_is_found_is_the_table,
};
pub use status::Status;
