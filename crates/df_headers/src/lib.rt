//! The ring of redundant headers: the table of what each slot of it is to show, and the writes and reads of its sectors.
#![tactic(auto)]

mod sectors;
mod table;

pub use sectors::read_sector;
pub use table::{HeaderTable, reserved_header, tables_are_written};
