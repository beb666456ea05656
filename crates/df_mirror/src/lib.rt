//! Mending a data file from a second one: what the first file lacks of its known units is taken from the second, each by its checksum alone. What walks the known units knows no second file: it goes
//! from place to place as units become shown, and each is proved, taken and written by one function.
#![tactic(auto)]

mod ending;
mod engine;
mod laws;
mod mending;
mod replies;
mod status;
mod superblock;
mod trailer;
mod unit;

pub use ending::Ending;
pub use engine::{USAGE, mirror};
pub use laws::{
    a_mended_file_is_opened, a_mended_unit_was_written, known_units_stay, mends_go_on,
    the_outcome_is_one, units_come_in_order,
};
pub use status::Status;
