//! Joins the bytes of a data file to the theory (`df_theory`), for every layout and cluster: which unit each place shows, which units
//! each kind of write puts, and that a call whose events are steps of the theory has at each moment what those steps have. Laws alone:
//! no code runs here, and what is built above speaks of places.
#![tactic(auto)]

mod append;
mod calls;
mod format;
mod making;
mod puts;
mod sample;
mod shown;
mod superblocks;
mod tells;
mod wanted;

pub use append::append_is_survived;
pub use calls::calls_are_steps;
pub use format::{blank_image_is_empty, places_have_their_sectors};
pub use making::{format_is_survived, new_disk_is_making};
pub use puts::{block_is_put, copy_is_put, headers_are_put, prepare_is_put, reply_is_put};
pub use sample::{one_of_sixteen_is_new, tables_are_written};
pub use shown::{read_is_unit, units_are_of_places};
pub use superblocks::{choice_is_chosen, usable_passes};
pub use tells::{checksums_are_numbers, header_sectors_tell, trailers_tell};
pub use wanted::{classes_tell, wanted_units_are_told};
