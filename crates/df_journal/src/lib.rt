//! The journal: what recovery sees in the two rings and decides of each slot, the tail that it finds there, and the append of a
//! prepare with its header, or of a group of them: puts, and a settling of what was put.
#![tactic(auto)]

mod appends;
mod counts;
mod flushing;
mod known;
mod reach;
mod reads;
mod seen;
mod settling;
mod table;

pub use appends::{append, put};
pub use counts::{bound_top, count_rings, is_behind, is_lost};
pub use df_group::{Reach, Tail};
pub use flushing::flush;
pub use known::{lacking_known, slot_of};
pub use reach::find_reach;
pub use reads::{scan, scan_shelf, scanned_is_shown};
pub use settling::settle;
pub use table::{SlotTable, Start, pin_of};
