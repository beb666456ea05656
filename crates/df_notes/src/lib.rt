//! Notes in a data file: a file is opened, and made where the disk is blank; notes are appended to it, each with its reply, and what
//! stands there is printed. All that a run does is one function, `keep_notes`; the program `notes` is its edge.
#![tactic(auto)]

mod ended;
mod keeping;
mod printing;
mod running;
mod staying;

pub use ended::Ended;
pub use running::keep_notes;
pub use staying::kept_notes_stay;
