//! What an open finds of a file: the superblock, the trailer, both rings, the replies, and what is to be mended.
#![tactic(auto)]

mod answers;
mod checkpoint;
mod finding;
mod planning;
mod scanned;
mod scanning;
mod superblock;
mod surveying;

pub use answers::{one_answer, one_refusal_is_given, super_is_written};
pub use df_model::OpenError;
pub use df_rooms::{DataFile, FileRooms, LogRooms, Parts, Rooms, RunningCheckpoint, Staging};
pub use finding::{
    Traces, file_is_read, find_state, found_is_answer, state_is_opened, store_replies,
    stored_is_kept,
};
pub use planning::plan;
pub use scanned::Scanned;
pub use scanning::{Copies, scan_file};
pub use superblock::{Found, probe, probe_version, read_superblock, survey_superblock};
pub use surveying::{Surveyed, survey_version, waiting_of};
