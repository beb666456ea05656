//! What damage can do to a file, in sectors: what an open finds on a disk that was hurt, and why it refuses. The crates above have what
//! an open finds through this one.
#![tactic(auto)]

mod anew;
mod disks;
mod lived;
mod needed;
mod opening;
mod refusing;

pub use anew::{a_log_is_begun_anew, what_is_found_may_begin};
pub use df_recovery::{
    Copies, DataFile, Found, LogRooms, Parts, Rooms, RunningCheckpoint, Scanned, Staging, Surveyed,
    Traces, file_is_read, find_state, found_is_answer, one_answer, plan, probe, read_superblock,
    scan_file, state_is_opened, store_replies, stored_is_kept, super_is_written, survey_superblock,
    survey_version, waiting_of,
};
pub use disks::what_is_left_may_be_hurt;
pub use lived::{found_state_was_had_since, history_goes_on};
pub use needed::needed_units_were_written;
pub use opening::{
    answer_is_of_hurt, checkpoint_stays, found_state_was_had, headers_are_not_needed, headers_tell,
    two_copies_are_enough,
};
pub use refusing::{
    found_is_not_refused, probe_is_of_hurt, refusals_are_of_damage, refusals_blame_what_is_hurt,
};
