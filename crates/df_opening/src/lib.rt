//! How a data file is made, surveyed, mended and opened: what stands before any call on it.
#![tactic(auto)]

mod completeness;
mod first;
mod following;
mod making;
mod mending;
mod opened;
mod planned;

pub use completeness::what_is_safe_is_not_refused;
pub use df_damage::{
    DataFile, Found, LogRooms, Parts, Rooms, RunningCheckpoint, Staging, file_is_read,
    found_is_answer, one_answer, probe, read_superblock, state_is_opened, stored_is_kept,
    super_is_written, survey_superblock,
};
pub use df_model::{FormatError, MendError, OpenError};
pub use df_quorum::Chosen;
pub use following::what_is_left_may_be_opened;
pub use making::{format, test_blank, write_headers, write_synced};
pub use mending::{mend_file, write_mends};
pub use opened::{SurveyedFile, open_file, refusal_of, survey_file};
pub use planned::an_image_is_mended_in_one_way;
