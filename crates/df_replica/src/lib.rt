//! The replica: the data file that was opened, and the calls that work on it.
#![tactic(auto)]

mod append;
mod begin;
mod block;
mod block_laws;
mod block_reading;
mod flush;
mod lending;
mod lookup;
mod opened;
mod reading;
mod refusing;
mod replica;
mod reply;
mod scrubbing;
mod session_laws;
mod step;
mod surveyed;

pub use block_laws::held_blocks_are_shown;
pub use df_layout::Finding;
pub use df_model::{
    AppendError, BeginError, BlockError, FlushError, FormatError, LookupError, MendError, NotLive,
    OpenError, PrepareError, Progress, ReadError, Receipt, ReplyError, Scrubbed, StepError,
    Verdict,
};
pub use df_opening::{
    DataFile, Found, Rooms, file_is_read, format, found_is_answer, one_answer, probe,
    read_superblock, state_is_opened, stored_is_kept, super_is_written, survey_superblock,
    what_is_left_may_be_opened, what_is_safe_is_not_refused,
};
pub use lending::what_is_lent_was_written;
pub use replica::Replica;
pub use session_laws::{
    a_fault_stops_them, nothing_is_served, one_more_is_served, what_was_answered_is_there,
};
pub use surveyed::{Surveyed, survey};
