//! The replica as plain data: its state, what each call answers and why it is refused, and what each call owes to the device.
#![tactic(auto)]

mod answers;
mod commands;
mod errors;
mod faults;
mod machine;
mod raising;
mod reading;

pub use answers::{Progress, Receipt, Scrubbed, Summary, Verdict};
pub use commands::{Answer, Command};
pub use df_format::Reference;
pub use df_layout::{Finding, Mend};
pub use errors::{
    AppendError, BeginError, BlockError, FlushError, FormatError, MendError, NotLive, OpenError,
    ReplyError, StepError,
};
pub use machine::{
    a_tour_lists_what_fails, answers_are_the_result, append_may_be_made, block_may_be_written,
    checkpoint_may_be_finished, commands_are_moments, commands_go_on, commands_keep_sense,
    commands_lead_on, group_may_be_flushed, memory_answers, memory_changes_so, one_thing_happens,
    opened_is_kept, opened_makes_sense, reply_may_be_stored, runs_lead_on, what_is_kept_is_read,
};
pub use raising::{boot_may_be_raised, open_leads_on, raised_file_is_kept};
pub use reading::{LookupError, PrepareError, ReadError};
