//! Histories of several logs: what damage before any number of opens can do to a file, over places and units.
#![tactic(auto)]

mod histories;
mod opens;

pub use histories::{
    a_damaged_file_is_opened_three_times, a_history_is_lived, a_survivor_is_passed_over,
    found_was_lived, one_content_a_rank, one_log_is_a_history, one_prepare_an_op_and_boot,
    one_reply_an_op_and_boot,
};
pub use opens::{
    boot_stays_lived, choice_stays, commands_stay_lived, first_log_is_lived,
    found_since_the_last_boot, history_goes_on, mending_stays_lived, open_stays_lived,
    raised_log_stays_lived, rest_stays_lived, stopped_upgrade_begins, upgraded_file_begins,
};
