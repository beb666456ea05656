//! What the program does: its words, its script, its answers and its status.
#![tactic(auto)]

mod background;
mod completeness;
mod engine;
mod making;
mod mode;
mod reads;
mod reporting;
mod resulting;
mod ring;
mod scrubbing;
mod serving;
mod session;
mod spoken;
mod status;
mod telling;
mod turns;
mod upgrading;
mod working;
mod works;

pub use completeness::{a_blank_disk_is_formatted, a_safe_file_is_served, an_old_file_is_upgraded};
pub use df_pace::Pace;
pub use df_session::Rooms;
pub use engine::run;
pub use mode::{Mode, mode_of, words_have_one_meaning};
pub use reporting::an_image_has_one_report;
pub use resulting::a_script_has_one_text;
pub use serving::serve;
pub use status::Status;
