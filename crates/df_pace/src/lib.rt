//! Background work beside a script: when it is due, and that it does not change what the script is answered.
#![tactic(auto)]

mod beat;
mod beside;
mod pace;
mod timing;
mod worked;

pub use beat::{Beat, Piece};
pub use beside::{
    a_paced_script_is_a_session, scrubbing_is_unseen, work_is_done_piece_by_piece,
    work_is_unseen_in_the_log,
};
pub use pace::{Due, Pace};
pub use timing::due;
pub use worked::{a_begin_stays_due, a_long_session};
