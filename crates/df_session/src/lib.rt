//! A list of calls on an open file, whatever they are and whoever asks for them: each is made and answered, and what of all of them is
//! kept. The programs that work with a file make their calls through it, cite what it says of them, and have the replica through it.
#![tactic(auto)]

mod calls;
mod checksums;
mod hearing;
mod keeping;
mod results;

pub use calls::make;
pub use checksums::units_have_their_checksums;
pub use df_replica::{
    FormatError, OpenError, Replica, Rooms, Scrubbed, Surveyed, Verdict, format, probe, survey,
};
pub use hearing::{Fault, hear};
pub use keeping::calls_on_an_open_file_keep_it;
pub use results::{a_call_answers_the_result, what_agrees_is_not_told_apart};
