//! A copy of a data file at rest to another layout: more slots or fewer, larger messages or smaller ones, more blocks or fewer. The source is opened as any file is; each of its replies and blocks is
//! read once and written into the target, and the target's superblock comes last.
#![tactic(auto)]

mod begun;
mod blocks;
mod copying;
mod ending;
mod engine;
mod plan;
mod replies;
mod status;
mod superblock;
mod taking;
mod target;
mod telling;
mod trailer;

pub use ending::Ending;
pub use engine::{USAGE, copy};
pub use status::Status;
pub use taking::{a_copied_file_begins, a_damaged_copy_is_opened};
