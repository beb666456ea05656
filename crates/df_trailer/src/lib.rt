//! The text of a checkpoint's trailer: root, sessions, and which blocks of the grid are referenced, made and read in pieces.
#![tactic(auto)]

mod bitmap;
mod captured;
mod fault;
mod groups;
mod head;
mod meaning;
mod parts;
mod reader;
mod size;
mod window;
mod writer;

pub use captured::{CapturedBlocks, GROUP};
pub use fault::Fault;
pub use meaning::{
    parts_have_one_text, refusals_stay, sizes_are_exact, spelling_is_a_codec, text_has_one_parts,
};
pub use parts::Parts;
pub use reader::Reader;
pub use size::{blocks_needed, trailer_size};
pub use writer::piece;
