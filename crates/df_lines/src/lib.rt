//! The lines of a script: their grammar, and their reading in pieces through one buffer, which serves other grammars too.
#![tactic(auto)]

mod arguments;
mod kind;
mod line;
mod meaning;
mod next;
mod number;
mod parser;
mod reader;
mod window;
mod words;

pub use arguments::{decode, sized};
pub use kind::LineKind;
pub use line::Line;
pub use meaning::one_meaning;
pub use next::Next;
pub use number::{u32_of, u64_of, u128_of};
pub use reader::LineRoom;
pub use window::{Found, Window};
pub use words::cut;
