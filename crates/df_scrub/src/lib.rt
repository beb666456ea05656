//! The scrubber: a tour over the referenced blocks of the grid, block by block or whole, and the ring of what it found last.
#![tactic(auto)]

mod scrubber;
mod steps;

pub use df_layout::Finding;
pub use df_model::{Scrubbed, Verdict};
pub use scrubber::Scrubber;
