//! What the journal's recovery decides about a slot from what its two rings show, after protocol-aware recovery.
#![tactic(auto)]

mod cases;
mod seen;

pub use cases::{Decision, case};
pub use seen::Seen;
