//! The ring of prepares: how a prepare is written into its slot.
#![tactic(auto)]

mod slot;

pub use slot::{put_prepare, stands_in_slot, write_prepare};
