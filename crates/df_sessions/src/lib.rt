//! The sessions of a file's clients: each one's latest request, and its reply once that is stored.
#![tactic(auto)]

mod passing;
mod session;
mod table;

pub use passing::{ops_stay_apart, requests_of_a_table, sessions_keep_passing};
pub use session::Session;
pub use table::SessionTable;
