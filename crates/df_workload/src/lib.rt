//! A generated run of commands: what it asks for next, by its seed, its length and the answers so far.
#![tactic(auto)]

mod asked;
mod counts;
mod draw;
mod generator;
mod hearing;
mod held;
mod outcome;
mod rounds;
mod state;

pub use asked::Asked;
pub use counts::Counts;
pub use draw::number_body;
pub use generator::Generator;
pub use held::Held;
pub use outcome::{Outcome, outcome_in};
pub use state::{Point, State};
