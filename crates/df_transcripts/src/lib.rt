//! Transcripts: texts that run the programs over disks in memory and say what is printed, how a run ends, and how often the device is
//! called. A transcript is played line by line; each thing that it says is compared with what came.
#![tactic(auto)]

mod case;
mod definitions;
mod disks;
mod filling;
mod lines;
mod numbers;
mod player;
mod programs;
mod running;
mod sectors;
mod sums;
mod trouble;
mod words;

pub use player::{Played, play};
pub use trouble::Trouble;
