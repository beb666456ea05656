//! A disk of whole sectors: what it is asked to do, and what it tells of that.
#![tactic(auto)]

mod disk;

pub use disk::Disk;
