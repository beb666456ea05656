//! One file as a disk: the trusted edge to the operating system.
#![tactic(auto)]

mod file;
mod opening;
mod positioned;
mod streams;

pub use file::FileDisk;
