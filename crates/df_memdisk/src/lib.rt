//! A disk in memory, for tests: it keeps every event, so that its log is real, and shows what the
//! log leaves. Its calls fail where a list says so, a stop may change what was loose, and a strike
//! makes a sector show other bytes than the log left there.
#![tactic(auto)]

mod change;
mod counted;
mod dropping;
mod history;
mod memory;
mod shown;
mod stop;
mod strike;
mod written;

pub use change::{Change, StopError};
pub use dropping::DroppingDisk;
pub use memory::MemoryDisk;
pub use strike::Strike;
