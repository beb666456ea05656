//! What a replica keeps of its file: the state, in the words of the machine too, and the rooms that serve it.
#![tactic(auto)]

mod file;
mod file_rooms;
mod grid_rooms;
mod log_rooms;
mod parts;
mod recorded;
mod rooms;
mod running;
mod staging;
mod trailer_rooms;

pub use file::DataFile;
pub use file_rooms::FileRooms;
pub use grid_rooms::{GridRooms, ScrubRooms};
pub use log_rooms::LogRooms;
pub use parts::Parts;
pub use recorded::stored_checks;
pub use rooms::Rooms;
pub use running::RunningCheckpoint;
pub use staging::Staging;
pub use trailer_rooms::{ReaderRoom, TrailerRooms};
