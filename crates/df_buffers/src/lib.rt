//! Rooms for units: raw ones that hold any bytes, filled ones with a body that waits for its header, and sound ones whose bytes are a unit that is
//! valid at its own place.
#![tactic(auto)]

mod filled;
mod find;
mod identity;
mod kinds;
mod make;
mod probe;
mod raw;
mod slots;
mod sound;

pub use filled::Filled;
pub use identity::{Identity, Wanted};
pub use kinds::{Block, HeaderSector, Prepare, Reply, RoomKind, SuperSector, Trailer, UnitKind};
pub use probe::ProbeRoom;
pub use raw::Raw;
pub use slots::SlotSeen;
pub use sound::Sound;
