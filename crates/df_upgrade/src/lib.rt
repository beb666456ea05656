//! How a file of version 1 becomes one of version 2: it is surveyed as one of version 1, mended, and gets a superblock of version 2 and of
//! the first boot.
#![tactic(auto)]

mod base;
mod restored;
mod surveyed;
mod upgraded;
mod upgrading;

pub use df_damage::Rooms;
pub use df_model::{MendError, OpenError};
pub use df_recovery::probe_version;
pub use df_superblock::UpdateError;
pub use surveyed::{Surveyed, survey};
pub use upgraded::{Upgraded, upgrade_file, upgrade_surveyed};
pub use upgrading::upgrade;
