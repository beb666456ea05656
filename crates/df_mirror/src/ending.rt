// Why a mending ends before all known units are shown.
use df_layout::{Class, Place};
use df_opening::OpenError;

/// Why a mending ends before all known units are shown.
#[derive(Clone, Copy, Debug, PartialEq, Eq)]
pub enum Ending {
    /// The first file's disk failed.
    First,
    /// The second file's disk failed.
    Second,
    /// The sink failed.
    Sink,
    /// The first file's trailer fails a test, as in an open.
    Unopened { error: OpenError },
    /// Neither file shows the unit that is known at a place; the class of what the first one shows there.
    Neither { place: Place, class: Class },
}
