// What stands at a place in place of the unit that is wanted there, and lists of such findings.
use crate::Place;

/// What is shown at a place that doesn't show the unit wanted: the first of these that applies.
#[derive(Clone, Copy, Debug, PartialEq, Eq)]
pub enum Class {
    /// Zeros, as a place that was never written shows.
    Blank,
    /// Bytes that are no whole unit.
    Garbled,
    /// A whole unit that belongs at that other place.
    Elsewhere(Place),
    /// A unit that is valid there and isn't the one wanted.
    Stale,
}

/// A place that is to be written again, and what it shows.
#[derive(Clone, Copy, Debug, PartialEq, Eq)]
pub struct Mend {
    pub place: Place,
    pub class: Class,
}

/// A block that failed its check, and what its address shows.
#[derive(Clone, Copy, Debug, PartialEq, Eq)]
pub struct Finding {
    pub address: u64,
    pub class: Class,
}
