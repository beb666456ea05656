// Why a line of a transcript isn't done.
use df_base::OutOfMemory;
use std::alloc::{AllocError, AllocFailed};

/// Why a line isn't done.
#[derive(Clone, Copy, Debug, PartialEq, Eq)]
pub enum Trouble {
    /// Want of memory, for which all ends.
    OutOfMemory,
    /// The line has no meaning, for this reason.
    NoMeaning(&'static str),
}

impl From<AllocError> for Trouble {
    fn from(_refused: AllocError) -> Trouble {
        Trouble::OutOfMemory
    }
}

impl From<OutOfMemory> for Trouble {
    fn from(_refused: OutOfMemory) -> Trouble {
        Trouble::OutOfMemory
    }
}

impl<T: Drop> From<AllocFailed<T>> for Trouble {
    fn from(_refused: AllocFailed<T>) -> Trouble {
        Trouble::OutOfMemory
    }
}
