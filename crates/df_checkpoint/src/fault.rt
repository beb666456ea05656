// Why a checkpoint's trailer isn't read.
ghost use Rattle.std.specs.Prelude.{◌≡◌};
ghost use Rattle.df_checkpoint.specs.Chain.{error_of, is_trailer_fault};

use df_base::BlamesDisk;
use df_layout::{Class, Field, Place, Zone};
use df_model::OpenError;

/// Why a trailer is refused: the first reason in the order of an open.
#[derive(Clone, Copy, Debug, PartialEq, Eq)]
pub enum TrailerFault {
    /// A block of the chain isn't shown; the class of what its address shows.
    Damaged { address: u64, class: Class },
    /// `TrailerChain` with the address of a block that isn't the link that the chain asks for, or that is referenced; or the first part
    /// of the text that fails, with its value.
    BadField { field: Field, value: u128 },
    /// The disk failed.
    DiskFault,
}

impl BlamesDisk for TrailerFault {
    ghost is_fault = { is_trailer_fault };

    fn is_fault(&self) -> bool
        ensures { result ≡ is_trailer_fault self.now }
    {
        *self == TrailerFault::DiskFault
    }
}

impl TrailerFault {
    /// Why the file isn't opened: a block of the chain that isn't shown is named by its place in the grid.
    pub fn refusal(self) -> OpenError
        ensures { result ≡ error_of self }
    {
        match self {
            TrailerFault::Damaged { address, class } => OpenError::Damaged {
                place: Place {
                    zone: Zone::Grid,
                    index: address,
                },
                class,
            },
            TrailerFault::BadField { field, value } => OpenError::BadField { field, value },
            TrailerFault::DiskFault => OpenError::DiskFault,
        }
    }
}
