// Why nothing is read: the errors of the three calls that read a unit.
use df_layout::{Class, Place};

/// Why a prepare isn't read; the first of these that applies.
#[derive(Clone, Copy, Debug, PartialEq, Eq)]
pub enum PrepareError {
    /// The ring keeps the ops from `first` to `last` alone.
    NotKept { first: u64, last: u64 },
    /// Its slot doesn't show it.
    Damaged { place: Place, class: Class },
    /// The disk failed.
    DiskFault,
}

/// Why a client's reply isn't read; the first of these that applies.
#[derive(Clone, Copy, Debug, PartialEq, Eq)]
pub enum LookupError {
    /// The client has no session.
    NoClient,
    /// Its last request, which got this op, waits for its reply.
    ReplyPending { op: u64 },
    /// Its slot doesn't show the reply.
    Damaged { place: Place, class: Class },
    /// The disk failed.
    DiskFault,
}

/// Why a block isn't read; the first of these that applies.
#[derive(Clone, Copy, Debug, PartialEq, Eq)]
pub enum ReadError {
    /// The address isn't live.
    NotLive,
    /// It doesn't show the block.
    Damaged { place: Place, class: Class },
    /// The disk failed.
    DiskFault,
}
