// The kinds of units, each with the code of its header.

/// What a unit is; the header's byte 120 says it.
#[derive(Clone, Copy, Debug, PartialEq, Eq)]
pub enum Kind {
    /// Code 1: a header alone, of a slot of the header ring that no prepare has yet.
    Reserved,
    /// Code 2: an entry of the write-ahead log.
    Prepare,
    /// Code 3: the answer to a prepare, one for each session.
    Reply,
    /// Code 4: a block of the grid.
    Block,
    /// Code 5: a block of the grid that holds a part of a checkpoint's trailer.
    Trailer,
}
