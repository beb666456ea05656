// One line of a table's script, as its words say it.

/// A line. The value stands in the buffer that the line was read with, and `length` is the number of its bytes.
#[derive(Clone, Copy, Debug, PartialEq, Eq)]
pub enum Line {
    /// `put KEY BODY`
    Put { key: u128, length: u64 },
    /// `drop KEY`
    Drop { key: u128 },
    /// `get KEY`
    Get { key: u128 },
    /// `count`
    Count,
}
