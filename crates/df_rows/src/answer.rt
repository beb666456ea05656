// What a line of a table's script is answered.
use crate::refusal::Refusal;

/// An answer.
#[derive(Clone, Copy, Debug, PartialEq, Eq)]
pub enum Answer<'a> {
    /// `put OP`: the key has the value, by the prepare with this op.
    Put { op: u64 },
    /// `dropped OP`: the key and its value are gone, by the prepare with this op.
    Dropped { op: u64 },
    /// `KEY BODY`: the key's value.
    Found { key: u128, value: &'a [u8] },
    /// `count N`: how many rows there are.
    Counted { rows: u64 },
    /// Why the line is refused.
    Refused(Refusal),
}
