// A row: a key and its value, and the bytes that they take in a block.
ghost use Rattle.std.specs.Prelude.{◌≡◌, ◌↔◌, ◌<◌, ◌≤◌, ◌-◌, length, replicate, IsTrue, IfSome, IfNone};
ghost use Rattle.df_rows.specs.Rows.{Entry, IsEntry, row_of};

use crate::bytes::{KEY, RowBytes, put, put_key, put_zeros};
use arrayvec::ArrayVec;
use df_base::u128_at;
use std::marker::Model;

/// Bytes of the longest value.
pub const LONGEST_VALUE: usize = 47;

/// A key and its value.
#[derive(Drop)]
pub struct Row {
    key: u128,
    value: ArrayVec<u8, LONGEST_VALUE>,
}

impl Model for Row {
    ghost use Rattle.std.specs.Prelude.{List, ℕ};
    ghost use Rattle.df_rows.specs.Rows.{IsEntry};

    ghost Value = { ℕ × List ℕ };

    ghost view = { λ r. (r.key, r.value.items) };

    ghost invariant = { λ r. IsEntry (r.key, r.value.items) };
}

impl Row {
    /// The row of this key and this value.
    pub fn new(key: u128, value: &[u8]) -> Row
        requires { length value.now ≤ 47 }
        ensures { result ≡ (key, value.now) }
    {
        let mut bytes = ArrayVec::new();
        let _ = bytes.try_extend_from_slice(value);
        Row { key, value: bytes }
    }

    /// The key.
    pub fn key(&self) -> u128
        ensures key { result ≡ self.now.0 }
        ensures fits { IsEntry self.now }
    {
        self.key
    }

    /// The value.
    pub fn value(&self) -> &[u8]
        ensures value { result.now ≡ self.now.1 }
        ensures fits { IsEntry self.now }
    {
        self.value.as_slice()
    }

    /// The 64 bytes of the row: its key with the lowest byte first, how many bytes its value has, the value, and zeros.
    pub fn encode(&self) -> RowBytes
        ensures bytes { result.items ≡ row_of self.now }
        ensures length { length result.items ≡ 64 }
    {
        let value = self.value();
        let mut bytes = ArrayVec::new();
        put_key(&mut bytes, self.key());
        put(&mut bytes, &[value.len() as u8]);
        put(&mut bytes, value);
        put_zeros(&mut bytes, LONGEST_VALUE - value.len());
        bytes
    }

    /// The row that 64 bytes are, or None where they are none: a value is longer than it may be, or a byte after it isn't zero.
    pub fn decode(bytes: &[u8]) -> Option<Row>
        requires { length bytes.now ≡ 64 }
        ensures found { IfSome result (λ row. bytes.now ≡ row_of row) }
        ensures fits { IfSome result IsEntry }
        ensures none { IfNone result ((entry : Entry) → IsEntry entry → bytes.now ≡ row_of entry → ⊥) }
    {
        let length = usize::from(bytes[KEY]);
        if length > LONGEST_VALUE {
            return None;
        }
        let (value, rest) = bytes[KEY + 1..].split_at(length);
        if !are_zeros(rest) {
            return None;
        }
        Some(Row::new(u128_at(bytes, 0), value))
    }
}

/// Tells whether all bytes are zeros.
fn are_zeros(bytes: &[u8]) -> bool
    ensures { IsTrue result ↔ (bytes.now ≡ replicate (length bytes.now) 0) }
{
    bytes.iter().all(|byte| *byte == 0)
}
