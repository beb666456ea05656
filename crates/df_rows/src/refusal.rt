// Why a line of a table's script is refused. A refused line changes nothing.
ghost use Rattle.std.specs.Prelude.{◌≡◌, None};
ghost use Rattle.df_rows.specs.Answers.{missing, refusal_of};
ghost use Rattle.df_rows.specs.declared.line.Line.TheVariants as lines;

use crate::line::Line;
use crate::row::LONGEST_VALUE;
use crate::table::ObjectTable;

/// The cause, the first in this order.
#[derive(Clone, Copy, Debug, PartialEq, Eq)]
pub enum Refusal {
    /// A value is longer than `max` bytes.
    ValueTooLong { max: u64 },
    /// The key is new, and the table has `max` rows, as many as it may have.
    TableFull { max: u64 },
    /// The table doesn't have the key.
    NoKey,
}

impl ObjectTable {
    /// Why the line is refused, None where it isn't.
    pub fn refusal(&self, line: &Line) -> Option<Refusal>
        ensures { result ≡ refusal_of self.now line.now }
    {
        match *line {
            Line::Put { key, length } => self.put_refusal(key, length),
            Line::Drop { key } | Line::Get { key } => self.missing(key),
            Line::Count => None,
        }
    }

    // Why a value of this length isn't put under the key.
    fn put_refusal(&self, key: u128, length: u64) -> Option<Refusal>
        ensures { result ≡ refusal_of self.now (lines.Put key length) }
    {
        if length > LONGEST_VALUE as u64 {
            return Some(Refusal::ValueTooLong {
                max: LONGEST_VALUE as u64,
            });
        }
        if !self.has(key) && self.max() <= self.len() {
            return Some(Refusal::TableFull { max: self.max() });
        }
        None
    }

    // Why the key isn't there.
    fn missing(&self, key: u128) -> Option<Refusal>
        ensures { result ≡ missing self.now key }
    {
        if self.has(key) {
            None
        } else {
            Some(Refusal::NoKey)
        }
    }
}
