// The blocks that hold a table, written and read.
ghost use Rattle.std.specs.{Prelude.{◌≡◌, ◌<◌, ◌≤◌, ◌+◌, ◌*◌, ◌++◌, List, length, take, IfSome, IfNone}, Bool.{OnTrue, OnFalse}, Fork.{slice_chunk}};
ghost use Rattle.std.specs.FinMap as map;
ghost use Rattle.df_rows.specs.Limits as limits;
ghost use Rattle.df_rows.specs.{Rows.{Entry, IsEntry, row_of, rows_of}, Tables.{IsNew, with_row, with_rows}, Blocks.{TableTakes}};

use crate::bytes::ROW;
use crate::limits::rows_in_block;
use crate::row::Row;
use crate::table::ObjectTable;
use df_layout::Layout;

impl ObjectTable {
    /// How many blocks the table takes.
    pub fn blocks(&self, layout: &Layout) -> u64
        ensures { result ≡ limits.block_count (limits.rows_in_block layout.now) (map.len self.now.rows) }
    {
        self.len().div_ceil(rows_in_block(layout))
    }

    /// Puts the rows of a block, counted from 0, at the front of `into`, and says how many bytes they are.
    pub fn put_block(&self, layout: &Layout, block: u64, into: &mut [u8]) -> usize
        requires block { block < limits.block_count (limits.rows_in_block layout.now) (map.len self.now.rows) }
        requires room { 64 * limits.rows_in_block layout.now ≤ length into.old }
        ensures size { result ≤ length into.old }
        ensures few { result ≤ 64 * limits.rows_in_block layout.now }
        ensures len { length into.new ≡ length into.old }
        ensures bytes { take result into.new ≡ rows_of (slice_chunk (map.entries self.now.rows) (limits.rows_in_block layout.now) block) }
    {
        let rows = self.rows();
        put_rows(chunk(rows, rows_in_block(layout), block), into)
    }

    /// The table with the rows that the body of a block has, or None where the body isn't whole rows, a key isn't new, or there is no room.
    pub fn with_block(mut self, body: &[u8]) -> Option<ObjectTable>
        ensures taken { IfSome result (λ t. (entries : List Entry) × TableTakes self body.now entries × (t ≡ with_rows entries self)) }
        ensures none { IfNone result ((entries : List Entry) → TableTakes self body.now entries → ⊥) }
    {
        if !body.len().is_multiple_of(ROW) {
            return None;
        }
        for k in 0..body.len() / ROW {
            if !self.take_row(&body[ROW * k..ROW * (k + 1)]) {
                return None;
            }
        }
        Some(self)
    }

    // Puts the row that these bytes are, where its key is new and there is room for it. Nothing is said of the table where not.
    fn take_row(&mut self, bytes: &[u8]) -> bool
        requires { length bytes.now ≡ 64 }
        ensures taken { OnTrue result ((entry : Entry) × IsEntry entry × (bytes.now ≡ row_of entry) × IsNew self.old entry.0
            × (self.new ≡ with_row entry self.old)) }
        ensures refused { OnFalse result ((entry : Entry) → IsEntry entry → bytes.now ≡ row_of entry → IsNew self.old entry.0 → ⊥) }
    {
        let Some(row) = Row::decode(bytes) else {
            return false;
        };
        if !self.is_new(row.key()) {
            return false;
        }
        self.put(row);
        true
    }
}

// The rows of a block.
fn chunk(rows: &[Row], per: u64, block: u64) -> &[Row]
    requires some { 0 < per }
    requires block { block < limits.block_count per (length rows.now) }
    ensures rows { result.now ≡ slice_chunk rows.now per block }
    ensures few { length result.now ≤ per }
{
    let from = (block * per) as usize;
    let count = (per as usize).min(rows.len() - from);
    &rows[from..from + count]
}

// Puts rows one after the other at the front of `into`, and says how many bytes they are.
fn put_rows(rows: &[Row], into: &mut [u8]) -> usize
    requires { 64 * length rows.now ≤ length into.old }
    ensures size { result ≡ 64 * length rows.now }
    ensures len { length into.new ≡ length into.old }
    ensures bytes { take result into.new ≡ rows_of rows.now }
{
    for (k, row) in rows.iter().enumerate() {
        put_row(row, k, into);
    }
    ROW * rows.len()
}

// Puts a row after `k` others.
fn put_row(row: &Row, k: usize, into: &mut [u8])
    requires { 64 * (k + 1) ≤ length into.old }
    ensures len { length into.new ≡ length into.old }
    ensures front { take (64 * k) into.new ≡ take (64 * k) into.old }
    ensures bytes { take (64 * (k + 1)) into.new ≡ take (64 * k) into.old ++ row_of row.now }
{
    let bytes = row.encode();
    into[ROW * k..ROW * (k + 1)].copy_from_slice(bytes.as_slice());
}
