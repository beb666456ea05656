// The table: a map from keys to small values, in one vector whose memory is taken in one call.
ghost use Rattle.std.specs.{Prelude.{◌≡◌, ◌↔◌, ◌≤◌, All, IsTrue, IfOk}, Option.{option_copied}};
ghost use Rattle.std.specs.FinMap as map;
ghost use Rattle.df_rows.specs.Commands as commands;
ghost use Rattle.df_rows.specs.Limits as limits;
ghost use Rattle.df_rows.specs.{Rows.{IsEntry}, Tables.{CanApply, HasRoom, IsNew, with_row}};

use crate::command::Command;
use crate::finding::find_key;
use crate::limits::most_rows;
use crate::row::Row;
use df_base::OutOfMemory;
use df_layout::Layout;
use std::alloc::Global;
use std::marker::Model;

/// A map from keys to values of at most 47 bytes. Only `reserve` takes memory: the rows stand in order of their keys in one vector.
pub struct ObjectTable {
    rows: Vec<Row>,
    max: u64,
}

// Its owner lets go of it in one call, and not field by field.
impl Drop for ObjectTable {
    fn drop(self) {
        let ObjectTable { rows: _, max: _ } = self;
    }
}

impl Model for ObjectTable {
    ghost use Rattle.std.specs.Prelude.{vec_capacity};
    ghost use Rattle.std.specs.FinMap as map;
    ghost use Rattle.df_rows.specs.{Tables.{Table, table_code}, Sorted.{AreRows}};

    ghost Value = { Table };

    ghost coded = { table_code };

    ghost view = { λ t. record { max = t.max; rows = map.from_entries t.rows.items } };

    ghost invariant = { λ t. AreRows t.max (vec_capacity t.rows) t.rows.items };
}

impl ObjectTable {
    /// Takes the memory for a table over a file of this layout, with as many rows as its blocks have room for. `OutOfMemory` means that
    /// the vector was not to be had.
    pub fn reserve(alloc: Global, layout: &Layout) -> Result<ObjectTable, OutOfMemory>
        ensures { IfOk result (λ t. t ≡ record { max = limits.most_rows layout.now; rows = map.empty }) }
    {
        let max = most_rows(layout);
        let rows = Vec::with_capacity(alloc, max as usize)?;
        Ok(ObjectTable { rows, max })
    }

    /// How many rows there are.
    pub fn len(&self) -> u64
        ensures value { result ≡ map.len self.now.rows }
        ensures few { result ≤ self.now.max }
    {
        self.rows.len() as u64
    }

    /// How many rows there may be.
    pub fn max(&self) -> u64
        ensures { result ≡ self.now.max }
    {
        self.max
    }

    /// The rows in order of their keys.
    pub fn rows(&self) -> &[Row]
        ensures entries { result.now ≡ map.entries self.now.rows }
        ensures fit { All IsEntry result.now }
    {
        &self.rows
    }

    /// The value of a key, None exactly where the table doesn't have the key.
    pub fn get(&self, key: u128) -> Option<&[u8]>
        ensures { option_copied result ≡ map.get self.now.rows key }
    {
        match find_key(&self.rows, key) {
            Ok(at) => {
                let row = &self.rows[at];
                Some(row.value())
            }
            Err(_) => None,
        }
    }

    /// Tells whether the table has the key.
    pub fn has(&self, key: u128) -> bool
        ensures value { result ≡ map.contains_key self.now.rows key }
    {
        self.get(key).is_some()
    }

    /// Tells whether a row of this key may be put: the table has the key, or isn't full.
    pub(crate) fn has_room(&self, key: u128) -> bool
        ensures { IsTrue result ↔ HasRoom self.now key }
    {
        self.has(key) || self.len() < self.max
    }

    /// Tells whether the key is none of the table's, which isn't full.
    pub(crate) fn is_new(&self, key: u128) -> bool
        ensures { IsTrue result ↔ IsNew self.now key }
    {
        !self.has(key) && self.len() < self.max
    }

    /// Puts a row, in place of the one of its key where there is one.
    pub(crate) fn put(&mut self, row: Row)
        requires { HasRoom self.old row.0 }
        ensures { self.new ≡ with_row row self.old }
    {
        match find_key(&self.rows, row.key()) {
            Ok(at) => self.rows[at] = row,
            Err(at) => {
                let _ = self.rows.insert(at, row);
            }
        }
    }

    /// Lets go of a key and its value. Where the table doesn't have the key, it stays as it is.
    pub(crate) fn remove(&mut self, key: u128)
        ensures { self.new ≡ record self.old { rows = map.remove self.old.rows key } }
    {
        if let Ok(at) = find_key(&self.rows, key) {
            drop(self.rows.remove(at));
        }
    }

    /// Tells whether a command may be applied: a put needs room for its row.
    pub fn can_apply(&self, command: &Command) -> bool
        ensures { IsTrue result ↔ CanApply self.now command.now }
    {
        match command {
            Command::Put(row) => self.has_room(row.key()),
            Command::Drop(_) => true,
        }
    }

    /// Does what a command says.
    pub fn apply(&mut self, command: Command)
        requires { CanApply self.old command }
        ensures { self.new ≡ record self.old { rows = commands.applied command self.old.rows } }
    {
        match command {
            Command::Put(row) => self.put(row),
            Command::Drop(key) => self.remove(key),
        }
    }
}
