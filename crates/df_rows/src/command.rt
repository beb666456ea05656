// The two commands of a table, and the bodies of the prepares that hold them.
ghost use Rattle.std.specs.Prelude.{◌≡◌, ◌^◌, ◌<◌, ◌∷◌, ◌++◌, ℕ, IfSome, IfNone};
ghost use Rattle.df_base.specs.Fields.{spelled};
ghost use Rattle.df_rows.specs.{Commands.{IsCommand, body_of}, Rows.{Entry, IsEntry}, declared.command.Command.{Command as Asked}};

use crate::bytes::{KEY, RowBytes, put, put_key};
use crate::row::{LONGEST_VALUE, Row};
use arrayvec::ArrayVec;
use df_base::u128_at;

/// The first byte of a put's body.
const PUT: u8 = 1;

/// The first byte of a drop's body.
const DROP: u8 = 2;

/// What a prepare of a table does to it.
#[derive(Drop)]
pub enum Command {
    /// A key gets a value, in place of the one that it had.
    Put(Row),
    /// A key and its value go, where the table has them.
    Drop(u128),
}

impl Command {
    /// The body of the prepare: 1, the key and the value, or 2 and the key. At most 64 bytes.
    pub fn encode(&self) -> RowBytes
        ensures { result.items ≡ body_of self.now }
    {
        match self {
            Command::Put(row) => put_body(row),
            Command::Drop(key) => drop_body(*key),
        }
    }

    /// The command that a body is, or None where it is none.
    pub fn decode(body: &[u8]) -> Option<Command>
        ensures found { IfSome result (λ command. body.now ≡ body_of command) }
        ensures fits { IfSome result IsCommand }
        ensures none { IfNone result ((command : Asked) → IsCommand command → body.now ≡ body_of command → ⊥) }
    {
        let (first, rest) = body.split_first()?;
        match *first {
            PUT => put_in(rest),
            DROP => drop_in(rest),
            _ => None,
        }
    }
}

// The body of a put.
fn put_body(row: &Row) -> RowBytes
    ensures { result.items ≡ body_of (Asked.Put row.now) }
{
    let mut body = ArrayVec::new();
    put(&mut body, &[PUT]);
    put_key(&mut body, row.key());
    put(&mut body, row.value());
    body
}

// The body of a drop.
fn drop_body(key: u128) -> RowBytes
    ensures { result.items ≡ body_of (Asked.Drop key) }
{
    let mut body = ArrayVec::new();
    put(&mut body, &[DROP]);
    put_key(&mut body, key);
    body
}

// The put that stands after the first byte of a body.
fn put_in(rest: &[u8]) -> Option<Command>
    ensures found { IfSome result (λ command. 1 ∷ rest.now ≡ body_of command) }
    ensures fits { IfSome result IsCommand }
    ensures none { IfNone result ((entry : Entry) → IsEntry entry → rest.now ≡ spelled 16 entry.0 ++ entry.1 → ⊥) }
{
    if rest.len() < KEY || rest.len() > KEY + LONGEST_VALUE {
        return None;
    }
    Some(Command::Put(Row::new(u128_at(rest, 0), &rest[KEY..])))
}

// The drop that stands after the first byte of a body.
fn drop_in(rest: &[u8]) -> Option<Command>
    ensures found { IfSome result (λ command. 2 ∷ rest.now ≡ body_of command) }
    ensures fits { IfSome result IsCommand }
    ensures none { IfNone result ((key : ℕ) → key < 2 ^ 128 → rest.now ≡ spelled 16 key → ⊥) }
{
    if rest.len() != KEY {
        return None;
    }
    Some(Command::Drop(u128_at(rest, 0)))
}
