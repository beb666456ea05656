// The head of a text, which has root and sessions, as pieces of it come: how much of a text it is, and the first part of it that fails.
ghost use Rattle.std.specs.Prelude.{◌≡◌, ◌+◌, ◌*◌, ◌++◌, ◌<◌, ◌≤◌, Some, [], length, take, true};
ghost use Rattle.df_base.specs.declared.TheConstants.{GREATEST};
ghost use Rattle.df_model.specs.Refusals.{first_refusal};
ghost use Rattle.df_trailer.specs.{declared.fault.Cause.TheVariants.{Ends, Says}, Text.{earlier, fails, head_end, head_tests, is_repeated, is_whole, is_wrong, session, wrong_place, read_sessions}};

use crate::fault::{Cause, Failing, Fault};
use arrayvec::ArrayVec;
use df_base::{GREATEST, u32_at, u64_at, u128_at};
use df_layout::{Field, ROOT};

/// The most bytes of a head: two lengths, a root, and 64 sessions.
const HEAD: usize = 3080;

/// How many bytes the head of a text has, as far as its front tells.
fn end_of_head(front: &[u8]) -> u64
    requires { length front.now < GREATEST }
    ensures { result ≡ head_end front.now }
{
    if front.len() < 4 {
        return 4;
    }
    let sessions = u64::from(u32_at(front, 0)) + 8;
    if (front.len() as u64) < sessions {
        return sessions;
    }
    sessions + 32 * u64::from(u32_at(front, sessions as usize - 4))
}

/// The bytes of a text up to its bits, as far as they came.
#[derive(Drop)]
pub(crate) struct Front {
    pub(crate) head: ArrayVec<u8, 3080>,
}

/// Tells whether a head is there whole, or is longer than any may be.
fn whole(head: &[u8]) -> bool
    requires { length head.now < GREATEST }
    ensures { result ≡ is_whole head.now }
{
    head.len() >= HEAD || head.len() as u64 >= end_of_head(head)
}

impl Front {
    /// Nothing of a head.
    pub(crate) fn new() -> Front
        ensures { result.head.items ≡ [] }
    {
        Front {
            head: ArrayVec::new(),
        }
    }

    /// Takes what belongs to the head from the front of a piece, and answers how many bytes these are.
    pub(crate) fn take(&mut self, piece: &[u8]) -> usize
        ensures within { result ≤ length piece.now }
        ensures bytes { self.new.head.items ≡ self.old.head.items ++ take result piece.now }
        ensures fits { length self.old.head.items ≤ head_end self.old.head.items → length self.new.head.items ≤ head_end self.new.head.items }
        ensures stays { is_whole self.old.head.items ≡ true → result ≡ 0 }
        ensures whole { result < length piece.now → is_whole self.new.head.items ≡ true }
    {
        for (i, byte) in piece.iter().enumerate() {
            if whole(&self.head) {
                return i;
            }
            self.head.push(*byte);
        }
        piece.len()
    }
}

/// Tells whether the session at an offset breaks a rule, where `before` sessions stand from offset `from` on.
fn breaks_rule(head: &[u8], op: u64, from: usize, before: usize) -> bool
    requires inside { from + 32 * before + 32 ≤ length head.now }
    requires small { length head.now < GREATEST }
    ensures { result ≡ is_wrong op (earlier before from head.now) (session (from + 32 * before) head.now) }
{
    let at = from + 32 * before;
    let client = u128_at(head, at);
    let request = u64_at(head, at + 16);
    let number = u64_at(head, at + 24);
    client == 0
        || request == 0
        || request > GREATEST
        || number == 0
        || number > op
        || stands_before(head, from, before, client, number)
}

/// Tells whether one of the sessions from an offset on has this client or this op.
fn stands_before(head: &[u8], from: usize, before: usize, client: u128, number: u64) -> bool
    requires inside { from + 32 * before ≤ length head.now }
    requires small { length head.now < GREATEST }
    ensures { result ≡ is_repeated client number (earlier before from head.now) }
{
    for place in 0..before {
        let at = from + 32 * place;
        if u128_at(head, at) == client || u64_at(head, at + 24) == number {
            return true;
        }
    }
    false
}

/// The place of the first of this many sessions that breaks a rule, their number where none does.
fn first_wrong_of(head: &[u8], op: u64, from: usize, whole: usize) -> usize
    requires inside { from + 32 * whole ≤ length head.now }
    requires small { length head.now < GREATEST }
    ensures { result ≡ wrong_place op [] (read_sessions whole from head.now) }
{
    for place in 0..whole {
        if breaks_rule(head, op, from, place) {
            return place;
        }
    }
    whole
}

pub(crate) fn ends(field: Field, value: u64) -> Option<Failing>
    ensures { result ≡ Some (fails Ends field value) }
{
    Some(Failing {
        cause: Cause::Ends,
        fault: Fault { field, value },
    })
}

pub(crate) fn says(field: Field, value: u64) -> Option<Failing>
    ensures { result ≡ Some (fails Says field value) }
{
    Some(Failing {
        cause: Cause::Says,
        fault: Fault { field, value },
    })
}

/// The first part of a head that fails.
pub(crate) fn failing_head(head: &[u8], clients: u32, op: u64) -> Option<Failing>
    requires { length head.now < GREATEST }
    ensures { result ≡ first_refusal (head_tests clients op head.now) }
{
    let size = head.len() as u64;
    if size < 4 {
        return ends(Field::TrailerRoot, size);
    }
    let root = u64::from(u32_at(head, 0));
    if root > ROOT as u64 {
        return says(Field::TrailerRoot, root);
    }
    if size < 4 + root {
        return ends(Field::TrailerRoot, root);
    }
    if size < 8 + root {
        return ends(Field::TrailerSessions, size);
    }
    let count = u32_at(head, root as usize + 4);
    if count > clients {
        return says(Field::TrailerSessions, u64::from(count));
    }
    let from = root as usize + 8;
    let whole = (count as usize).min((head.len() - from) / 32);
    let wrong = first_wrong_of(head, op, from, whole);
    if wrong < whole {
        return says(Field::TrailerSessions, wrong as u64);
    }
    if size < 8 + root + 32 * u64::from(count) {
        return ends(Field::TrailerSessions, u64::from(count));
    }
    None
}
