// The reader of a script: one line after the other, through one buffer for lines and one for bodies.
ghost use Rattle.std.specs.{Prelude.{◌≡◌, ◌<◌, ◌≤◌, ◌*◌, ◌^◌, List, ℕ, length, take, vec_len}, Prelude.{IsTrue, IfOk, OnErr}};
ghost use Rattle.df_base.specs.Causes.{HasCause};
ghost use Rattle.df_lines.specs.{Room.{HasTextToCome, IsAtEnd, IsFresh, line_bound}, Reads.{GivesNext, Spends, Takes, text_after}, Text.{unread}};

use crate::kind::LineKind;
use crate::next::Next;
use crate::window::{Found, Window};
use df_base::{Failed, OutOfMemory, Source};
use df_layout::Layout;
use std::alloc::Global;
use std::marker::Model;

/// How many bytes of one script are read at most.
const BUDGET: u64 = 1 << 32;

/// How many bytes of a line are more than the digits of the longest body: its words but the last.
const WORDS: u64 = 64;

/// The buffers of a reader, and what it has read of its script.
#[derive(Drop)]
pub struct LineRoom {
    window: Window,
    body: Vec<u8>,
    budget: u64,
}

impl Model for LineRoom {
    ghost use Rattle.std.specs.Prelude.{◌<◌, ◌≤◌, ◌-◌, ◌*◌, vec_len};
    ghost use Rattle.df_lines.specs.Room.{ReaderParts};

    ghost Value = { ReaderParts };

    ghost view = { λ r. record {
      reading = record { held = r.window.bytes; bound = r.window.size - 1; budget = r.budget };
      ended = r.window.ended;
      body = r.body.items;
    } };

    ghost invariant = { λ r. (0 < r.window.size) × (r.window.size ≤ 2 * vec_len r.body) };
}

impl LineRoom {
    /// Takes the memory for the lines of a script over a file of this layout: each has at most
    /// `2 * max(message_size, block_size) + 64` bytes, its byte 10 aside. `OutOfMemory` means that
    /// one of the two buffers was not to be had.
    pub fn reserve(alloc: Global, layout: &Layout) -> Result<LineRoom, OutOfMemory>
        ensures { IfOk result (IsFresh (line_bound layout.now)) }
    {
        let largest = layout.message_size.max(layout.block_size);
        LineRoom::with_bound(alloc, 2 * u64::from(largest) + WORDS)
    }

    /// Takes the memory for lines of at most `bound` bytes, their byte 10 aside.
    pub(crate) fn with_bound(alloc: Global, bound: u64) -> Result<LineRoom, OutOfMemory>
        requires { bound ≤ 2 ^ 22 }
        ensures { IfOk result (IsFresh bound) }
    {
        let window = Window::reserve(alloc, bound as usize + 1)?;
        let body = vec![in alloc; 0; bound as usize / 2 + 1]?;
        Ok(LineRoom {
            window,
            body,
            budget: BUDGET,
        })
    }

    /// Takes the next line of the script. `Failed` is the source's: nothing of the script is lost,
    /// and the call may be made again. After `Next::Refused` the line is still there.
    pub fn next<L: LineKind, S: Source>(&mut self, source: &mut S) -> Result<Next<L>, Failed>
        ensures gives { (text : List ℕ) → HasTextToCome self.old (S.left source.old) text
            → IfOk result (GivesNext L.grammar self.old self.new text (S.left source.new)) }
        ensures spends { IfOk result (Spends L.grammar self.old self.new) }
        ensures tells { (text : List ℕ) → HasTextToCome self.old (S.left source.old) text
            → HasTextToCome self.new (S.left source.new) (text_after result text) }
        ensures at_end { (IsTrue self.old.ended → IsAtEnd (S.left source.old))
            → IsTrue self.new.ended → IsAtEnd (S.left source.new) }
        ensures unasked { IsTrue self.old.ended → source.new ≡ source.old }
        ensures bound { self.new.reading.bound ≡ self.old.reading.bound }
        ensures room { length self.new.body ≡ length self.old.body }
        ensures text_kept { OnErr result (unread self.new.reading.held (S.left source.new)
            ≡ unread self.old.reading.held (S.left source.old)) }
        ensures budget_kept { OnErr result (self.new.reading.budget ≡ self.old.reading.budget) }
        ensures cause { HasCause (S.faults source.old) (S.faults source.new) result }
    {
        match self.window.find(source)? {
            Found::Line { length, taken } => Ok(take_line(
                &mut self.window,
                &mut self.body,
                &mut self.budget,
                length,
                taken,
            )),
            Found::TooLong => Ok(Next::Refused),
            Found::End => Ok(Next::End),
        }
    }

    /// The first bytes of the body buffer: the body of the line that was read last, where it has
    /// this many bytes.
    pub fn body(&self, size: u64) -> &[u8]
        requires { size ≤ length self.now.body }
        ensures { result.now ≡ take size self.now.body }
    {
        &self.body[..size as usize]
    }
}

/// Takes the line of this size, and this many bytes in all with its end, if it is a script line and
/// within the budget.
fn take_line<L: LineKind>(
    window: &mut Window,
    body: &mut Vec<u8>,
    budget: &mut u64,
    size: usize,
    taken: usize,
) -> Next<L>
    requires some { 0 < taken }
    requires ordered { size ≤ taken }
    requires within { taken ≤ length window.old.bytes }
    requires room { size ≤ 2 * vec_len body.old }
    ensures size { window.new.size ≡ window.old.size }
    ensures body { vec_len body.new ≡ vec_len body.old }
    ensures takes { Takes L.grammar window.old window.new budget.old budget.new body.new.items size taken result }
{
    if taken as u64 > *budget {
        return Next::Refused;
    }
    let Some(line) = L::parse(&window.bytes()[..size], body) else {
        return Next::Refused;
    };
    window.skip(taken);
    *budget -= taken as u64;
    Next::Line(line)
}
