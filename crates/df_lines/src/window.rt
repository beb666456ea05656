// The bytes that were read of a source and are still to be taken, in one buffer.
ghost use Rattle.std.specs.{Prelude.{◌≡◌, ◌<◌, ◌≤◌, ◌+◌, ◌-◌, ◌↔◌, ◌⊎◌, [], length, take, drop, false, position}, Prelude.{vec_len, IsTrue, IfOk, IfSome, IfNone, OnOk, OnErr}};
ghost use Rattle.df_base.specs.{Causes.{HasCause}, Streams.{Gives}};
ghost use Rattle.df_lines.specs.{Room.{Contents, IsAtEnd}, Text.{unread}, Window.{FindsLine, is_feed, line_end}};

use df_base::{Failed, OutOfMemory, Source};
use memchr::memchr;
use std::alloc::Global;
use std::marker::Model;

/// What a window has of the next line.
#[derive(Clone, Copy)]
pub enum Found {
    /// A whole line of `length` bytes. It takes `taken` bytes, its byte 10 included where there is one.
    Line { length: usize, taken: usize },
    /// The buffer is full and has no byte 10.
    TooLong,
    /// Nothing is held, and the source has ended.
    End,
}

/// A buffer of a script's bytes. The held bytes are those from `start` to `end`.
pub struct Window {
    buffer: Vec<u8>,
    start: usize,
    end: usize,
    ended: bool,
}

// Its owner lets go of it in one call, and not field by field.
impl Drop for Window {
    fn drop(self) {
        let Window {
            buffer: _,
            start: _,
            end: _,
            ended: _,
        } = self;
    }
}

impl Model for Window {
    ghost use Rattle.std.specs.Prelude.{◌≤◌, ◌-◌, take, drop, vec_len};
    ghost use Rattle.df_lines.specs.Room.{Contents};

    ghost Value = { Contents };

    ghost view = { λ w. record {
      bytes = take (w.end - w.start) (drop w.start w.buffer.items);
      size = vec_len w.buffer;
      ended = w.ended;
    } };

    ghost invariant = { λ w. (w.start ≤ w.end) × (w.end ≤ vec_len w.buffer) };
}

impl Window {
    /// Takes the memory for a buffer of this many bytes.
    pub fn reserve(alloc: Global, size: usize) -> Result<Window, OutOfMemory>
        ensures { IfOk result (λ window. window ≡ record { bytes = []; size = size; ended = false }) }
    {
        let buffer = vec![in alloc; 0; size]?;
        Ok(Window {
            buffer,
            start: 0,
            end: 0,
            ended: false,
        })
    }

    /// The bytes that are held.
    pub fn bytes(&self) -> &[u8]
        ensures value { result.now ≡ self.now.bytes }
        ensures within { length self.now.bytes ≤ self.now.size }
    {
        &self.buffer[self.start..self.end]
    }

    pub(crate) fn is_full(&self) -> bool
        ensures { IsTrue result ↔ (self.now.size ≤ length self.now.bytes) }
    {
        self.end - self.start == self.buffer.len()
    }

    pub(crate) fn has_ended(&self) -> bool
        ensures { result ≡ self.now.ended }
    {
        self.ended
    }

    /// Takes bytes from the front.
    pub fn skip(&mut self, count: usize)
        requires { count ≤ length self.old.bytes }
        ensures { self.new ≡ record self.old { bytes = drop count self.old.bytes } }
    {
        self.start += count;
    }

    /// Reads once, into all that is free of the buffer, after the held bytes were moved to its front.
    pub(crate) fn fill<S: Source>(&mut self, source: &mut S) -> Result<(), Failed>
        requires { length self.old.bytes < self.old.size }
        ensures size { self.new.size ≡ self.old.size }
        ensures same_text { unread self.new.bytes (S.left source.new)
            ≡ unread self.old.bytes (S.left source.old) }
        ensures front { take (length self.old.bytes) self.new.bytes ≡ self.old.bytes }
        ensures more { OnOk result (IsTrue self.new.ended
            ⊎ (length self.old.bytes < length self.new.bytes)) }
        ensures ended { OnOk result (IsTrue self.new.ended → IsAtEnd (S.left source.new)) }
        ensures failed { OnErr result ((self.new ≡ self.old)
            × (S.left source.new ≡ S.left source.old)) }
        ensures cause { HasCause (S.faults source.old) (S.faults source.new) result }
    {
        let held = self.end - self.start;
        to_front(&mut self.buffer, self.start, self.end);
        self.start = 0;
        self.end = held;
        let count = read_behind(&mut self.buffer, held, source)?;
        self.end += count;
        self.ended = count == 0;
        Ok(())
    }

    /// Reads on until the next line is whole, is too long for the buffer, or there is none. `Failed` is the source's: nothing of the
    /// script is lost, and the call may be made again.
    pub fn find<S: Source>(&mut self, source: &mut S) -> Result<Found, Failed>
        requires { 0 < self.old.size }
        ensures size { self.new.size ≡ self.old.size }
        ensures same_text { unread self.new.bytes (S.left source.new)
            ≡ unread self.old.bytes (S.left source.old) }
        ensures ended { (IsTrue self.old.ended → IsAtEnd (S.left source.old))
            → IsTrue self.new.ended → IsAtEnd (S.left source.new) }
        ensures found { IfOk result (λ found. FindsLine self.new found) }
        ensures unasked { IsTrue self.old.ended → source.new ≡ source.old }
        ensures cause { HasCause (S.faults source.old) (S.faults source.new) result }
    {
        let mut seen = 0;
        loop {
            if let Some(at) = feed_behind(self.bytes(), seen) {
                return Ok(Found::Line {
                    length: at,
                    taken: at + 1,
                });
            }
            seen = self.bytes().len();
            if self.is_full() {
                return Ok(Found::TooLong);
            }
            if self.has_ended() {
                return Ok(self.last_line());
            }
            self.fill(source)?;
        }
    }

    /// What is left where the source has ended and no byte 10 is held.
    fn last_line(&self) -> Found
        requires ended { IsTrue self.now.ended }
        requires none { line_end self.now.bytes ≡ length self.now.bytes }
        requires room { length self.now.bytes < self.now.size }
        ensures { FindsLine self.now result }
    {
        let held = self.bytes().len();
        if held == 0 {
            Found::End
        } else {
            Found::Line {
                length: held,
                taken: held,
            }
        }
    }
}

/// The place of the first byte 10, where none of the first `seen` bytes is one.
fn feed_behind(bytes: &[u8], seen: usize) -> Option<usize>
    requires within { seen ≤ length bytes.now }
    requires none { line_end (take seen bytes.now) ≡ seen }
    ensures found { IfSome result (λ at. (at ≡ line_end bytes.now) × (at < length bytes.now)) }
    ensures none { IfNone result (line_end bytes.now ≡ length bytes.now) }
{
    let at = first_feed(&bytes[seen..])?;
    Some(seen + at)
}

fn first_feed(bytes: &[u8]) -> Option<usize>
    ensures { result ≡ position is_feed bytes.now }
{
    memchr(b'\n', bytes)
}

/// Moves the bytes from `start` to `end` to the front.
fn to_front(buffer: &mut Vec<u8>, start: usize, end: usize)
    requires ordered { start ≤ end }
    requires within { end ≤ vec_len buffer.old }
    ensures len { vec_len buffer.new ≡ vec_len buffer.old }
    ensures moved { take (end - start) buffer.new.items
        ≡ take (end - start) (drop start buffer.old.items) }
{
    if start > 0 {
        buffer.copy_within(start..end, 0);
    }
}

/// Reads once, into the buffer from `at` on.
fn read_behind<S: Source>(buffer: &mut Vec<u8>, at: usize, source: &mut S) -> Result<usize, Failed>
    requires { at < vec_len buffer.old }
    ensures len { vec_len buffer.new ≡ vec_len buffer.old }
    ensures front { take at buffer.new.items ≡ take at buffer.old.items }
    ensures bound { IfOk result (λ n. at + n ≤ vec_len buffer.new) }
    ensures gives { IfOk result (λ n.
        Gives (S.left source.old) (S.left source.new) n (drop at buffer.new.items)) }
    ensures failed { OnErr result (S.left source.new ≡ S.left source.old) }
    ensures cause { HasCause (S.faults source.old) (S.faults source.new) result }
{
    source.read(&mut buffer[at..])
}
