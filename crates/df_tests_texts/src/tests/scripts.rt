// Scripts that come in pieces.

ghost use Rattle.std.specs.Prelude.{None};

use df_base::{Failed, MemorySource, Source};
use df_layout::Layout;
use df_lines::{Line, LineRoom, Next};
use std::alloc::{AllocError, Global};
use std::process::Abort;

// A reader over the least layout: its lines have 8,256 bytes at most.
fn least_room(rt: &impl Abort, alloc: Global) -> LineRoom {
    let layout = Layout {
        slots: 16,
        message_size: 4096,
        clients: 1,
        block_size: 4096,
        blocks: 8,
    };
    LineRoom::reserve(alloc, &layout).expect(rt, "memory of a room")
}

// A source of this text whose listed calls fail.
fn source_of(
    rt: &impl Abort,
    alloc: Global,
    text: Result<Vec<u8>, AllocError>,
    failing: &[u64],
) -> MemorySource {
    let text = text.expect(rt, "memory of a script");
    let failing = Vec::from_slice(alloc, failing).expect(rt, "memory of a list");
    MemorySource::new(text, failing)
}

// The body of the second line: 0, 1, 2 and so on, modulo 256.
fn long_body(alloc: Global) -> Result<Vec<u8>, AllocError> {
    let mut body = Vec::new(alloc);
    for number in 0..4122u32 {
        body.push((number % 256) as u8)?;
    }
    Ok(body)
}

// Appends a line of these words and that body, without its byte 10.
fn push_long_line(text: &mut Vec<u8>, words: &[u8]) -> Result<(), AllocError> {
    let digits = b"0123456789abcdef";
    text.extend_from_slice(words)?;
    for number in 0..4122u32 {
        let byte = (number % 256) as usize;
        text.push(digits[byte / 16])?;
        text.push(digits[byte % 16])?;
    }
    Ok(())
}

// A short line, a line of these words and that body, and what comes after it.
fn script_of(alloc: Global, words: &[u8], ending: &[u8]) -> Result<Vec<u8>, AllocError> {
    let mut text = b"append 4 1 -\n".to_vec(alloc)?;
    push_long_line(&mut text, words)?;
    text.extend_from_slice(ending)?;
    Ok(text)
}

// Three lines. The second is as long as that reader takes, and the last has no byte 10.
fn script(alloc: Global) -> Result<Vec<u8>, AllocError> {
    script_of(alloc, b"append 55 1 ", b"\nappend 6 2 ff")
}

// The three lines of that script, read in pieces of this size; the source's end is asked for once.
fn expect_script(rt: &impl Abort, alloc: Global, piece: usize, body: &[u8]) {
    let mut source = Drip {
        source: source_of(rt, alloc, script(alloc), &[]),
        piece,
        ended: 0,
    };
    let mut room = least_room(rt, alloc);
    expect_line(rt, &mut room, &mut source, 4, 1, b"");
    expect_line(rt, &mut room, &mut source, 55, 1, body);
    expect_line(rt, &mut room, &mut source, 6, 2, b"\xff");
    expect_twice(rt, &mut room, &mut source, Next::End);
    assert!(rt; source.ended == 1);
}

const PIECES: [usize; 6] = [1, 2, 7, 8256, 8257, 10_000];

#[test]
fn a_script_is_read_in_pieces_of_any_size(rt: HostRuntime) {
    let body = long_body(rt.alloc()).expect(&rt, "memory of a body");
    for piece in &PIECES {
        expect_script(&rt, rt.alloc(), *piece, &body);
    }
}

// A script whose first and third reads fail: each failure is answered once, and no line is lost.
fn expect_each_line(rt: &impl Abort, room: &mut LineRoom, source: &mut MemorySource, body: &[u8]) {
    assert!(rt; room.next::<Line, MemorySource>(source) == Err(Failed));
    expect_line(rt, room, source, 4, 1, b"");
    assert!(rt; room.next::<Line, MemorySource>(source) == Err(Failed));
    expect_line(rt, room, source, 55, 1, body);
    expect_line(rt, room, source, 6, 2, b"\xff");
    assert!(rt; room.next::<Line, MemorySource>(source) == Ok(Next::End));
}

#[test]
fn a_failed_read_loses_nothing(rt: HostRuntime) {
    let body = long_body(rt.alloc()).expect(&rt, "memory of a body");
    let mut source = source_of(&rt, rt.alloc(), script(rt.alloc()), &[1, 3]);
    let mut room = least_room(&rt, rt.alloc());
    expect_each_line(&rt, &mut room, &mut source, &body);
}

const ENDINGS: [&[u8]; 3] = [b"", b"\n", b"\nappend 6 1 -\n"];

#[test]
fn a_line_past_the_bound_is_refused(rt: HostRuntime) {
    for ending in &ENDINGS {
        let text = script_of(rt.alloc(), b"append 555 1 ", ending);
        let mut source = source_of(&rt, rt.alloc(), text, &[]);
        let mut room = least_room(&rt, rt.alloc());
        expect_line(&rt, &mut room, &mut source, 4, 1, b"");
        expect_twice(&rt, &mut room, &mut source, Next::Refused);
    }
}

const SHORTEST: [(&[u8], Next<Line>); 2] = [(b"", Next::End), (b"\n", Next::Refused)];

#[test]
fn an_empty_line_is_refused_and_an_empty_script_ends(rt: HostRuntime) {
    for (text, want) in &SHORTEST {
        let mut source = source_of(&rt, rt.alloc(), text.to_vec(rt.alloc()), &[]);
        let mut room = least_room(&rt, rt.alloc());
        expect_twice(&rt, &mut room, &mut source, *want);
    }
}

// The reader's answer, which stays the same.
fn expect_twice<S: Source>(rt: &impl Abort, room: &mut LineRoom, source: &mut S, want: Next<Line>) {
    assert!(rt; room.next(source) == Ok(want));
    assert!(rt; room.next(source) == Ok(want));
}

fn expect_line<S: Source>(
    rt: &impl Abort,
    room: &mut LineRoom,
    source: &mut S,
    client: u128,
    request: u64,
    bytes: &[u8],
) {
    let length = bytes.len() as u64;
    let want = Line::Append {
        client,
        request,
        length,
    };
    let next = room.next(source);
    assert!(rt; next == Ok(Next::Line(want)));
    let Ok(Next::Line(Line::Append { length, .. })) = next else {
        panic!(rt; "an append");
    };
    assert!(rt; room.body(length) == bytes);
}

/// Hands over the bytes of another source in small pieces, and counts how often that had ended.
#[derive(Drop)]
struct Drip {
    source: MemorySource,
    piece: usize,
    ended: u64,
}

impl Source for Drip {
    ghost left = { λ _. None };

    ghost faults = { λ s. ⟦<MemorySource as Source>⟧.faults s.source };

    fn read(&mut self, into: &mut [u8]) -> Result<usize, Failed> {
        let room = into.len().min(self.piece.max(1));
        let count = self.source.read(&mut into[..room])?;
        if count == 0 {
            self.ended = self.ended.saturating_add(1);
        }
        Ok(count)
    }
}

// A line with a body of this many bytes.
fn reply_of(alloc: Global, size: u64) -> Result<Vec<u8>, AllocError> {
    let mut line = b"reply 1 ".to_vec(alloc)?;
    for _ in 0..size {
        line.extend_from_slice(b"ab")?;
    }
    Ok(line)
}

#[test]
fn a_room_is_as_large_as_the_layout_asks(rt: HostRuntime) {
    let length = 16_412;
    let line = Next::Line(Line::Reply { op: 1, length });
    for (size, want) in &[(length, line), (16_413, Next::Refused)] {
        let mut source = source_of(&rt, rt.alloc(), reply_of(rt.alloc(), *size), &[]);
        let room = LineRoom::reserve(rt.alloc(), &Layout::small());
        let mut room = room.expect(&rt, "memory of a room");
        assert!(rt; room.next(&mut source) == Ok(*want));
    }
}
