// What no contract says: outside vectors, and adapters over readers and writers that do little at
// once, are interrupted, or fail.
ghost use Rattle.std.specs.Prelude.{◌≤◌, IfOk};

use df_base::{
    Failed, FromRead, MemorySink, MemorySource, Sink, Source, ToWrite, check, fields_are_spelled,
    put_u16, put_u32, put_u64, put_u128, u16_at, u32_at, u64_at, u128_at,
};
use std::alloc::Global;
use std::io::{self, ErrorKind, Read, Write};
use std::process::Abort;

// What a reader or a writer does at one call.
#[derive(Clone, Copy)]
enum Turn {
    Moves(usize),
    Interrupted,
    Breaks,
}

// A reader and a writer whose calls follow a list of turns, and break after its end.
#[derive(Drop)]
struct Scripted<'a> {
    turns: &'a [Turn],
    given: u8,
    taken: Vec<u8>,
    flushes: u8,
}

impl<'a> Scripted<'a> {
    fn new(alloc: Global, turns: &'a [Turn]) -> Scripted<'a> {
        Scripted {
            turns,
            given: 0,
            taken: Vec::new(alloc),
            flushes: 0,
        }
    }

    fn turn(&mut self, room: usize) -> io::Result<usize>
        ensures { IfOk result (λ n. n ≤ room) }
    {
        let [turn, rest @ ..] = self.turns else {
            return Err(ErrorKind::BrokenPipe.into());
        };
        self.turns = rest;
        match *turn {
            Turn::Moves(most) => Ok(most.min(room)),
            Turn::Interrupted => Err(ErrorKind::Interrupted.into()),
            Turn::Breaks => Err(ErrorKind::BrokenPipe.into()),
        }
    }
}

impl<'a> Read for Scripted<'a> {
    fn read(&mut self, into: &mut [u8]) -> io::Result<usize> {
        let count = self.turn(into.len())?;
        self.given = self.given.wrapping_add(1);
        into[..count].fill(self.given);
        Ok(count)
    }
}

impl<'a> Write for Scripted<'a> {
    fn write(&mut self, bytes: &[u8]) -> io::Result<usize> {
        let count = self.turn(bytes.len())?;
        if self.taken.extend_from_slice(&bytes[..count]).is_err() {
            return Err(ErrorKind::OutOfMemory.into());
        }
        Ok(count)
    }

    fn flush(&mut self) -> io::Result<()> {
        self.flushes = self.flushes.wrapping_add(1);
        Ok(())
    }
}

#[test]
fn checksums_are_those_of_the_standard(rt: HostRuntime) {
    let of_nothing = [
        0xe3, 0xb0, 0xc4, 0x42, 0x98, 0xfc, 0x1c, 0x14, 0x9a, 0xfb, 0xf4, 0xc8, 0x99, 0x6f, 0xb9,
        0x24,
    ];
    let of_abc = [
        0xba, 0x78, 0x16, 0xbf, 0x8f, 0x01, 0xcf, 0xea, 0x41, 0x41, 0x40, 0xde, 0x5d, 0xae, 0x22,
        0x23,
    ];
    assert!(rt; check(b"") == of_nothing);
    assert!(rt; check(b"abc") == of_abc);
}

#[test]
fn fields_stand_with_their_lowest_byte_first(rt: HostRuntime) {
    let mut bytes = [0xffu8; 32];
    put_u16(&mut bytes, 1, 0x0102);
    put_u32(&mut bytes, 3, 0x0304_0506);
    put_u64(&mut bytes, 7, 0x0708_090a_0b0c_0d0e);
    put_u128(&mut bytes, 15, 0x0f10_1112_1314_1516_1718_191a_1b1c_1d1e);
    let wanted = [
        0xff, 2, 1, 6, 5, 4, 3, 14, 13, 12, 11, 10, 9, 8, 7, 30, 29, 28, 27, 26, 25, 24, 23, 22,
        21, 20, 19, 18, 17, 16, 15, 0xff,
    ];
    assert!(rt; bytes == wanted);
    assert!(rt; u16_at(&bytes, 1) == 0x0102);
    assert!(rt; u32_at(&bytes, 3) == 0x0304_0506);
    assert!(rt; u64_at(&bytes, 7) == 0x0708_090a_0b0c_0d0e);
    assert!(rt; u128_at(&bytes, 15) == 0x0f10_1112_1314_1516_1718_191a_1b1c_1d1e);
    fields_are_spelled();
}

// How many of two bytes were read; they are written where the sink takes them.
fn carried(source: &mut MemorySource, sink: &mut MemorySink) -> Result<usize, Failed> {
    let mut piece = [0u8; 2];
    let count = source.read(&mut piece)?;
    let _ = sink.write(&piece[..count]);
    Ok(count)
}

// A list in memory.
fn list_of<T: Copy>(rt: &impl Abort, alloc: Global, items: &[T]) -> Vec<T> {
    Vec::from_slice(alloc, items).expect(rt, "memory of a list")
}

#[test]
fn listed_calls_in_memory_fail(rt: HostRuntime) {
    let alloc = rt.alloc();
    let mut source = MemorySource::new(list_of(&rt, alloc, b"abcde"), list_of(&rt, alloc, &[2]));
    let mut sink = MemorySink::new(alloc, list_of(&rt, alloc, &[1, 4]));
    for (i, wanted) in [Ok(2), Err(Failed), Ok(2), Ok(1), Ok(0)].iter().enumerate() {
        assert!(rt; carried(&mut source, &mut sink) == *wanted, "read {i}");
    }
    assert!(rt; sink.bytes() == b"cde".as_slice());
    assert!(rt; sink.refused() == 0);
}

#[test]
fn a_reader_is_read_past_interruptions_and_not_past_errors(rt: HostRuntime) {
    let turns = [
        Turn::Interrupted,
        Turn::Moves(2),
        Turn::Breaks,
        Turn::Moves(9),
        Turn::Moves(0),
    ];
    let mut source = FromRead::new(Scripted::new(rt.alloc(), &turns));
    let mut into = [0u8; 4];
    let rows = [
        (Ok(2), [1, 1, 0, 0]),
        (Err(Failed), [1, 1, 0, 0]),
        (Ok(4), [2; 4]),
        (Ok(0), [2; 4]),
    ];
    for (i, (count, bytes)) in rows.iter().enumerate() {
        assert!(rt;
            source.read(&mut into) == *count && into == *bytes,
            "read {i}"
        );
    }
}

#[test]
fn a_writer_gets_the_whole_piece_and_a_flush(rt: HostRuntime) {
    let turns = [
        Turn::Moves(2),
        Turn::Interrupted,
        Turn::Moves(9),
        Turn::Moves(1),
        Turn::Moves(0),
        Turn::Moves(1),
        Turn::Breaks,
    ];
    let mut writer = Scripted::new(rt.alloc(), &turns);
    let mut sink = ToWrite::new(&mut writer);
    // a piece in three turns, a writer that takes nothing, and one that breaks
    let answers = [sink.write(b"abcd"), sink.write(b"ef"), sink.write(b"gh")];
    assert!(rt; answers == [Ok(()), Err(Failed), Err(Failed)]);
    assert!(rt; writer.taken.as_slice() == b"abcdeg".as_slice() && writer.flushes == 1);
}
