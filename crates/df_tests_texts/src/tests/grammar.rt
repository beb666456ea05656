// Worked lines, and numbers up to their width.
use df_lines::{Line, LineKind, one_meaning, u32_of, u64_of, u128_of};
use std::process::Abort;

const MOST: u64 = u64::MAX;

// A line on a message, its client, its request and the length of its body, and its body.
type Message = (&'static [u8], (u128, u64, u64), &'static [u8]);

const APPENDS: [Message; 4] = [
    (b"append 5 1 -", (5, 1, 0), b""),
    (b"append 0 0 00", (0, 0, 1), b"\x00"),
    (b"append 10 90 aBcDeF", (10, 90, 3), b"\xab\xcd\xef"),
    (
        b"append 340282366920938463463374607431768211455 18446744073709551615 7f",
        (u128::MAX, MOST, 1),
        b"\x7f",
    ),
];

const STAGES: [Message; 3] = [
    (b"stage 5 1 -", (5, 1, 0), b""),
    (b"stage 10 90 aBcDeF", (10, 90, 3), b"\xab\xcd\xef"),
    (
        b"stage 340282366920938463463374607431768211455 18446744073709551615 7f",
        (u128::MAX, MOST, 1),
        b"\x7f",
    ),
];

// A line, what it is read as, and its body.
type Row = (&'static [u8], Line, &'static [u8]);

// Lines with the greatest number.
const LAST_PREPARE: Line = Line::Prepare { op: MOST };

const LAST_RELEASE: Line = Line::Release { address: MOST };

const LAST_READ: Line = Line::Read { address: MOST };

const OF_GROUPS_AND_REPLIES: [Row; 8] = [
    (b"flush", Line::Flush, b""),
    (b"reply 1 aa", Line::Reply { op: 1, length: 1 }, b"\xaa"),
    (b"reply 0 -", Line::Reply { op: 0, length: 0 }, b""),
    (
        b"reply 18446744073709551615 0102",
        Line::Reply {
            op: MOST,
            length: 2,
        },
        b"\x01\x02",
    ),
    (b"prepare 2", Line::Prepare { op: 2 }, b""),
    (b"prepare 18446744073709551615", LAST_PREPARE, b""),
    (b"lookup 5", Line::Lookup { client: 5 }, b""),
    (
        b"lookup 340282366920938463463374607431768211455",
        Line::Lookup { client: u128::MAX },
        b"",
    ),
];

#[test]
fn lines_on_messages_are_read_with_their_bodies(rt: HostRuntime) {
    one_meaning();
    for (line, numbers, body) in &APPENDS {
        let (client, request, length) = *numbers;
        let want = Line::Append {
            client,
            request,
            length,
        };
        expect_line(&rt, line, want, body);
    }
    expect_lines(&rt, &OF_GROUPS_AND_REPLIES);
}

#[test]
fn staged_lines_are_read_with_their_bodies(rt: HostRuntime) {
    for (line, numbers, body) in &STAGES {
        let (client, request, length) = *numbers;
        let want = Line::Stage {
            client,
            request,
            length,
        };
        expect_line(&rt, line, want, body);
    }
}

const OF_BLOCKS_AND_CHECKPOINTS: [Row; 12] = [
    (b"block 1 aa", Line::Block { kind: 1, length: 1 }, b"\xaa"),
    (b"block 0 -", Line::Block { kind: 0, length: 0 }, b""),
    (
        b"block 255 0aF0",
        Line::Block {
            kind: 255,
            length: 2,
        },
        b"\x0a\xf0",
    ),
    (b"release 1", Line::Release { address: 1 }, b""),
    (b"release 18446744073709551615", LAST_RELEASE, b""),
    (b"checkpoint -", Line::Checkpoint { length: 0 }, b""),
    (
        b"checkpoint 00fF10",
        Line::Checkpoint { length: 3 },
        b"\x00\xff\x10",
    ),
    (b"step", Line::Step, b""),
    (b"read 0", Line::Read { address: 0 }, b""),
    (b"read 18446744073709551615", LAST_READ, b""),
    (b"scrub", Line::Scrub, b""),
    (b"recent", Line::Recent, b""),
];

#[test]
fn lines_on_blocks_and_checkpoints_are_read_with_their_bodies(rt: HostRuntime) {
    expect_lines(&rt, &OF_BLOCKS_AND_CHECKPOINTS);
}

// The line is read as that, with this body.
fn expect_line(rt: &impl Abort, line: &[u8], want: Line, bytes: &[u8]) {
    let mut body = [9u8; 40];
    assert!(rt; line.len() <= 80);
    assert!(rt; Line::parse(line, &mut body) == Some(want), "{want:?}");
    assert!(rt; body.as_slice().starts_with(bytes));
}

fn expect_lines(rt: &impl Abort, rows: &[Row]) {
    for (line, want, bytes) in rows {
        expect_line(rt, line, *want, bytes);
    }
}

// What digits stand for below 2^32, below 2^64 and below 2^128.
type Number = (&'static [u8], Option<u32>, Option<u64>, Option<u128>);

const NUMBERS: [Number; 16] = [
    (b"0", Some(0), Some(0), Some(0)),
    (b"10", Some(10), Some(10), Some(10)),
    (
        b"4294967295",
        Some(u32::MAX),
        Some(4_294_967_295),
        Some(4_294_967_295),
    ),
    (b"4294967296", None, Some(1 << 32), Some(1 << 32)),
    (
        b"18446744073709551615",
        None,
        Some(u64::MAX),
        Some(18_446_744_073_709_551_615),
    ),
    (b"18446744073709551616", None, None, Some(1 << 64)),
    (
        b"340282366920938463463374607431768211455",
        None,
        None,
        Some(u128::MAX),
    ),
    (b"340282366920938463463374607431768211456", None, None, None),
    (b"", None, None, None),
    (b"00", None, None, None),
    (b"07", None, None, None),
    (b"+7", None, None, None),
    (b"-7", None, None, None),
    (b" 7", None, None, None),
    (b"7 ", None, None, None),
    (b"7a", None, None, None),
];

#[test]
fn numbers_are_read_up_to_their_width(rt: HostRuntime) {
    for (digits, small, middle, large) in &NUMBERS {
        let read = (u32_of(digits), u64_of(digits), u128_of(digits));
        assert!(rt; read == (*small, *middle, *large), "{digits:?}");
    }
}

const BYTES: [(&[u8], Option<Line>); 5] = [
    (b"block 0 -", Some(Line::Block { kind: 0, length: 0 })),
    (
        b"block 255 -",
        Some(Line::Block {
            kind: 255,
            length: 0,
        }),
    ),
    (b"block 256 -", None),
    (b"block 18446744073709551617 -", None),
    (b"block 01 -", None),
];

#[test]
fn a_byte_is_read_up_to_its_width(rt: HostRuntime) {
    for (line, want) in &BYTES {
        let mut body = [0u8; 40];
        assert!(rt; line.len() <= 80);
        assert!(rt; Line::parse(line, &mut body) == *want);
    }
}
