// Headers of version 2 against values from outside, and each rule of boots and groups kept and broken once.
ghost use Rattle.std.specs.Prelude.{◌≤◌};

use crate::tests::examples::{
    BLOCK, Example, PREPARE, REPLY, RESERVED, TRAILER, made, read_header, sealed, spelled,
};
use crate::tests::room_examples::header_of;
use df_base::{check, put_u16, put_u64};
use df_format::{Header, Kind};

// Puts a number of eight bytes into a header, and a version. A caller's proof is told nothing of the bytes.
fn put_number(bytes: &mut [u8; 256], at: usize, number: u64)
    requires { at ≤ 248 }
{
    put_u64(bytes, at, number);
}

fn put_version(bytes: &mut [u8; 256], version: u16) {
    put_u16(bytes, 122, version);
}

// The example of this version, with this op, this boot, and the first and the last op of a group.
fn numbered(front: &Example, version: u16, numbers: &[u64; 4]) -> [u8; 256] {
    let [op, boot, first, last] = *numbers;
    let mut bytes = spelled(front);
    put_number(&mut bytes, 80, op);
    put_version(&mut bytes, version);
    put_number(&mut bytes, 124, boot);
    put_number(&mut bytes, 132, first);
    put_number(&mut bytes, 140, last);
    sealed(bytes)
}

// What its version and its numbers are, and whether that is a header.
type Row = (&'static str, u16, [u64; 4], bool);

// The greatest boot.
const TOP: u64 = 1 << 62;

// An example, with rows.
const RULES: [(Example, &'static [Row]); 2] = [
    (
        RESERVED,
        &[
            ("a reserved header", 2, [0, 0, 0, 0], true),
            ("with a boot", 2, [0, 1, 0, 0], false),
            ("with a first op", 2, [0, 0, 1, 0], false),
            ("with a last op", 2, [0, 0, 0, 1], false),
        ],
    ),
    (
        PREPARE,
        &[
            ("a prepare by itself", 2, [1, 1, 1, 1], true),
            ("of the greatest boot", 2, [1, TOP, 1, 1], true),
            ("of a greater one", 2, [1, TOP + 1, 1, 1], false),
            ("of no boot", 2, [1, 0, 1, 1], false),
            ("of no group", 2, [1, 1, 0, 0], false),
            ("of a last op alone", 2, [1, 1, 0, 1], false),
            ("of a later group", 2, [1, 1, 2, 2], false),
            ("the first of eight", 2, [1, 1, 1, 8], true),
            ("the first of nine", 2, [1, 1, 1, 9], false),
            ("the last of three", 2, [3, 1, 1, 3], true),
            ("of an earlier group", 2, [3, 1, 1, 2], false),
            ("version 1 with a boot", 1, [1, 1, 0, 0], false),
            ("version 1 with a group", 1, [1, 0, 1, 1], false),
            ("version 1 with a last op", 1, [1, 0, 0, 1], false),
            ("version 0", 0, [1, 0, 0, 0], false),
            ("version 3", 3, [1, 1, 1, 1], false),
            ("version 258", 258, [1, 1, 1, 1], false),
        ],
    ),
];

// The boot, the first and the last op of a unit of another kind that is appended with no others.
const ALONE: [(&'static str, [u64; 3], bool); 7] = [
    ("of a boot", [1, 0, 0], true),
    ("of no boot", [0, 0, 0], false),
    ("of too great a boot", [TOP + 1, 0, 0], false),
    ("with a first op", [1, 1, 0], false),
    ("with a last op", [1, 0, 1], false),
    ("in a group of two", [1, 1, 2], false),
    ("in a group of op 9", [1, 9, 9], false),
];

#[test]
fn boots_and_groups_have_their_rules(rt: HostRuntime) {
    for (front, rows) in &RULES {
        for (name, version, numbers, is) in rows.iter() {
            let bytes = numbered(front, *version, numbers);
            assert!(rt; read_header(&bytes).is_some() == *is, "{name}");
        }
    }
}

const OTHERS: [(Example, u64); 3] = [(REPLY, 1), (BLOCK, 9), (TRAILER, 9)];

#[test]
fn a_unit_of_another_kind_has_a_boot_and_no_group(rt: HostRuntime) {
    for (front, op) in &OTHERS {
        for (name, group, is) in &ALONE {
            let [boot, first, last] = *group;
            let bytes = numbered(front, 2, &[*op, boot, first, last]);
            assert!(rt; read_header(&bytes).is_some() == *is, "op {op}, {name}");
        }
    }
}

#[test]
fn a_header_of_version_2_ends_in_zeros(rt: HostRuntime) {
    // A byte after the fields, and the last one.
    for at in [148, 255] {
        let bytes = made(&PREPARE, &[(122, 2), (124, 1), (132, 1), (140, 1), (at, 1)]);
        assert!(rt; read_header(&bytes).is_none(), "at {at}");
    }
}

#[test]
fn reads_the_boot_and_the_group_of_a_prepare(rt: HostRuntime) {
    // The checksum is from another implementation of SHA-256.
    let header = Header {
        checksum: [
            0x51, 0x0d, 0x16, 0xed, 0x9b, 0x51, 0x15, 0x9e, 0xda, 0xaa, 0xf3, 0xb5, 0xa8, 0x79,
            0xaf, 0xa9,
        ],
        checksum_body: check(&[]),
        size: 256,
        version: 2,
        boot: 1,
        group: 1,
        group_last: 1,
        ..header_of(Kind::Prepare, &[])
    };
    let bytes = numbered(&PREPARE, 2, &[1, 1, 1, 1]);
    assert!(rt; read_header(&bytes) == Some(header));
}
