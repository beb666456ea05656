// Copies of the superblock against values from outside: the bytes of the first one, and which sectors are a copy.
use crate::tests::super_examples::{
    FIRST, LATER, OF_PLACE_2, changed, fields_in, number_in, sealed, used, written,
};
use df_format::{SuperCopy, SuperFields, decode_copy};
use df_layout::{Class, Layout};

// The first 80 bytes of its copy 2, the others are zero. The checksum is from another implementation of SHA-256.
const FRONT: [u8; 80] = [
    0xbf, 0x28, 0xac, 0xbc, 2, 0x47, 0x4e, 9, 0x79, 0x64, 0xe7, 0x49, 0x3b, 0x6c, 0x59, 0x31, 2, 0,
    0, 0, 0, 0, 0, 0, 0, 0, 0, 0, 0, 0, 0, 0, 1, 0, 0, 0, 32, 0, 0, 0, 0, 0x20, 0, 0, 4, 0, 0, 0,
    7, 0, 0, 0, 0, 0, 0, 0, 0, 0, 0, 0, 0, 0, 0, 0, 0, 0x40, 0, 0, 64, 0, 0, 0, 1, 0, 0, 0, 0, 0,
    0, 0,
];

fn example() -> [u8; 4096] {
    let mut bytes = [0; 4096];
    bytes[..80].copy_from_slice(&FRONT);
    bytes
}

#[test]
fn writes_and_reads_the_first_superblock(rt: HostRuntime) {
    let bytes = written(&FIRST, 2);
    assert!(rt; bytes == example());
    assert!(rt; bytes[40..].starts_with(&[0, 0x20, 0, 0]));
    assert!(rt; bytes[64..].starts_with(&[0, 0x40, 0, 0]));
    let mut checksum = [0; 16];
    checksum.copy_from_slice(&FRONT[..16]);
    let copy = SuperCopy {
        number: 2,
        checksum,
        fields: FIRST,
    };
    assert!(rt; decode_copy(&bytes) == Some(copy));
    assert!(rt; used(&FIRST) == Some((FIRST, Layout::small())));
}

fn has_at(bytes: &[u8], at: usize, field: &[u8]) -> bool {
    at <= bytes.len() && bytes[at..].starts_with(field)
}

const GREATEST: SuperFields = SuperFields {
    op: 1 << 62,
    head: 1 << 62,
    replies: (1 << 62) - 8,
    ..LATER
};

// Its fields from its op on, by their offset.
const FIELDS: [(usize, [u8; 8]); 11] = [
    (80, [0, 0, 0, 0, 0, 0, 0, 0x40]),
    (88, [0, 0, 0, 0, 0, 0, 0, 0x40]),
    (96, [0xf8, 0xff, 0xff, 0xff, 0xff, 0xff, 0xff, 0x3f]),
    (104, [9, 0, 0, 0, 0, 0, 0, 0]),
    (112, [1; 8]),
    (120, [1; 8]),
    (128, [2; 8]),
    (136, [2; 8]),
    (144, [0x90, 8, 0, 0, 0, 0, 0, 0]),
    (152, [0; 8]),
    (160, [0; 8]),
];

#[test]
fn writes_each_field_at_its_offset(rt: HostRuntime) {
    let bytes = written(&GREATEST, 1);
    for (at, field) in &FIELDS {
        assert!(rt; has_at(&bytes, *at, field), "at {at}");
    }
    assert!(rt; fields_in(&bytes) == Some(GREATEST));
}

// The first byte of the sector with one byte changed that should be zero and isn't, where that is a copy.
fn first_nonzero(at: usize) -> Option<Option<u64>> {
    match fields_in(&sealed(changed(example(), at, 1))) {
        Some(fields) => Some(fields.first_nonzero),
        None => None,
    }
}

// A byte that is put over one of the example's, and whether that is a copy still.
const CHANGES: [(usize, u8, bool); 10] = [
    (16, 2, true),
    (16, 3, true),
    (16, 4, false),
    (17, 1, false),
    (25, 1, false),
    (31, 1, false),
    (0, 0xbe, false),
    (15, 0x30, false),
    (32, 2, false),
    (4095, 1, false),
];

#[test]
fn tells_which_sectors_are_a_copy(rt: HostRuntime) {
    for (at, byte, is) in &CHANGES {
        assert!(rt;
            fields_in(&changed(example(), *at, *byte)).is_some() == *is,
            "at {at}"
        );
    }
    assert!(rt; fields_in(&sealed(changed(example(), 32, 2))).is_some());
    assert!(rt; fields_in(&[0; 4096]).is_none());
    let first = (first_nonzero(4095), first_nonzero(160), first_nonzero(159));
    assert!(rt; first == (Some(Some(4095)), Some(Some(160)), Some(None)));
}

// Zeros but for the last byte.
fn a_last_byte() -> [u8; 4096] {
    let mut bytes = [0; 4096];
    bytes[4095] = 1;
    bytes
}

#[test]
fn tells_the_class_of_a_sector(rt: HostRuntime) {
    assert!(rt; number_in(false, &[0; 4096]) == Err(Class::Blank));
    assert!(rt; number_in(false, &changed(example(), 25, 1)) == Err(Class::Garbled));
    assert!(rt; number_in(false, &a_last_byte()) == Err(Class::Garbled));
    assert!(rt; number_in(false, &example()) == Err(OF_PLACE_2));
    assert!(rt; number_in(false, &changed(example(), 16, 1)) == Ok(1));
}
