// Which superblocks can be used: each field's test failing in turn, and passing at its limits.
use crate::tests::super_examples::{FIRST, LATER, fields_in, judged, sealed, used, written};
use df_format::{SuperFault, SuperFields};
use df_layout::{Field, Layout};

// A number of this many bytes, at an offset of the sector.
type Put = (usize, usize, u64);

fn put(bytes: &mut [u8; 4096], number: &Put) {
    let (at, width, value) = *number;
    for (i, byte) in value.to_le_bytes().iter().enumerate() {
        if i < width && at < 4096 - i {
            bytes[at + i] = *byte;
        }
    }
}

// Whether a superblock can be used whose sector is that of these fields with numbers put over it; None where that is no
// copy.
fn tested(fields: &SuperFields, numbers: &[Put]) -> Option<Result<(), SuperFault>> {
    let mut bytes = written(fields, 0);
    for number in numbers {
        put(&mut bytes, number);
    }
    let fields = fields_in(&sealed(bytes))?;
    Some(judged(&fields))
}

fn bad(field: Field, value: u64) -> SuperFault {
    SuperFault::BadField {
        field,
        value: u128::from(value),
    }
}

// A field's offset and width, values of it with which the superblock can't be used, and its name.
type Row = (usize, usize, &'static [u64], Field);

const WITHOUT: [Row; 13] = [
    (36, 4, &[0, 24, 1040], Field::Slots),
    (40, 4, &[8191, 1_052_672], Field::MessageSize),
    (44, 4, &[0, 65], Field::Clients),
    (64, 4, &[0, 528_384], Field::BlockSize),
    (68, 4, &[7, 16_385], Field::Blocks),
    (48, 8, &[0], Field::Cluster),
    (72, 8, &[0, (1 << 62) + 1], Field::Sequence),
    (112, 2, &[256], Field::OpChecksum),
    (128, 8, &[u64::MAX], Field::TrailerChecksum),
    (144, 8, &[1], Field::TrailerSize),
    (152, 8, &[1], Field::Boot),
    // what is said of a byte that should be zero is its offset
    (160, 0, &[160], Field::Zero),
    (4095, 0, &[4095], Field::Zero),
];

const WITH: [Row; 5] = [
    (80, 8, &[(1 << 62) + 1, u64::MAX], Field::Op),
    (88, 8, &[99, 133], Field::Head),
    (96, 8, &[111, 101, u64::MAX], Field::Replies),
    (104, 8, &[0, 65], Field::TrailerAddress),
    (144, 8, &[0, 2193], Field::TrailerSize),
];

// The first value of a row that isn't refused as it should be; of a width 0 a one is put there.
fn first_other(fields: &SuperFields, row: &Row) -> Option<u64> {
    let (at, width, values, field) = *row;
    for value in values {
        let number = if width == 0 {
            (at, 1, 1)
        } else {
            (at, width, *value)
        };
        if tested(fields, &[number]) != Some(Err(bad(field, *value))) {
            return Some(*value);
        }
    }
    None
}

// Numbers at the limits, with which the superblock that has a checkpoint can be used.
const USABLE: [[Put; 3]; 5] = [
    [(88, 8, 132), (96, 8, 124), (48, 8, 7)],
    [(88, 8, 100), (96, 8, 100), (48, 8, 7)],
    [(104, 8, 64), (144, 8, 1), (72, 8, 1 << 62)],
    [(80, 8, 1 << 62), (88, 8, 1 << 62), (96, 8, (1 << 62) - 8)],
    [(48, 8, 0), (56, 8, u64::MAX), (72, 8, 1)],
];

#[test]
fn tests_each_field_up_to_its_limits(rt: HostRuntime) {
    for row in &WITHOUT {
        assert!(rt; first_other(&FIRST, row) == None);
    }
    for row in &WITH {
        assert!(rt; first_other(&LATER, row) == None);
    }
    assert!(rt; tested(&FIRST, &[]) == Some(Ok(())));
    for numbers in &USABLE {
        assert!(rt; tested(&LATER, numbers) == Some(Ok(())));
    }
}

// Numbers of which each breaks a rule, in the order of the tests.
const BROKEN: [Put; 7] = [
    (32, 4, 9),
    (36, 4, 0),
    (44, 4, 0),
    (48, 8, 0),
    (80, 8, u64::MAX),
    (152, 8, 1),
    (200, 1, 1),
];

// What is said of a superblock with these numbers and those after them.
const SAID: [(Field, u64); 6] = [
    (Field::Slots, 0),
    (Field::Clients, 0),
    (Field::Cluster, 0),
    (Field::Op, u64::MAX),
    (Field::Boot, 1),
    (Field::Zero, 200),
];

#[test]
fn tests_the_version_first_and_then_in_order(rt: HostRuntime) {
    let version = SuperFault::Version { found: 9 };
    assert!(rt; tested(&LATER, &BROKEN) == Some(Err(version)));
    let mut broken = BROKEN.as_slice();
    for (field, value) in &SAID {
        broken = broken.get(1..).unwrap_or(&[]);
        assert!(rt; tested(&LATER, broken) == Some(Err(bad(*field, *value))));
    }
}

#[test]
fn uses_the_largest_superblock(rt: HostRuntime) {
    let large = Layout::large();
    let fields = SuperFields {
        slots: large.slots,
        message_size: large.message_size,
        clients: large.clients,
        block_size: large.block_size,
        blocks: large.blocks,
        trailer_size: 267_272,
        ..LATER
    };
    assert!(rt; used(&fields) == Some((fields, large)));
    let answer = tested(&fields, &[(144, 8, 267_273)]);
    assert!(rt; answer == Some(Err(bad(Field::TrailerSize, 267_273))));
}
