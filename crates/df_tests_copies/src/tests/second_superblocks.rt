// Superblocks of version 2: their bytes against values from outside, and each of their own tests failing in turn.
use crate::tests::super_examples::{
    LATER, NEW, OF_PLACE_2, changed, fields_in, judged, number_in, sealed, written,
};
use df_base::Check;
use df_format::{NO_CHECKSUM, NO_CHECKSUMS, SuperFault, SuperFields};
use df_layout::{Class, Field};

// The checksum of the prepare of op 1, of boot 1 and by itself, and that of a reply to it with the body aa.
const PREPARE: Check = [
    0x51, 0x0d, 0x16, 0xed, 0x9b, 0x51, 0x15, 0x9e, 0xda, 0xaa, 0xf3, 0xb5, 0xa8, 0x79, 0xaf, 0xa9,
];

const REPLY: Check = [
    0x42, 0x19, 0xe9, 0x6b, 0xf5, 0x24, 0xcd, 0x07, 0x53, 0x15, 0x95, 0x23, 0x96, 0x57, 0x13, 0xec,
];

// One with a checkpoint of op 100 and a head of its own.
const SECOND: SuperFields = SuperFields {
    version: 2,
    boot: 3,
    head_checksum: [4; 16],
    ..LATER
};

// One whose head is its checkpoint's op.
const LEVEL: SuperFields = SuperFields {
    head: 100,
    replies: 100,
    head_checksum: [1; 16],
    ..SECOND
};

// The checksums of replies of which the first place alone has one.
fn first_alone(check: Check) -> [Check; 64] {
    let mut checks = NO_CHECKSUMS;
    checks[0] = check;
    checks
}

#[test]
fn writes_and_reads_what_version_2_names(rt: HostRuntime) {
    let fields = SuperFields {
        head: 1,
        replies: 1,
        boot: 2,
        head_checksum: PREPARE,
        reply_checksums: first_alone(REPLY),
        ..NEW
    };
    let bytes = written(&fields, 2);
    // From another implementation of SHA-256.
    assert!(rt; bytes.starts_with(&[0xc2, 0x14, 0xdd, 9, 0xde, 9, 9, 0x19]));
    assert!(rt; bytes[160..].starts_with(&PREPARE));
    assert!(rt; bytes[192..].starts_with(&REPLY));
    assert!(rt; fields_in(&bytes) == Some(fields));
    let new = written(&NEW, 2);
    assert!(rt; new.starts_with(&[0x5c, 0x59, 0xa9, 0x67, 0x37, 0xa8, 0x99, 0x98]));
}

// Whether a superblock can be used whose sector is that of these fields with bytes put over it; None where that is no copy.
fn tested(fields: &SuperFields, puts: &[(usize, u8)]) -> Option<Result<(), SuperFault>> {
    let mut bytes = written(fields, 0);
    for (at, byte) in puts {
        if *at < bytes.len() {
            bytes[*at] = *byte;
        }
    }
    let fields = fields_in(&sealed(bytes))?;
    Some(judged(&fields))
}

// Bytes that are put over a superblock, the field that is refused then, and its value.
type Row = (&'static [(usize, u8)], Field, u128);

const OF_SECOND: [Row; 9] = [
    (&[(159, 0x40)], Field::Boot, (1 << 62) + 3),
    (&[(152, 1), (159, 0x40)], Field::Boot, (1 << 62) + 1),
    (&[(256, 1)], Field::Replies, 4),
    (&[(1215, 1)], Field::Replies, 63),
    (&[(1215, 1), (272, 9)], Field::Replies, 5),
    (&[(176, 1)], Field::Zero, 176),
    (&[(191, 1)], Field::Zero, 191),
    (&[(1216, 1)], Field::Zero, 1216),
    (&[(4095, 1), (190, 1)], Field::Zero, 190),
];

const OF_NEW: [Row; 4] = [
    (&[(160, 7)], Field::Head, 7),
    (
        &[(159, 0x41), (160, 1), (256, 1), (176, 1)],
        Field::Boot,
        0x41 << 56,
    ),
    (&[(160, 1), (256, 1), (176, 1)], Field::Head, 1),
    (&[(256, 1), (176, 1)], Field::Replies, 4),
];

const OF_LEVEL: [Row; 1] = [(
    &[(160, 2)],
    Field::Head,
    0x0101_0101_0101_0101_0101_0101_0101_0102,
)];

// The first row that isn't refused as it says.
fn first_other(fields: &SuperFields, rows: &[Row]) -> Option<usize> {
    for (i, (puts, field, value)) in rows.iter().enumerate() {
        let refused = SuperFault::BadField {
            field: *field,
            value: *value,
        };
        if tested(fields, puts) != Some(Err(refused)) {
            return Some(i);
        }
    }
    None
}

#[test]
fn refuses_fields_of_version_2(rt: HostRuntime) {
    assert!(rt; first_other(&SECOND, &OF_SECOND) == None);
    assert!(rt; first_other(&NEW, &OF_NEW) == None);
    assert!(rt; first_other(&LEVEL, &OF_LEVEL) == None);
}

#[test]
fn takes_fields_of_version_2_up_to_their_limits(rt: HostRuntime) {
    assert!(rt; tested(&NEW, &[]) == Some(Ok(())));
    assert!(rt; tested(&LEVEL, &[(240, 1)]) == Some(Ok(())));
    assert!(rt; tested(&SECOND, &[(159, 0x3f)]) == Some(Ok(())));
    assert!(rt; tested(&SECOND, &[(152, 0), (159, 0x40)]) == Some(Ok(())));
    // Of a head above the checkpoint's op no checksum is compared with another.
    let unnamed = SuperFields {
        head_checksum: NO_CHECKSUM,
        ..SECOND
    };
    assert!(rt; tested(&unnamed, &[]) == Some(Ok(())));
}

// Numbers of four bytes that are put over the version, and what is found.
const VERSIONS: [(u8, u8, u32); 3] = [(0, 0, 0), (3, 0, 3), (2, 1, 0x0001_0002)];

#[test]
fn a_version_that_is_not_known_is_refused_before_any_field(rt: HostRuntime) {
    for (low, third, found) in &VERSIONS {
        let refused = SuperFault::Version { found: *found };
        let puts = [(32, *low), (34, *third), (36, 0), (159, 0x41)];
        assert!(rt; tested(&SECOND, &puts) == Some(Err(refused)), "{found}");
    }
}

#[test]
fn tells_the_class_of_a_sector_of_version_2(rt: HostRuntime) {
    let sector = written(&SECOND, 2);
    assert!(rt; number_in(true, &sector) == Ok(2));
    assert!(rt; number_in(false, &sector) == Err(OF_PLACE_2));
    // The checksum covers what is named, and not the number.
    assert!(rt; number_in(false, &changed(sector, 16, 1)) == Ok(1));
    assert!(rt; number_in(true, &changed(sector, 192, 1)) == Err(Class::Garbled));
}

#[test]
fn version_1_names_nothing(rt: HostRuntime) {
    let names = SuperFields {
        head_checksum: [4; 16],
        ..LATER
    };
    let refused = SuperFault::BadField {
        field: Field::Zero,
        value: 0,
    };
    assert!(rt; judged(&names) == Err(refused));
    let named = SuperFields {
        head_checksum: NO_CHECKSUM,
        reply_checksums: first_alone(REPLY),
        ..LATER
    };
    assert!(rt; judged(&named) == Err(refused));
}
