// A header of each kind in cluster 7. The checksums are from another implementation of SHA-256.
use df_base::{Check, HEADER, check};
use df_format::{Header, decode_header};

// A byte that is put into a header, after its offset.
pub(crate) type Put = (usize, u8);

// A header of version 1 without a body: its checksum and its parent's, and the bytes that aren't zero but for those that
// all have.
pub(crate) type Example = (u128, u128, &'static [Put]);

// What all have: the checksum of no body; cluster 7, the size 256 and version 1.
const NO_BODY: u128 = 0xe3b0_c442_98fc_1c14_9afb_f4c8_996f_b924;

const OF_ALL: [Put; 3] = [(32, 7), (113, 1), (122, 1)];

// The reserved header of slot 3.
pub(crate) const RESERVED: Example = (
    0x5829_f0db_ca73_9efb_9aa7_21b5_5b57_49c4,
    0,
    &[(116, 3), (120, 1)],
);

// The prepare of op 1 on layout small: client 5, request 1, sequence 1, no reply stored.
pub(crate) const PREPARE: Example = (
    0xb8f7_0ae1_a7a8_9d53_3837_c110_9c02_8b26,
    0,
    &[(64, 5), (80, 1), (88, 1), (104, 1), (116, 1), (120, 2)],
);

// The reply to that prepare, at the session's place 2.
pub(crate) const REPLY: Example = (
    0xf3bc_5332_d414_206d_0957_6374_eb38_009c,
    0xb8f7_0ae1_a7a8_9d53_3837_c110_9c02_8b26,
    &[
        (64, 5),
        (80, 1),
        (88, 1),
        (96, 1),
        (104, 1),
        (116, 2),
        (120, 3),
    ],
);

// The block of kind 1 at address 9.
pub(crate) const BLOCK: Example = (
    0xfa6d_1f7e_4036_aaf4_8864_d37d_590b_4a34,
    0,
    &[(80, 9), (120, 4), (121, 1)],
);

// The block with index 0 of the trailer of sequence 2, at address 8.
pub(crate) const FIRST_TRAILER: Example = (
    0x3ebe_5a00_702e_4d77_aa67_2b72_3f3d_220f,
    0,
    &[(80, 8), (104, 2), (120, 5)],
);

// The block with index 1 of that trailer, at address 9.
pub(crate) const TRAILER: Example = (
    0x1f19_4e05_5552_a70e_0500_9cb7_b43c_c802,
    0x3ebe_5a00_702e_4d77_aa67_2b72_3f3d_220f,
    &[(80, 9), (88, 8), (96, 1), (104, 2), (120, 5)],
);

// What makes an example one of version 2, in no boot and in boot 1.
pub(crate) const UNBOOTED: &'static [Put] = &[(122, 2)];

pub(crate) const BOOTED: &'static [Put] = &[(122, 2), (124, 1)];

// The same of a prepare in a group of its own, and in one of two.
pub(crate) const ALONE: &'static [Put] = &[(122, 2), (124, 1), (132, 1), (140, 1)];

pub(crate) const PAIR: &'static [Put] = &[(122, 2), (124, 1), (132, 1), (140, 2)];

pub(crate) fn checksum_of(example: &Example) -> Check {
    let (checksum, _, _) = *example;
    checksum.to_be_bytes()
}

fn put_all(bytes: &mut [u8; 256], puts: &[Put]) {
    for (at, byte) in puts {
        if *at < bytes.len() {
            bytes[*at] = *byte;
        }
    }
}

// The 256 bytes of an example.
pub(crate) fn spelled(example: &Example) -> [u8; 256] {
    let (checksum, parent, puts) = *example;
    let mut bytes = [0; HEADER];
    bytes[..16].copy_from_slice(&checksum.to_be_bytes());
    bytes[16..32].copy_from_slice(&NO_BODY.to_be_bytes());
    bytes[48..64].copy_from_slice(&parent.to_be_bytes());
    put_all(&mut bytes, &OF_ALL);
    put_all(&mut bytes, puts);
    bytes
}

// The example with a byte changed that its checksum covers.
pub(crate) fn spoilt(example: &Example, at: usize, byte: u8) -> [u8; 256] {
    let mut bytes = spelled(example);
    put_all(&mut bytes, &[(at, byte)]);
    bytes
}

// The header with its checksum made right.
pub(crate) fn sealed(mut bytes: [u8; 256]) -> [u8; 256] {
    let sum = check(&bytes[16..]);
    bytes[..16].copy_from_slice(&sum);
    bytes
}

// The example with these bytes put over it and the checksum made right again.
pub(crate) fn made(example: &Example, puts: &[Put]) -> [u8; 256] {
    let mut bytes = spelled(example);
    put_all(&mut bytes, puts);
    sealed(bytes)
}

// The header that the bytes spell, of which a caller's proof is told nothing.
pub(crate) fn read_header(bytes: &[u8; 256]) -> Option<Header> {
    decode_header(bytes)
}
