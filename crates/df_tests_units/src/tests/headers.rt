// The headers of each kind against values from outside, and each rule of each kind broken once.
ghost use Rattle.std.specs.Prelude.{◌≡◌, length};
ghost use Rattle.df_format.specs.Rules.{ObeysRules};

use crate::tests::examples::{
    BLOCK, Example, FIRST_TRAILER, PREPARE, REPLY, RESERVED, TRAILER, checksum_of, made,
    read_header, spelled,
};
use crate::tests::room_examples::header_of;
use df_base::check;
use df_format::{
    Header, Kind, decode_header, encode_header, headers_have_one_spelling, seal_header,
};

// The header without a body as its maker gives it, and what is sealed into it.
fn whole(header: Header, front: &Example) -> Header {
    Header {
        checksum: checksum_of(front),
        checksum_body: check(&[]),
        size: 256,
        ..header
    }
}

// The bytes of a header that is sealed.
fn written(header: Header) -> [u8; 256]
    requires { ObeysRules header }
{
    let mut into = [9; 256];
    encode_header(&seal_header(header), &mut into);
    into
}

// What is read from the bytes, sealed again and written.
fn rewritten(bytes: &[u8]) -> Option<[u8; 256]>
    requires { length bytes.now ≡ 256 }
{
    headers_have_one_spelling();
    let header = decode_header(bytes)?;
    Some(written(header))
}

#[test]
fn reads_the_fields_of_each_kind(rt: HostRuntime) {
    let reserved = Header {
        slot: 3,
        ..Header::of(Kind::Reserved, 7)
    };
    let answer = Header {
        parent: checksum_of(&PREPARE),
        ..header_of(Kind::Reply, &[])
    };
    let last = Header {
        parent: checksum_of(&FIRST_TRAILER),
        request: 8,
        mark: 1,
        ..header_of(Kind::Trailer, &[])
    };
    let cases = [
        (RESERVED, reserved),
        (PREPARE, header_of(Kind::Prepare, &[])),
        (REPLY, answer),
        (BLOCK, header_of(Kind::Block, &[])),
        (TRAILER, last),
    ];
    for (i, (front, header)) in cases.iter().enumerate() {
        assert!(rt;
            read_header(&spelled(front)) == Some(whole(*header, front)),
            "case {i}"
        );
    }
}

// Bytes, and the offsets at which each of them is put over an example, one at a time. 64 as the last byte of a number is 2^62.
type Puts = &'static [(u8, &'static [usize])];

// What leaves no header of any kind.
const OF_NO_KIND: Puts = &[
    (0, &[32, 113, 120, 122]),
    (1, &[123, 124, 132, 140, 148, 255]),
    (3, &[122]),
    (6, &[120]),
];

// An example, what leaves no header, and what leaves one.
const RULES: [(Example, Puts, Puts); 6] = [
    (
        RESERVED,
        &[(0, &[16]), (1, &[48, 64, 80, 88, 96, 104, 112, 121])],
        &[(2, &[122]), (9, &[116])],
    ),
    (
        PREPARE,
        &[
            (0, &[64, 80, 88, 104]),
            (1, &[48, 96, 120, 121]),
            (2, &[122]),
            (64, &[87, 95, 111]),
        ],
        &[(1, &[112]), (2, &[80]), (9, &[116]), (63, &[87])],
    ),
    (
        REPLY,
        &[
            (0, &[64, 80, 88, 96, 104]),
            (1, &[121]),
            (2, &[80, 122]),
            (64, &[95, 103, 111]),
        ],
        &[(0, &[16]), (1, &[112]), (9, &[48, 116]), (63, &[103])],
    ),
    (
        BLOCK,
        &[
            (0, &[80, 121]),
            (1, &[48, 64, 88, 96, 104, 116]),
            (2, &[122]),
        ],
        &[(1, &[112]), (255, &[87, 121])],
    ),
    (FIRST_TRAILER, &[(1, &[48, 88, 96])], &[]),
    (
        TRAILER,
        &[
            (0, &[80, 88, 96]),
            (1, &[64, 104, 116, 121]),
            (2, &[122]),
            (64, &[111]),
        ],
        &[(9, &[48])],
    ),
];

// The first of these offsets at which a byte is judged otherwise.
fn first_at(front: &Example, byte: u8, offsets: &[usize], is: bool) -> Option<usize> {
    for at in offsets {
        if read_header(&made(front, &[(*at, byte)])).is_some() != is {
            return Some(*at);
        }
    }
    None
}

// The first byte and offset that are judged otherwise.
fn first_other(front: &Example, puts: Puts, is: bool) -> Option<(u8, usize)> {
    for (byte, offsets) in puts {
        if let Some(at) = first_at(front, *byte, offsets, is) {
            return Some((*byte, at));
        }
    }
    None
}

#[test]
fn each_kind_is_written_as_it_was_read_and_has_its_rules(rt: HostRuntime) {
    for (front, broken, kept) in &RULES {
        let bytes = spelled(front);
        assert!(rt; rewritten(&bytes) == Some(bytes));
        assert!(rt; first_other(front, OF_NO_KIND, false) == None);
        assert!(rt; first_other(front, broken, false) == None);
        assert!(rt; first_other(front, kept, true) == None);
        assert!(rt; first_other(front, &[(0, &[255])], true) == None);
    }
}
