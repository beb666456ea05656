// The 256 bytes of a header: how they are written, and how they are tested and read. A header has one spelling.
ghost use Rattle.std.specs.Prelude.{◌≡◌, ◌+◌, ◌-◌, ◌≤◌, ◌++◌, length, take, drop, replicate};
ghost use Rattle.df_base.specs.declared.TheConstants.{HEADER};
ghost use Rattle.df_format.specs.{Spelling.{sealed, spelling, spelling_rest, code_of, tail_of}, Rules.{ObeysRules, IsSealed}, Reading.{kind_of, fields_of, is_spelled, header_in}};

use crate::rules::has_numbers;
use crate::{Header, Kind};
use df_base::{
    Check, HEADER, check, put_u16, put_u32, put_u64, put_u128, u16_at, u32_at, u64_at, u128_at,
};

// The end of the checksum, which covers all that follows it.
const SUMMED: usize = 16;

// Where the kind stands, and what its owner says of a block after it.
const KIND: usize = 120;

// Where the fields end; zeros follow up to the end of the header.
const END: usize = 148;

// Writes bytes from offset `at` on.
pub(crate) fn put_bytes(into: &mut [u8], at: usize, bytes: &[u8])
    requires { at + length bytes.now ≤ length into.old }
    ensures front { take (at + length bytes.now) into.new ≡ take at into.old ++ bytes.now }
    ensures rest { drop (at + length bytes.now) into.new ≡ drop (at + length bytes.now) into.old }
{
    into[at..at + bytes.len()].copy_from_slice(bytes);
}

// Writes zeros from offset `at` up to offset `end`.
pub(crate) fn put_zeros(into: &mut [u8], at: usize, end: usize)
    requires order { at ≤ end }
    requires room { end ≤ length into.old }
    ensures front { take end into.new ≡ take at into.old ++ replicate (end - at) 0 }
    ensures rest { drop end into.new ≡ drop end into.old }
{
    into[at..end].fill(0);
}

// Writes a checksum over 16 bytes.
pub(crate) fn put_check(into: &mut [u8], at: usize, value: &Check)
    requires { at + 16 ≤ length into.old }
    ensures front { take (at + 16) into.new ≡ take at into.old ++ value.now }
    ensures rest { drop (at + 16) into.new ≡ drop (at + 16) into.old }
{
    put_bytes(into, at, value);
}

// The byte that says a kind.
fn code_of(kind: Kind) -> u8
    ensures { result ≡ code_of kind }
{
    match kind {
        Kind::Reserved => 1,
        Kind::Prepare => 2,
        Kind::Reply => 3,
        Kind::Block => 4,
        Kind::Trailer => 5,
    }
}

// Writes the version with what it says of boot and group, and the zeros after them.
fn put_tail(into: &mut [u8], header: &Header)
    requires { length into.old ≡ HEADER }
    ensures { into.new ≡ take 122 into.old ++ tail_of header.now }
{
    put_u16(into, 122, header.version);
    put_u64(into, 124, header.boot);
    put_u64(into, 132, header.group);
    put_u64(into, 140, header.group_last);
    put_zeros(into, END, HEADER);
}

// Writes all that the checksum covers.
fn put_fields(into: &mut [u8], header: &Header)
    requires { length into.old ≡ HEADER }
    ensures { into.new ≡ take 16 into.old ++ spelling_rest header.now }
{
    put_check(into, 16, &header.checksum_body);
    put_u128(into, 32, header.cluster);
    put_check(into, 48, &header.parent);
    put_u128(into, 64, header.client);
    put_u64(into, 80, header.op);
    put_u64(into, 88, header.request);
    put_u64(into, 96, header.mark);
    put_u64(into, 104, header.checkpoint);
    put_u32(into, 112, header.size);
    put_u32(into, 116, header.slot);
    put_bytes(into, KIND, &[code_of(header.kind), header.block_kind]);
    put_tail(into, header);
}

/// The header with the checksum that its other fields give.
pub fn seal_header(header: Header) -> Header
    requires { ObeysRules header }
    ensures value { result ≡ sealed header }
    ensures sealed { IsSealed result }
{
    let mut bytes = [0u8; HEADER];
    put_fields(&mut bytes, &header);
    Header {
        checksum: check(&bytes[SUMMED..]),
        ..header
    }
}

/// Writes the 256 bytes of a sealed header over `into`.
pub fn encode_header(header: &Header, into: &mut [u8])
    requires header { IsSealed header.now }
    requires room { length into.old ≡ HEADER }
    ensures { into.new ≡ spelling header.now }
{
    put_check(into, 0, &header.checksum);
    put_fields(into, header);
}

pub(crate) fn check_at(bytes: &[u8], at: usize) -> Check
    requires { at + 16 ≤ length bytes.now }
    ensures { result ≡ take 16 (drop at bytes.now) }
{
    let mut found = [0u8; 16];
    found.copy_from_slice(&bytes[at..at + 16]);
    found
}

#[tactic(auto, unfolding(crate::specs::Reading::fields_of))]
fn fields_of(kind: Kind, bytes: &[u8]) -> Header
    requires { length bytes.now ≡ HEADER }
    ensures { result ≡ fields_of kind bytes.now }
{
    Header {
        checksum: check_at(bytes, 0),
        checksum_body: check_at(bytes, 16),
        cluster: u128_at(bytes, 32),
        parent: check_at(bytes, 48),
        client: u128_at(bytes, 64),
        op: u64_at(bytes, 80),
        request: u64_at(bytes, 88),
        mark: u64_at(bytes, 96),
        checkpoint: u64_at(bytes, 104),
        size: u32_at(bytes, 112),
        slot: u32_at(bytes, 116),
        kind,
        block_kind: bytes[121],
        version: u16_at(bytes, 122),
        boot: u64_at(bytes, 124),
        group: u64_at(bytes, 132),
        group_last: u64_at(bytes, 140),
    }
}

// The kind that a byte says.
#[tactic(auto, unfolding(crate::specs::Reading::kind_of))]
fn kind_of(code: u8) -> Option<Kind>
    ensures { result ≡ kind_of code }
{
    match code {
        1 => Some(Kind::Reserved),
        2 => Some(Kind::Prepare),
        3 => Some(Kind::Reply),
        4 => Some(Kind::Block),
        5 => Some(Kind::Trailer),
        _ => None,
    }
}

// Whether the checksum is right, and zeros stand after the fields.
#[tactic(auto, unfolding(crate::specs::Reading::is_spelled))]
fn is_spelled(bytes: &[u8]) -> bool
    requires { length bytes.now ≡ HEADER }
    ensures { result ≡ is_spelled bytes.now }
{
    &bytes[..SUMMED] == check(&bytes[SUMMED..HEADER]).as_slice() && bytes[END..HEADER] == [0; 108]
}

/// The header, of either version, that 256 bytes are the spelling of; None where they are that of no header that obeys the
/// rules of its kind and its version. The rules that need a layout aren't tested.
#[tactic(auto, unfolding(crate::specs::Reading::header_in))]
pub fn decode_header(bytes: &[u8]) -> Option<Header>
    requires { length bytes.now ≡ HEADER }
    ensures { result ≡ header_in bytes.now }
{
    let kind = kind_of(bytes[KIND])?;
    let header = fields_of(kind, bytes);
    if is_spelled(bytes) && has_numbers(&header) {
        Some(header)
    } else {
        None
    }
}
