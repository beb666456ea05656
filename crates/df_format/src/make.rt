// Units as they are made at the front of a buffer: header, body, and zeros up to the last whole sector.
ghost use Rattle.std.specs.Prelude.{◌≡◌, ◌+◌, ◌-◌, ◌*◌, ◌/◌, ◌≤◌, length, take, drop};
ghost use Rattle.df_base.specs.{declared.TheConstants.{HEADER}, Fields.{AreBytes, check_of}};
ghost use Rattle.df_format.specs.{Spelling.{spelling, sealed}, Rules.{IsSealed, ObeysRules}, Message.{sectors_end, sectors_of}, Making.{for_body}, UnitLaws.{MadeIsUnit}};

use crate::codec::{put_bytes, put_zeros};
use crate::{Header, encode_header, seal_header};
use df_base::{Check, HEADER, SECTOR, check};

/// A unit that was made in a buffer.
#[derive(Clone, Copy, Debug, PartialEq, Eq)]
pub struct Made {
    pub header: Header,
    /// Bytes of its whole sectors, at the front of the buffer.
    pub length: usize,
}

// How many bytes of whole sectors this many bytes cover.
fn sectors_end(size: usize) -> usize
    requires { size ≤ 1048576 }
    ensures { result ≡ sectors_end size }
{
    SECTOR * ((size + SECTOR - 1) / SECTOR)
}

// Writes the header over the first 256 bytes.
fn put_header(into: &mut [u8], header: &Header)
    requires header { IsSealed header.now }
    requires room { HEADER ≤ length into.old }
    ensures front { take HEADER into.new ≡ spelling header.now }
    ensures rest { drop HEADER into.new ≡ drop HEADER into.old }
{
    encode_header(header, &mut into[..HEADER]);
}

// Writes the header before a body of this length that stands after its place, and zeros up to the end of a sector, and gives that end.
fn write_ends(header: &Header, count: usize, into: &mut [u8]) -> usize
    requires header { IsSealed header.now }
    requires room { sectors_end (HEADER + count) ≤ length into.old }
    requires size { HEADER + count ≤ 1048576 }
    ensures length { result ≡ sectors_end (HEADER + count) }
    ensures sectors { take result into.new ≡ sectors_of (record { header = header.now; body = take count (drop HEADER into.old) }) }
    ensures rest { drop result into.new ≡ drop result into.old }
{
    let size = HEADER + count;
    let end = sectors_end(size);
    put_header(into, header);
    put_zeros(into, size, end);
    end
}

// The body that stands after the place of a header.
fn body_in(bytes: &[u8], count: usize) -> &[u8]
    requires { HEADER + count ≤ length bytes.now }
    ensures { result.now ≡ take count (drop HEADER bytes.now) }
{
    &bytes[HEADER..HEADER + count]
}

// The bytes of a buffer are bytes, as its type says.
fn are_bytes(bytes: &[u8])
    ensures { AreBytes bytes.now }
{}

// The header with the fields that follow from the body, which has this checksum.
fn for_body(header: Header, body: &[u8], sum: Check) -> Header
    requires size { HEADER + length body.now ≤ 1048576 }
    requires sum { sum ≡ check_of body.now }
    ensures { result ≡ for_body header body.now }
{
    Header {
        checksum_body: sum,
        size: (HEADER + body.len()) as u32,
        ..header
    }
}

/// Makes a unit of any kind of the body that stands at the front of a buffer, after the place of a header: it sets the header's
/// size and checksums, writes the header, and zeros up to the last whole sector, and leaves the rest of the buffer. The body has
/// `count` bytes, and `sum` is its checksum: it isn't hashed again.
pub fn seal_summed(header: Header, count: usize, sum: Check, into: &mut [u8]) -> Made
    requires rules { ObeysRules (for_body header (take count (drop HEADER into.old))) }
    requires sum { sum ≡ check_of (take count (drop HEADER into.old)) }
    requires size { HEADER + count ≤ 1048576 }
    requires room { sectors_end (HEADER + count) ≤ length into.old }
    ensures header { result.header ≡ sealed (for_body header (take count (drop HEADER into.old))) }
    ensures length { result.length ≡ sectors_end (HEADER + count) }
    ensures sealed { IsSealed result.header }
    ensures unit { MadeIsUnit (record { header = result.header; body = take count (drop HEADER into.old) }) }
    ensures sectors { take result.length into.new ≡ sectors_of (record { header = result.header; body = take count (drop HEADER into.old) }) }
    ensures rest { drop result.length into.new ≡ drop result.length into.old }
{
    let body = body_in(into, count);
    are_bytes(body);
    let header = seal_header(for_body(header, body, sum));
    let length = write_ends(&header, count, into);
    Made { header, length }
}

/// Makes a unit of any kind with this body at the front of a buffer: it sets the header's size and checksums, writes
/// header, body and zeros up to the last whole sector, and leaves the rest of the buffer.
pub fn make_unit(header: Header, body: &[u8], into: &mut [u8]) -> Made
    requires rules { ObeysRules (for_body header body.now) }
    requires size { HEADER + length body.now ≤ 1048576 }
    requires room { sectors_end (HEADER + length body.now) ≤ length into.old }
    ensures header { result.header ≡ sealed (for_body header body.now) }
    ensures length { result.length ≡ sectors_end (HEADER + length body.now) }
    ensures sealed { IsSealed result.header }
    ensures unit { MadeIsUnit (record { header = result.header; body = body.now }) }
    ensures sectors { take result.length into.new ≡ sectors_of (record { header = result.header; body = body.now }) }
    ensures rest { drop result.length into.new ≡ drop result.length into.old }
{
    let sum = check(body);
    put_bytes(into, HEADER, body);
    seal_summed(header, body.len(), sum, into)
}
