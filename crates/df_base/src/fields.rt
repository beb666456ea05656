// What a header or a copy is made of: unsigned numbers in bytes, the lowest byte first, and the checksum of units, the first
// half of SHA-256 (FIPS 180-4). A put leaves all bytes outside its field, and the law at the end says that reading loses nothing of
// a field.
ghost use Rattle.std.specs.Prelude.{◌≡◌, ◌≤◌, ◌+◌, length};
ghost use Rattle.df_base.specs.Fields.{check_of, field_at, put_at, FieldsAreSpelled};

use crate::Check;
use byteorder::{ByteOrder, LittleEndian};
use sha2::{Digest, Sha256};

/// The number in the 2 bytes from offset `at` on.
#[tactic(auto, unfolding(crate::specs::Fields::field_at))]
pub fn u16_at(bytes: &[u8], at: usize) -> u16
    requires { at + 2 ≤ length bytes.now }
    ensures { result ≡ field_at 2 at bytes.now }
{
    LittleEndian::read_u16(&bytes[at..])
}

/// The number in the 4 bytes from offset `at` on.
#[tactic(auto, unfolding(crate::specs::Fields::field_at))]
pub fn u32_at(bytes: &[u8], at: usize) -> u32
    requires { at + 4 ≤ length bytes.now }
    ensures { result ≡ field_at 4 at bytes.now }
{
    LittleEndian::read_u32(&bytes[at..])
}

/// The number in the 8 bytes from offset `at` on.
#[tactic(auto, unfolding(crate::specs::Fields::field_at))]
pub fn u64_at(bytes: &[u8], at: usize) -> u64
    requires { at + 8 ≤ length bytes.now }
    ensures { result ≡ field_at 8 at bytes.now }
{
    LittleEndian::read_u64(&bytes[at..])
}

/// The number in the 16 bytes from offset `at` on.
#[tactic(auto, unfolding(crate::specs::Fields::field_at))]
pub fn u128_at(bytes: &[u8], at: usize) -> u128
    requires { at + 16 ≤ length bytes.now }
    ensures { result ≡ field_at 16 at bytes.now }
{
    LittleEndian::read_u128(&bytes[at..])
}

/// Puts a number into the 2 bytes from offset `at` on.
#[tactic(auto, unfolding(crate::specs::Fields::spelled))]
pub fn put_u16(bytes: &mut [u8], at: usize, value: u16)
    requires { at + 2 ≤ length bytes.old }
    ensures { bytes.new ≡ put_at 2 at value bytes.old }
{
    let mut field = [0u8; 2];
    LittleEndian::write_u16(&mut field, value);
    bytes[at..at + 2].copy_from_slice(&field);
}

/// Puts a number into the 4 bytes from offset `at` on.
#[tactic(auto, unfolding(crate::specs::Fields::spelled))]
pub fn put_u32(bytes: &mut [u8], at: usize, value: u32)
    requires { at + 4 ≤ length bytes.old }
    ensures { bytes.new ≡ put_at 4 at value bytes.old }
{
    let mut field = [0u8; 4];
    LittleEndian::write_u32(&mut field, value);
    bytes[at..at + 4].copy_from_slice(&field);
}

/// Puts a number into the 8 bytes from offset `at` on.
#[tactic(auto, unfolding(crate::specs::Fields::spelled))]
pub fn put_u64(bytes: &mut [u8], at: usize, value: u64)
    requires { at + 8 ≤ length bytes.old }
    ensures { bytes.new ≡ put_at 8 at value bytes.old }
{
    let mut field = [0u8; 8];
    LittleEndian::write_u64(&mut field, value);
    bytes[at..at + 8].copy_from_slice(&field);
}

/// Puts a number into the 16 bytes from offset `at` on.
#[tactic(auto, unfolding(crate::specs::Fields::spelled))]
pub fn put_u128(bytes: &mut [u8], at: usize, value: u128)
    requires { at + 16 ≤ length bytes.old }
    ensures { bytes.new ≡ put_at 16 at value bytes.old }
{
    let mut field = [0u8; 16];
    LittleEndian::write_u128(&mut field, value);
    bytes[at..at + 16].copy_from_slice(&field);
}

/// The first 16 bytes of the SHA-256 of the bytes.
#[tactic(auto, unfolding(crate::specs::Fields::check_of))]
pub fn check(bytes: &[u8]) -> Check
    ensures { result ≡ check_of bytes.now }
{
    let digest = Sha256::digest(bytes);
    let mut first = [0u8; 16];
    first.copy_from_slice(&digest[..16]);
    first
}

/// A law for every width, offset and list of bytes: the bytes of the number that a field reads as
/// are the field's bytes. It does nothing when it is called.
pub fn fields_are_spelled()
    ensures { FieldsAreSpelled }
{}
