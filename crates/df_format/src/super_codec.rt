// The sector of a copy of the superblock: how it is written, and how it is tested and read.
ghost use Rattle.std.specs.Prelude.{◌≡◌, ℕ, ◌<◌, ◌≤◌, ◌+◌, ◌++◌, ◌==◌, not, length, take, drop, replicate, position, IfSome, IsTrue, ◌↔◌};
ghost use Rattle.df_base.specs.{declared.TheConstants.{SECTOR}, Fields.{field_at, spelled}};
ghost use Rattle.df_format.specs.{declared.superblock.SuperFields.{SuperFields as AnyFields}, Super.{checks_bytes, fields_bytes, named_bytes, copy_bytes}, SuperRules.{IsUsable}, Own.{place_in}};
ghost use Rattle.df_format.specs.Copies.{nonzero_between, first_nonzero_of, checks_at, super_fields_of, has_checksum, has_zeros, is_copy, copy_in, is_blank_copy, class_of_no_copy, own_copy};

use crate::codec::{check_at, put_check, put_zeros};
use crate::{NO_CHECKSUMS, Super, SuperCopy, SuperFields};
use df_base::{Check, SECTOR, VERSION, check, put_u32, put_u64, put_u128, u32_at, u64_at, u128_at};
use df_layout::{Class, Place, Zone};

// Copies of the superblock.
const COPIES: u32 = 4;

// Where the number of the copy stands, after the checksum, and where zeros follow it.
const NUMBER: usize = 16;

const ZEROS: usize = 20;

// Where the part begins that the checksum covers.
const COVERED: usize = 32;

// The end of the fields that both versions have.
const NAMED: usize = 160;

// Where version 2 has the checksums of the replies, after that of the head's prepare and zeros, and where they end.
const REPLIES: usize = 192;

const END: usize = 1216;

// Bytes of a checksum, and how many there are of replies.
const SUM: usize = 16;

const PLACES: usize = 64;

// Writes the fields of both versions, each at its offset.
fn put_fields(into: &mut [u8], fields: &SuperFields)
    requires { length into.old ≡ SECTOR }
    ensures { take 160 into.new ≡ take 32 into.old ++ fields_bytes fields.now }
{
    put_u32(into, 32, fields.version);
    put_u32(into, 36, fields.slots);
    put_u32(into, 40, fields.message_size);
    put_u32(into, 44, fields.clients);
    put_u128(into, 48, fields.cluster);
    put_u32(into, 64, fields.block_size);
    put_u32(into, 68, fields.blocks);
    put_u64(into, 72, fields.sequence);
    put_u64(into, 80, fields.op);
    put_u64(into, 88, fields.head);
    put_u64(into, 96, fields.replies);
    put_u64(into, 104, fields.trailer_address);
    put_check(into, 112, &fields.op_checksum);
    put_check(into, 128, &fields.trailer_checksum);
    put_u64(into, 144, fields.trailer_size);
    put_u64(into, 152, fields.boot);
}

// Writes the checksums of the replies, one after the other.
fn put_checks(into: &mut [u8], checks: &[Check; 64])
    requires { length into.old ≡ SECTOR }
    ensures { take 1216 into.new ≡ take 192 into.old ++ checks_bytes checks.now }
{
    let mut place = 0;
    while place < PLACES {
        put_check(into, REPLIES + SUM * place, &checks[place]);
        place += 1;
    }
}

// Writes what version 2 names after the fields of both versions, and the zeros between and after it.
fn put_named(into: &mut [u8], fields: &SuperFields)
    requires { length into.old ≡ SECTOR }
    ensures { into.new ≡ take 160 into.old ++ named_bytes fields.now }
{
    put_check(into, NAMED, &fields.head_checksum);
    put_zeros(into, NAMED + SUM, REPLIES);
    put_checks(into, &fields.reply_checksums);
    put_zeros(into, END, SECTOR);
}

// Writes what the checksum doesn't cover: itself, the number and the zeros after it.
fn put_front(into: &mut [u8], sum: &Check, number: u8)
    requires { length into.old ≡ SECTOR }
    ensures front { take 32 into.new ≡ sum.now ++ (spelled 4 number ++ replicate 12 0) }
    ensures rest { drop 32 into.new ≡ drop 32 into.old }
{
    put_check(into, 0, sum);
    put_u32(into, NUMBER, u32::from(number));
    put_zeros(into, ZEROS, COVERED);
}

/// Writes the sector of the copy with this number, 0 to 3, over `into`.
pub fn encode_copy(content: &Super, number: u8, into: &mut [u8])
    requires number { number < 4 }
    requires room { length into.old ≡ SECTOR }
    ensures bytes { into.new ≡ copy_bytes number content.now }
    ensures usable { IsUsable content.now }
{
    let fields = content.fields();
    put_fields(into, fields);
    put_named(into, fields);
    let sum = check(&into[COVERED..]);
    put_front(into, &sum, number);
}

/// Makes of the sector of a copy, whatever its number, that of the copy with this number and the same content. Their checksum is
/// the same, since it doesn't cover the number.
pub fn renumber_copy(number: u8, into: &mut [u8])
    requires { length into.old ≡ SECTOR }
    ensures { (f : AnyFields) (before : ℕ) → into.old ≡ copy_bytes before f → into.new ≡ copy_bytes number f }
{
    put_u32(into, NUMBER, u32::from(number));
}

fn first_other(bytes: &[u8]) -> Option<usize>
    ensures value { result ≡ position (λ b. not (b == 0)) bytes.now }
    ensures bound { IfSome result (λ i. i < length bytes.now) }
{
    bytes.iter().position(|b| *b != 0)
}

// The offset of the first byte from one offset up to another that isn't zero.
fn nonzero_between(bytes: &[u8], at: usize, end: usize) -> Option<u64>
    requires order { at ≤ end }
    requires room { end ≤ length bytes.now }
    ensures { result ≡ nonzero_between at end bytes.now }
{
    let behind = first_other(&bytes[at..end])?;
    Some((at + behind) as u64)
}

// The offset of the first byte that isn't zero where the version has no fields.
fn first_nonzero(version: u32, bytes: &[u8]) -> Option<u64>
    requires { length bytes.now ≡ SECTOR }
    ensures { result ≡ first_nonzero_of version bytes.now }
{
    if version == VERSION {
        let between = nonzero_between(bytes, NAMED + SUM, REPLIES);
        between.or(nonzero_between(bytes, END, SECTOR))
    } else {
        nonzero_between(bytes, NAMED, SECTOR)
    }
}

// The checksums that stand where version 2 has those of the replies.
fn checks_of(bytes: &[u8]) -> [Check; 64]
    requires { length bytes.now ≡ SECTOR }
    ensures { result ≡ checks_at 64 192 bytes.now }
{
    let mut checks = NO_CHECKSUMS;
    for place in 0..PLACES {
        checks[place] = check_at(bytes, REPLIES + SUM * place);
    }
    checks
}

#[tactic(auto, unfolding(crate::specs::Copies::super_fields_of))]
fn fields_of(bytes: &[u8]) -> SuperFields
    requires { length bytes.now ≡ SECTOR }
    ensures { result ≡ super_fields_of bytes.now }
{
    SuperFields {
        version: u32_at(bytes, 32),
        slots: u32_at(bytes, 36),
        message_size: u32_at(bytes, 40),
        clients: u32_at(bytes, 44),
        block_size: u32_at(bytes, 64),
        blocks: u32_at(bytes, 68),
        cluster: u128_at(bytes, 48),
        sequence: u64_at(bytes, 72),
        op: u64_at(bytes, 80),
        op_checksum: check_at(bytes, 112),
        head: u64_at(bytes, 88),
        replies: u64_at(bytes, 96),
        trailer_address: u64_at(bytes, 104),
        trailer_checksum: check_at(bytes, 128),
        trailer_size: u64_at(bytes, 144),
        boot: u64_at(bytes, 152),
        head_checksum: check_at(bytes, NAMED),
        reply_checksums: checks_of(bytes),
        first_nonzero: first_nonzero(u32_at(bytes, 32), bytes),
    }
}

fn has_checksum(bytes: &[u8]) -> bool
    requires { length bytes.now ≡ SECTOR }
    ensures { result ≡ has_checksum bytes.now }
{
    &bytes[..NUMBER] == check(&bytes[COVERED..]).as_slice()
}

fn has_zeros(bytes: &[u8]) -> bool
    requires { length bytes.now ≡ SECTOR }
    ensures { result ≡ has_zeros bytes.now }
{
    bytes[ZEROS..COVERED] == [0; 12]
}

// Whether two sectors agree on the checksum and on all that it covers: only what stands between may differ, the number and its zeros.
fn agree(bytes: &[u8], other: &[u8]) -> bool
    requires size { length bytes.now ≡ SECTOR }
    requires other { length other.now ≡ SECTOR }
    ensures { IsTrue result ↔ (take 16 bytes.now ≡ take 16 other.now) × (drop 32 bytes.now ≡ drop 32 other.now) }
{
    bytes[..NUMBER] == other[..NUMBER] && bytes[COVERED..] == other[COVERED..]
}

// Whether the checksum is right, beside a sector whose own one is: that of a sector which agrees with it needs no hash.
fn has_checksum_beside(bytes: &[u8], sound: &[u8]) -> bool
    requires size { length bytes.now ≡ SECTOR }
    requires other { length sound.now ≡ SECTOR }
    requires sound { IsTrue (has_checksum sound.now) }
    ensures { result ≡ has_checksum bytes.now }
{
    agree(bytes, sound) || has_checksum(bytes)
}

// Whether the bytes are a copy's, with the number that stands in them, where it is known whether their checksum is right.
#[tactic(auto, unfolding(crate::specs::Copies::is_copy))]
fn is_copy(has_sum: bool, number: u32, bytes: &[u8]) -> bool
    requires size { length bytes.now ≡ SECTOR }
    requires sum { has_sum ≡ has_checksum bytes.now }
    requires number { number ≡ field_at 4 16 bytes.now }
    ensures copy { result ≡ is_copy bytes.now }
    ensures number { IsTrue result → number < 4 }
{
    has_sum && number < COPIES && has_zeros(bytes)
}

// The copy that the bytes are, where it is known whether their checksum is right.
#[tactic(auto, unfolding(crate::specs::Copies::copy_in))]
fn copy_in(has_sum: bool, bytes: &[u8]) -> Option<SuperCopy>
    requires size { length bytes.now ≡ SECTOR }
    requires sum { has_sum ≡ has_checksum bytes.now }
    ensures { result ≡ copy_in bytes.now }
{
    let number = u32_at(bytes, NUMBER);
    if is_copy(has_sum, number, bytes) {
        Some(SuperCopy {
            number: number as u8,
            checksum: check_at(bytes, 0),
            fields: fields_of(bytes),
        })
    } else {
        None
    }
}

/// The copy of the superblock that the 4,096 bytes of a sector are, wherever it belongs; None where the checksum is
/// wrong, the number isn't that of a copy, or a byte after the number isn't zero. What the fields say isn't tested.
pub fn decode_copy(bytes: &[u8]) -> Option<SuperCopy>
    requires { length bytes.now ≡ SECTOR }
    ensures { result ≡ copy_in bytes.now }
{
    copy_in(has_checksum(bytes), bytes)
}

#[tactic(auto, unfolding(crate::specs::Copies::is_blank_copy))]
fn is_blank(bytes: &[u8]) -> bool
    requires { length bytes.now ≡ SECTOR }
    ensures { result ≡ is_blank_copy bytes.now }
{
    bytes.iter().all(|b| *b == 0)
}

// The class of a sector that is no copy.
fn class_of_none(bytes: &[u8]) -> Class
    requires { length bytes.now ≡ SECTOR }
    ensures { result ≡ class_of_no_copy bytes.now }
{
    if is_blank(bytes) {
        Class::Blank
    } else {
        Class::Garbled
    }
}

fn elsewhere(copy: &SuperCopy) -> Class
    ensures { result ≡ Class.Elsewhere (place_in Zone.Superblock copy.now.number) }
{
    Class::Elsewhere(Place {
        zone: Zone::Superblock,
        index: u64::from(copy.number),
    })
}

// The copy that the bytes are, where it has this number; else their class.
#[tactic(auto, unfolding(crate::specs::Copies::class_of_copy))]
fn own_copy(number: u8, bytes: &[u8], copy: Option<SuperCopy>) -> Result<SuperCopy, Class>
    requires size { length bytes.now ≡ SECTOR }
    requires copy { copy ≡ copy_in bytes.now }
    ensures { result ≡ own_copy number bytes.now }
{
    match copy {
        Some(copy) if copy.number == number => Ok(copy),
        Some(copy) => Err(elsewhere(&copy)),
        None => Err(class_of_none(bytes)),
    }
}

/// The copy with this number, 0 to 3, where the 4,096 bytes of its sector are that copy; else the class of what they are.
pub fn decode_own_copy(number: u8, bytes: &[u8]) -> Result<SuperCopy, Class>
    requires { length bytes.now ≡ SECTOR }
    ensures { result ≡ own_copy number bytes.now }
{
    own_copy(number, bytes, decode_copy(bytes))
}

/// The same beside a sector whose checksum is right, as that of a sound copy. The checksum doesn't cover the number, and copies of
/// one content have the same, so these bytes are hashed only where their checksum or what it covers isn't that sector's.
pub fn decode_own_copy_beside(number: u8, bytes: &[u8], sound: &[u8]) -> Result<SuperCopy, Class>
    requires size { length bytes.now ≡ SECTOR }
    requires other { length sound.now ≡ SECTOR }
    requires sound { IsTrue (has_checksum sound.now) }
    ensures { result ≡ own_copy number bytes.now }
{
    let has_sum = has_checksum_beside(bytes, sound);
    own_copy(number, bytes, copy_in(has_sum, bytes))
}
