// The rules of a superblock's fields: whether it can be used, or which field is the first that breaks its rule.
ghost use Rattle.std.specs.{Prelude.{◌≡◌, ◌==◌, ◌<◌, [], ◌∷◌, length, if◌then◌else◌, IfOk, IfErr, IfSome, None, Some}, Result.{result_err}};
ghost use Rattle.df_format.specs.{Spelling.{IsCheck}, Super.{AreChecks}};
ghost use Rattle.df_format.specs.SuperRules.{IsSuper, IsUsable, FaultsAreBrokenRules, is_whole_between, is_zero_check, greatest_trailer, has_trailer_size, test, size_tests, checkpoint_tests, progress_tests, trailer_tests, first_named, first_spare, first_tests, second_tests, field_tests, first_failing, is_known_version, fault_of};

use crate::{NO_CHECKSUM, SuperFault, SuperFields};
use df_base::{Check, FIRST_VERSION, GREATEST, VERSION, u128_at};
use df_layout::{Field, Layout};
use std::marker::Model;

// The places of the checksums of replies.
const PLACES: usize = 64;

// How many more ops than replies there may be.
const PIPELINE: u64 = 8;

/// A superblock that can be used: of version 1 or 2, and every field within the range that it has there. `test_fields` alone
/// makes one. Contracts see its fields.
#[derive(Clone, Copy, Debug, PartialEq, Eq)]
pub struct Super {
    fields: SuperFields,
}

impl Model for Super {
    ghost use Rattle.df_format.specs.{declared.superblock.SuperFields.{SuperFields}, SuperRules.{IsUsable}};

    ghost Value = { SuperFields };

    ghost view = { λ s. s.fields };

    ghost invariant = { λ s. IsUsable s.fields };

    ghost inverse = { λ f. record { fields = f } };
}

impl Super {
    /// What its copies say.
    pub fn fields(&self) -> &SuperFields
        ensures value { result.now ≡ self.now }
        ensures usable { IsUsable self.now }
    {
        &self.fields
    }

    /// The layout of its file.
    pub fn layout(&self) -> Layout
        ensures slots { result.slots ≡ self.now.slots }
        ensures message_size { result.message_size ≡ self.now.message_size }
        ensures clients { result.clients ≡ self.now.clients }
        ensures block_size { result.block_size ≡ self.now.block_size }
        ensures blocks { result.blocks ≡ self.now.blocks }
    {
        let fields = &self.fields;
        Layout {
            slots: fields.slots,
            message_size: fields.message_size,
            clients: fields.clients,
            block_size: fields.block_size,
            blocks: fields.blocks,
        }
    }
}

// The answer of one test: the field and its value where it failed.
fn test(passes: bool, field: Field, value: u128) -> Result<(), SuperFault>
    ensures { result_err result ≡ first_failing (test passes field value ∷ []) }
{
    if passes {
        Ok(())
    } else {
        Err(SuperFault::BadField { field, value })
    }
}

fn is_whole_between(step: u32, low: u32, high: u32, n: u32) -> bool
    requires { 0 < step }
    ensures { result ≡ is_whole_between step low high n }
{
    low <= n && n <= high && n % step == 0
}

#[tactic(auto, unfolding(crate::specs::Spelling::no_checksum))]
fn is_zero_check(checksum: &Check) -> bool
    ensures { result ≡ is_zero_check checksum.now }
{
    *checksum == NO_CHECKSUM
}

// The five numbers of the layout.
fn test_sizes(fields: &SuperFields) -> Result<(), SuperFault>
    ensures { result_err result ≡ first_failing (size_tests fields.now) }
{
    test(
        is_whole_between(16, 16, 1024, fields.slots),
        Field::Slots,
        u128::from(fields.slots),
    )?;
    test(
        is_whole_between(4096, 4096, 1_048_576, fields.message_size),
        Field::MessageSize,
        u128::from(fields.message_size),
    )?;
    test(
        1 <= fields.clients && fields.clients <= 64,
        Field::Clients,
        u128::from(fields.clients),
    )?;
    test(
        is_whole_between(4096, 4096, 524_288, fields.block_size),
        Field::BlockSize,
        u128::from(fields.block_size),
    )?;
    test(
        8 <= fields.blocks && fields.blocks <= 16_384,
        Field::Blocks,
        u128::from(fields.blocks),
    )
}

// Whose file it is, which update, and its checkpoint.
fn test_checkpoint(fields: &SuperFields) -> Result<(), SuperFault>
    ensures { result_err result ≡ first_failing (checkpoint_tests fields.now) }
{
    test(0 < fields.cluster, Field::Cluster, fields.cluster)?;
    test(
        1 <= fields.sequence && fields.sequence <= GREATEST,
        Field::Sequence,
        u128::from(fields.sequence),
    )?;
    test(fields.op <= GREATEST, Field::Op, u128::from(fields.op))?;
    test(
        fields.op != 0 || is_zero_check(&fields.op_checksum),
        Field::OpChecksum,
        u128_at(&fields.op_checksum, 0),
    )
}

// How far the file had come; no sum is taken, since its numbers may be any.
fn test_progress(fields: &SuperFields) -> Result<(), SuperFault>
    ensures { result_err result ≡ first_failing (progress_tests fields.now) }
{
    test(
        fields.op <= fields.head
            && fields.head - fields.op <= u64::from(fields.slots)
            && fields.head <= GREATEST,
        Field::Head,
        u128::from(fields.head),
    )?;
    test(
        fields.replies <= fields.head && fields.head - fields.replies <= PIPELINE,
        Field::Replies,
        u128::from(fields.replies),
    )
}

// Bytes of the longest text that a trailer can have: the root with its length, the sessions with their number, a bit for
// each block, and a checksum for each.
fn greatest_trailer(fields: &SuperFields) -> u64
    ensures { result ≡ greatest_trailer fields.now }
{
    let blocks = u64::from(fields.blocks);
    4 + 1024 + 4 + 32 * u64::from(fields.clients) + (blocks + 7) / 8 + 16 * blocks
}

fn has_trailer_size(fields: &SuperFields) -> bool
    ensures { result ≡ has_trailer_size fields.now }
{
    if fields.trailer_address == 0 {
        fields.trailer_size == 0
    } else {
        1 <= fields.trailer_size && fields.trailer_size <= greatest_trailer(fields)
    }
}

// The checkpoint's trailer.
fn test_trailer(fields: &SuperFields) -> Result<(), SuperFault>
    ensures { result_err result ≡ first_failing (trailer_tests fields.now) }
{
    test(
        fields.trailer_address <= u64::from(fields.blocks)
            && (fields.op == 0 || fields.trailer_address != 0),
        Field::TrailerAddress,
        u128::from(fields.trailer_address),
    )?;
    test(
        fields.trailer_address != 0 || is_zero_check(&fields.trailer_checksum),
        Field::TrailerChecksum,
        u128_at(&fields.trailer_checksum, 0),
    )?;
    test(
        has_trailer_size(fields),
        Field::TrailerSize,
        u128::from(fields.trailer_size),
    )
}

// The first of some checksums that isn't zeros.
fn first_named(checks: &[Check]) -> Option<usize>
    ensures value { result ≡ first_named checks.now }
    ensures bound { IfSome result (λ i. i < length checks.now) }
{
    checks.iter().position(|check| !is_zero_check(check))
}

// The first place without a session that has a checksum.
fn first_spare(fields: &SuperFields) -> Option<u64>
    ensures { result ≡ first_spare fields.now }
{
    let spare = fields.reply_checksums.get(fields.clients as usize..)?;
    let place = first_named(spare)?;
    Some(u64::from(fields.clients) + place as u64)
}

// What version 1 leaves empty.
fn test_first(fields: &SuperFields) -> Result<(), SuperFault>
    ensures { result_err result ≡ first_failing (first_tests fields.now) }
{
    test(fields.boot == 0, Field::Boot, u128::from(fields.boot))?;
    test(
        fields.first_nonzero.is_none()
            && (is_zero_check(&fields.head_checksum)
                && first_named(&fields.reply_checksums).is_none()),
        Field::Zero,
        u128::from(fields.first_nonzero.unwrap_or(0)),
    )
}

// The boot of version 2, what it names, and what it leaves empty.
fn test_second(fields: &SuperFields) -> Result<(), SuperFault>
    ensures { result_err result ≡ first_failing (second_tests fields.now) }
{
    let spare = first_spare(fields);
    test(
        fields.boot <= GREATEST,
        Field::Boot,
        u128::from(fields.boot),
    )?;
    test(
        (fields.head != 0 || is_zero_check(&fields.head_checksum))
            && (fields.head != fields.op || fields.head_checksum == fields.op_checksum),
        Field::Head,
        u128_at(&fields.head_checksum, 0),
    )?;
    test(
        spare.is_none(),
        Field::Replies,
        u128::from(spare.unwrap_or(0)),
    )?;
    test(
        fields.first_nonzero.is_none(),
        Field::Zero,
        u128::from(fields.first_nonzero.unwrap_or(0)),
    )
}

// All fields, in the order of their tests; those of its version last.
fn test_each(fields: &SuperFields) -> Result<(), SuperFault>
    ensures { result_err result ≡ first_failing (field_tests fields.now) }
{
    test_sizes(fields)?;
    test_checkpoint(fields)?;
    test_progress(fields)?;
    test_trailer(fields)?;
    if fields.version == FIRST_VERSION {
        test_first(fields)
    } else {
        test_second(fields)
    }
}

fn test_version(version: u32) -> Result<(), SuperFault>
    ensures { result_err result ≡ (if is_known_version version then None else Some (SuperFault.Version version)) }
{
    if version == FIRST_VERSION || version == VERSION {
        Ok(())
    } else {
        Err(SuperFault::Version { found: version })
    }
}

// A checksum has sixteen bytes, as its type says.
fn as_check(check: Check) -> Check
    ensures value { result ≡ check }
    ensures check { IsCheck check }
{
    check
}

// And so has each of these.
fn are_checks(checks: &[Check; 64])
    ensures { AreChecks checks.now }
{
    let mut place = 0;
    while place < PLACES {
        as_check(checks[place]);
        place += 1;
    }
}

// The superblock of fields that have passed their tests.
fn usable(fields: SuperFields) -> Super
    requires { IsSuper fields }
    ensures { result ≡ fields }
{
    let op_checksum = as_check(fields.op_checksum);
    let trailer_checksum = as_check(fields.trailer_checksum);
    let head_checksum = as_check(fields.head_checksum);
    are_checks(&fields.reply_checksums);
    Super {
        fields: SuperFields {
            op_checksum,
            trailer_checksum,
            head_checksum,
            ..fields
        },
    }
}

/// The superblock of these fields, if it can be used. Else why not: the version, which is tested first and is neither 1 nor 2, or
/// the first field that is out of the range that it has in its version.
pub fn test_fields(fields: &SuperFields) -> Result<Super, SuperFault>
    ensures fields { IfOk result (λ content. content ≡ fields.now) }
    ensures usable { IfOk result (λ _. fault_of fields.now ≡ None) }
    ensures fault { IfErr result (λ fault. fault_of fields.now ≡ Some fault) }
{
    test_version(fields.version)?;
    test_each(fields)?;
    Ok(usable(*fields))
}

/// Fields have no fault exactly where they obey the rules of a superblock.
pub fn faults_are_broken_rules()
    ensures { FaultsAreBrokenRules }
{}
