// The tests of a header that need no layout: the rules of its kind and of its version. A field that these have no use for is
// zero.
ghost use Rattle.std.specs.Prelude.{◌≡◌};
ghost use Rattle.df_format.specs.Reading.{is_counter, is_prepare, is_reply, is_bare, is_reserved, is_block, is_linked, is_trailer, is_ungrouped, is_grouped, is_first, is_second, has_numbers};

use crate::{Header, Kind, NO_CHECKSUM};
use df_base::{FIRST_VERSION, GREATEST, HEADER, VERSION, check};

// The greatest distance from the first op of a group to its last.
const GROUP: u64 = 7;

fn is_counter(n: u64) -> bool
    ensures { result ≡ is_counter n }
{
    0 < n && n <= GREATEST
}

#[tactic(auto, unfolding(crate::specs::Reading::is_prepare, crate::specs::Spelling::no_checksum))]
fn is_prepare(header: &Header) -> bool
    ensures { result ≡ is_prepare header.now }
{
    (header.op != 1 || header.parent == NO_CHECKSUM)
        && 0 < header.client
        && is_counter(header.op)
        && is_counter(header.request)
        && header.mark < header.op
        && is_counter(header.checkpoint)
        && header.block_kind == 0
}

#[tactic(auto, unfolding(crate::specs::Reading::is_reply))]
fn is_reply(header: &Header) -> bool
    ensures { result ≡ is_reply header.now }
{
    0 < header.client
        && is_counter(header.op)
        && is_counter(header.request)
        && header.op <= header.mark
        && header.mark <= GREATEST
        && is_counter(header.checkpoint)
        && header.block_kind == 0
}

// Whether a header names neither a parent nor a client, and no request, mark or sequence.
#[tactic(auto, unfolding(crate::specs::Reading::is_bare, crate::specs::Spelling::no_checksum))]
fn is_bare(header: &Header) -> bool
    ensures { result ≡ is_bare header.now }
{
    header.parent == NO_CHECKSUM
        && header.client == 0
        && header.request == 0
        && header.mark == 0
        && header.checkpoint == 0
}

#[tactic(auto, unfolding(crate::specs::Reading::is_reserved))]
fn is_reserved(header: &Header) -> bool
    ensures { result ≡ is_reserved header.now }
{
    is_bare(header)
        && header.checksum_body == check(&[])
        && header.op == 0
        && header.size == HEADER as u32
        && header.block_kind == 0
}

#[tactic(auto, unfolding(crate::specs::Reading::is_block))]
fn is_block(header: &Header) -> bool
    ensures { result ≡ is_block header.now }
{
    is_bare(header) && 0 < header.op && header.slot == 0 && 0 < header.block_kind
}

// Whether a trailer block refers to the one before it, and to none where its index is 0.
#[tactic(auto, unfolding(crate::specs::Spelling::no_checksum))]
fn is_linked(header: &Header) -> bool
    ensures { result ≡ is_linked header.now }
{
    if header.mark == 0 {
        header.request == 0 && header.parent == NO_CHECKSUM
    } else {
        0 < header.request
    }
}

#[tactic(auto, unfolding(crate::specs::Reading::is_trailer))]
fn is_trailer(header: &Header) -> bool
    ensures { result ≡ is_trailer header.now }
{
    is_linked(header)
        && header.client == 0
        && 0 < header.op
        && 2 <= header.checkpoint
        && header.checkpoint <= GREATEST
        && header.slot == 0
        && header.block_kind == 0
}

#[tactic(auto, unfolding(crate::specs::Reading::is_ungrouped))]
fn is_ungrouped(header: &Header) -> bool
    ensures { result ≡ is_ungrouped header.now }
{
    header.group == 0 && header.group_last == 0
}

// Whether a prepare's group has its op, and at most eight ops; no sum is taken, since its numbers may be any.
#[tactic(auto, unfolding(crate::specs::Reading::is_grouped))]
fn is_grouped(header: &Header) -> bool
    ensures { result ≡ is_grouped header.now }
{
    0 < header.group
        && header.group <= header.op
        && header.op <= header.group_last
        && header.group_last - header.group <= GROUP
}

#[tactic(auto, unfolding(crate::specs::Reading::is_first))]
fn is_first(header: &Header) -> bool
    ensures { result ≡ is_first header.now }
{
    u32::from(header.version) == FIRST_VERSION && header.boot == 0 && is_ungrouped(header)
}

// Whether the header is of version 2, with the boot and the group that a header of its kind has.
#[tactic(auto, unfolding(crate::specs::Reading::is_second))]
fn is_second(header: &Header) -> bool
    ensures { result ≡ is_second header.now.kind header.now }
{
    if u32::from(header.version) != VERSION {
        return false;
    }
    match header.kind {
        Kind::Reserved => header.boot == 0 && is_ungrouped(header),
        Kind::Prepare => is_counter(header.boot) && is_grouped(header),
        Kind::Reply | Kind::Block | Kind::Trailer => {
            is_counter(header.boot) && is_ungrouped(header)
        }
    }
}

// Whether the numbers of a header are in the ranges of its kind and of its version, which is 1 or 2.
pub(crate) fn has_numbers(header: &Header) -> bool
    ensures { result ≡ has_numbers header.now }
{
    let is_of_kind = match header.kind {
        Kind::Reserved => is_reserved(header),
        Kind::Prepare => is_prepare(header),
        Kind::Reply => is_reply(header),
        Kind::Block => is_block(header),
        Kind::Trailer => is_trailer(header),
    };
    0 < header.cluster
        && HEADER as u32 <= header.size
        && is_of_kind
        && (is_first(header) || is_second(header))
}
