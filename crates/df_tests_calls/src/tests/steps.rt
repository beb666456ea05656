// Calls of a replica, each with the answer that is wanted, and how many device calls and events it makes. A caller's proof is told
// nothing of the calls.
ghost use Rattle.std.specs.Prelude.{◌≡◌, true};

use crate::tests::opened::opened;
use df_format::Header;
use df_layout::Layout;
use df_memdisk::MemoryDisk;
use df_replica::{
    AppendError, BeginError, BlockError, LookupError, NotLive, PrepareError, Progress, ReadError,
    Replica, ReplyError, StepError,
};
use std::alloc::Global;
use std::test::Fail;

// A unit of the first checkpoint's file, as a read lends it.
#[derive(Clone, Copy)]
pub(crate) struct Unit<'a> {
    pub(crate) client: u128,
    pub(crate) request: u64,
    pub(crate) op: u64,
    pub(crate) mark: u64,
    pub(crate) body: &'a [u8],
}

impl<'a> Unit<'a> {
    // Whether these are its header's fields and its body.
    fn is(&self, header: &Header, body: &[u8]) -> bool {
        header.client == self.client
            && header.request == self.request
            && header.op == self.op
            && header.mark == self.mark
            && header.checkpoint == 1
            && body == self.body
    }
}

// A call with the answer that is wanted: an op, a unit, or a block's address, or its kind and its body.
#[derive(Clone, Copy)]
pub(crate) enum Step<'a> {
    Append(u128, u64, &'a [u8], Result<u64, AppendError>),
    Reply(u64, &'a [u8], Result<(), ReplyError>),
    ReadPrepare(u64, Result<Unit<'a>, PrepareError>),
    ReadReply(u128, Result<Unit<'a>, LookupError>),
    Write(u8, &'a [u8], Result<u64, BlockError>),
    Release(u64, Result<(), NotLive>),
    Read(u64, Result<(u8, &'a [u8]), ReadError>),
    Begin(&'a [u8], Result<u64, BeginError>),
    Advance(Result<Progress, StepError>),
}

// Whether the read of a prepare, or of a client's reply, is answered so.
fn is_lent(disk: &mut MemoryDisk, replica: &mut Replica, read: &Step<'_>) -> bool
    requires live { replica.old.live ≡ true }
{
    match *read {
        Step::ReadPrepare(op, wanted) => match (replica.read_prepare(disk, op), wanted) {
            (Ok(lent), Ok(unit)) => unit.is(lent.header(), lent.body()),
            (Err(error), Err(wanted)) => error == wanted,
            _ => false,
        },
        Step::ReadReply(client, wanted) => match (replica.read_reply(disk, client), wanted) {
            (Ok(lent), Ok(unit)) => unit.is(lent.header(), lent.body()),
            (Err(error), Err(wanted)) => error == wanted,
            _ => false,
        },
        _ => false,
    }
}

fn is_appended(
    disk: &mut MemoryDisk,
    replica: &mut Replica,
    client: u128,
    request: u64,
    body: &[u8],
    wanted: Result<u64, AppendError>,
) -> bool
    requires live { replica.old.live ≡ true }
{
    match replica.append(disk, client, request, body) {
        Ok(receipt) => wanted == Ok(receipt.op),
        Err(error) => wanted == Err(error),
    }
}

fn is_replied(
    disk: &mut MemoryDisk,
    replica: &mut Replica,
    op: u64,
    body: &[u8],
    wanted: Result<(), ReplyError>,
) -> bool
    requires live { replica.old.live ≡ true }
{
    match replica.reply(disk, op, body) {
        Ok(_) => wanted == Ok(()),
        Err(error) => wanted == Err(error),
    }
}

// A written block is known by the checksum that it was answered with.
fn is_written(
    disk: &mut MemoryDisk,
    replica: &mut Replica,
    kind: u8,
    body: &[u8],
    wanted: Result<u64, BlockError>,
) -> bool
    requires live { replica.old.live ≡ true }
{
    match replica.write_block(disk, kind, body) {
        Ok(made) => {
            wanted == Ok(made.address) && replica.reference(made.address) == Some(made.checksum)
        }
        Err(error) => wanted == Err(error),
    }
}

// After a release nothing is known of the address.
fn is_released(replica: &mut Replica, address: u64, wanted: Result<(), NotLive>) -> bool
    requires live { replica.old.live ≡ true }
{
    let answer = replica.release(address);
    answer == wanted && replica.reference(address).is_none()
}

fn is_read(
    disk: &mut MemoryDisk,
    replica: &mut Replica,
    address: u64,
    wanted: Result<(u8, &[u8]), ReadError>,
) -> bool
    requires live { replica.old.live ≡ true }
{
    match (replica.read_block(disk, address), wanted) {
        (Ok(lent), Ok((kind, body))) => lent.header().block_kind == kind && lent.body() == body,
        (Err(error), Err(wanted)) => error == wanted,
        _ => false,
    }
}

fn is_begun(replica: &mut Replica, root: &[u8], wanted: Result<u64, BeginError>) -> bool
    requires live { replica.old.live ≡ true }
{
    replica.checkpoint_begin(root) == wanted
}

fn is_advanced(
    disk: &mut MemoryDisk,
    replica: &mut Replica,
    wanted: Result<Progress, StepError>,
) -> bool
    requires live { replica.old.live ≡ true }
{
    replica.checkpoint_step(disk) == wanted
}

// Whether a call of a live replica is answered so.
pub(crate) fn is_answered(disk: &mut MemoryDisk, replica: &mut Replica, step: &Step<'_>) -> bool {
    if !replica.live() {
        return false;
    }
    match *step {
        Step::Append(client, request, body, wanted) => {
            is_appended(disk, replica, client, request, body, wanted)
        }
        Step::Reply(op, body, wanted) => is_replied(disk, replica, op, body, wanted),
        Step::ReadPrepare(..) | Step::ReadReply(..) => is_lent(disk, replica, step),
        Step::Write(kind, body, wanted) => is_written(disk, replica, kind, body, wanted),
        Step::Release(address, wanted) => is_released(replica, address, wanted),
        Step::Read(address, wanted) => is_read(disk, replica, address, wanted),
        Step::Begin(root, wanted) => is_begun(replica, root, wanted),
        Step::Advance(wanted) => is_advanced(disk, replica, wanted),
    }
}

// The first row that isn't answered so by this many device calls and events.
pub(crate) fn first_other(
    disk: &mut MemoryDisk,
    replica: &mut Replica,
    rows: &[(Step<'_>, u64, u64)],
) -> Option<usize> {
    for (index, (step, calls, events)) in rows.iter().enumerate() {
        let before = (disk.calls(), disk.events());
        let answered = is_answered(disk, replica, step);
        let made = disk.calls().saturating_sub(before.0);
        let added = disk.events().saturating_sub(before.1);
        if !answered || made != *calls || added != *events {
            return Some(index);
        }
    }
    None
}

// The same of a replica of a small file.
pub(crate) fn first_other_of(
    alloc: Global,
    disk: &mut MemoryDisk,
    rows: &[(Step<'_>, u64, u64)],
) -> Result<Option<usize>, Fail> {
    let mut replica = opened(alloc, disk, &Layout::small())?;
    Ok(first_other(disk, &mut replica, rows))
}
