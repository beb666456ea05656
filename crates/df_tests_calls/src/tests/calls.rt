// Calls of a replica as data, and a replica that serves them one after the other.
use crate::tests::files::{open, small_file};
use df_layout::Layout;
use df_memdisk::MemoryDisk;
use df_replica::{AppendError, Replica, ReplyError};
use std::alloc::Global;
use std::test::Fail;

/// A call with a body of this many bytes, each of them the request's or the op's number.
#[derive(Clone, Copy, Debug, PartialEq, Eq)]
pub(crate) enum Call {
    /// By its client, its request, and the bytes of its body.
    Append(u8, u8, u16),
    /// By its op, and the bytes of its body.
    Reply(u8, u16),
}

/// What a call answered: the op of an append, and that a reply is stored; or the refusal.
#[derive(Clone, Copy, Debug, PartialEq, Eq)]
pub(crate) enum Answer {
    Appended(Result<u64, AppendError>),
    Replied(Result<(), ReplyError>),
}

impl Answer {
    /// Whether the call was done.
    pub(crate) fn is_done(&self) -> bool {
        matches!(self, Answer::Appended(Ok(_)) | Answer::Replied(Ok(())))
    }
}

// An append, of which a caller's proof is told nothing.
fn append(
    disk: &mut MemoryDisk,
    replica: &mut Replica,
    client: u8,
    request: u8,
    body: &[u8],
) -> Result<Answer, Fail> {
    if !replica.live() {
        return Err("the replica isn't live".into());
    }
    match replica.append(disk, u128::from(client), u64::from(request), body) {
        Ok(receipt) => Ok(Answer::Appended(Ok(receipt.op))),
        Err(refusal) => Ok(Answer::Appended(Err(refusal))),
    }
}

// A reply, of which a caller's proof is told nothing.
fn reply(
    disk: &mut MemoryDisk,
    replica: &mut Replica,
    op: u8,
    body: &[u8],
) -> Result<Answer, Fail> {
    if !replica.live() {
        return Err("the replica isn't live".into());
    }
    match replica.reply(disk, u64::from(op), body) {
        Ok(_) => Ok(Answer::Replied(Ok(()))),
        Err(refusal) => Ok(Answer::Replied(Err(refusal))),
    }
}

/// Makes a call; none is made after a fault.
pub(crate) fn make_call(
    alloc: Global,
    disk: &mut MemoryDisk,
    replica: &mut Replica,
    call: &Call,
) -> Result<Answer, Fail> {
    match *call {
        Call::Append(client, request, size) => {
            let body = vec![in alloc; request; usize::from(size)]?;
            append(disk, replica, client, request, &body)
        }
        Call::Reply(op, size) => {
            let body = vec![in alloc; op; usize::from(size)]?;
            reply(disk, replica, op, &body)
        }
    }
}

// Opens a small file and makes these calls up to the first that isn't done; how many are.
fn serve(alloc: Global, disk: &mut MemoryDisk, calls: &[Call]) -> Result<usize, Fail> {
    let Ok(mut replica) = open(alloc, disk, &Layout::small())? else {
        return Err("the file is refused".into());
    };
    for (index, call) in calls.iter().enumerate() {
        if !make_call(alloc, disk, &mut replica, call)?.is_done() {
            return Ok(index);
        }
    }
    Ok(calls.len())
}

/// A small file after these calls, all of which are done.
pub(crate) fn served_file(alloc: Global, calls: &[Call]) -> Result<MemoryDisk, Fail> {
    let mut disk = small_file(alloc, 0)?;
    if serve(alloc, &mut disk, calls)? == calls.len() {
        Ok(disk)
    } else {
        Err("a call is refused".into())
    }
}
