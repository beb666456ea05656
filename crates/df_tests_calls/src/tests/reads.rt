// Reads of a replica among its other calls: the units that are lent, byte by byte, what refuses a read, and its one device call,
// which may fail.
use crate::tests::calls::{Call, served_file};
use crate::tests::files::{found, small_file};
use crate::tests::opened::{do_all, opened};
use crate::tests::steps::{Step, Unit, first_other, first_other_of};
use df_layout::Layout;
use df_memdisk::MemoryDisk;
use df_replica::{AppendError, LookupError, PrepareError, Replica, ReplyError};
use std::alloc::Global;
use std::test::Fail;

// Units of client 5's first and second request, which got the ops of these numbers: each has the mark 1.
const FIRST_REPLY: Unit<'static> = Unit {
    client: 5,
    request: 1,
    op: 1,
    mark: 1,
    body: &[0xaa],
};

const SECOND: Unit<'static> = Unit {
    client: 5,
    request: 2,
    op: 2,
    mark: 1,
    body: &[1, 2],
};

const PENDING: AppendError = AppendError::ReplyPending { op: 2 };

const EARLY: AppendError = AppendError::RequestOrder { expected: 2 };

const EMPTY: PrepareError = PrepareError::NotKept { first: 1, last: 0 };

const NOT_KEPT: PrepareError = PrepareError::NotKept { first: 1, last: 2 };

// An append is four device calls and four events, a reply two of each, a read one call and no event, and a refusal none.
const ROWS: [(Step<'static>, u64, u64); 16] = [
    (Step::ReadPrepare(1, Err(EMPTY)), 0, 0),
    (Step::ReadReply(5, Err(LookupError::NoClient)), 0, 0),
    (Step::Append(5, 1, &[], Ok(1)), 4, 4),
    (Step::Reply(1, &[0xaa], Ok(())), 2, 2),
    (Step::ReadReply(5, Ok(FIRST_REPLY)), 1, 0),
    (
        Step::Append(5, 1, &[], Err(AppendError::Repeated { op: 1 })),
        0,
        0,
    ),
    (Step::Append(5, 3, &[0], Err(EARLY)), 0, 0),
    (Step::Append(5, 2, &[1, 2], Ok(2)), 4, 4),
    (Step::Append(5, 2, &[1, 2], Err(PENDING)), 0, 0),
    (
        Step::ReadReply(5, Err(LookupError::ReplyPending { op: 2 })),
        0,
        0,
    ),
    (Step::ReadReply(6, Err(LookupError::NoClient)), 0, 0),
    (Step::ReadPrepare(2, Ok(SECOND)), 1, 0),
    (Step::ReadPrepare(3, Err(NOT_KEPT)), 0, 0),
    (Step::ReadPrepare(0, Err(NOT_KEPT)), 0, 0),
    (
        Step::Reply(1, &[], Err(ReplyError::ReplyOrder { expected: 2 })),
        0,
        0,
    ),
    (Step::Append(0, 1, &[], Err(AppendError::ClientZero)), 0, 0),
];

#[test]
fn what_is_stored_is_lent_byte_by_byte(rt: HostRuntime) -> Result<(), Fail> {
    let mut disk = small_file(rt.alloc(), 0)?;
    assert_eq!(rt; first_other_of(rt.alloc(), &mut disk, &ROWS)?, None);
    Ok(())
}

const CALLS: [Call; 2] = [Call::Append(1, 1, 0), Call::Reply(1, 0)];

// Whether a read after the two calls is answered so, by one device call, and no call may follow.
fn is_last(
    alloc: Global,
    disk: &mut MemoryDisk,
    replica: &mut Replica,
    step: &Step<'_>,
) -> Result<bool, Fail> {
    do_all(alloc, disk, replica, &CALLS)?;
    Ok(first_other(disk, replica, &[(*step, 1, 0)]).is_none() && !replica.live())
}

// The same of a replica of the file.
fn ends(alloc: Global, disk: &mut MemoryDisk, step: &Step<'_>) -> Result<bool, Fail> {
    let mut replica = opened(alloc, disk, &Layout::small())?;
    is_last(alloc, disk, &mut replica, step)
}

// Whether the read whose device call fails ends so, and the head and the replies that an open then finds.
fn left(alloc: Global, disk: &mut MemoryDisk, step: &Step<'_>) -> Result<(bool, u64, u64), Fail> {
    let ended = ends(alloc, disk, step)?;
    match found(alloc, disk)? {
        Ok(summary) => Ok((ended, summary.head, summary.replies)),
        Err(_) => Err("the file is refused".into()),
    }
}

// How many device calls a file after the two calls has seen.
fn calls_before(alloc: Global) -> Result<u64, Fail> {
    let before = served_file(alloc, &CALLS)?;
    Ok(before.calls())
}

fn outcome(alloc: Global, step: &Step<'_>) -> Result<(bool, u64, u64), Fail> {
    let failing = calls_before(alloc)?.saturating_add(1);
    let mut disk = small_file(alloc, failing)?;
    left(alloc, &mut disk, step)
}

const STEPS: [Step<'static>; 2] = [
    Step::ReadPrepare(1, Err(PrepareError::DiskFault)),
    Step::ReadReply(1, Err(LookupError::DiskFault)),
];

// A read is one device call; an open after its fault finds the file as it was.
#[test]
fn a_read_ends_with_the_call_that_fails(rt: HostRuntime) -> Result<(), Fail> {
    for step in &STEPS {
        assert_eq!(rt; outcome(rt.alloc(), step)?, (true, 1, 1));
    }
    Ok(())
}
