// The calls of a replica that stage and flush: what each answers, and how many device calls and events it makes.
use crate::tests::files::{found, open, small_file};
use df_layout::Layout;
use df_memdisk::MemoryDisk;
use df_replica::{AppendError, FlushError, Replica};
use std::alloc::Global;
use std::test::Fail;

// What a session of the calls answered: the ops of the two that are staged, how many were staged then and after the flush, what an
// append was answered between, and the flush, and one more.
#[derive(Clone, Copy, Debug, PartialEq, Eq)]
struct Answers {
    staged: [Result<u64, AppendError>; 2],
    counts: [u64; 2],
    between: Option<AppendError>,
    flushed: [Result<u64, FlushError>; 2],
    calls: u64,
    events: u64,
}

// The first request of a client; a replica that isn't live serves none.
fn stage(replica: &mut Replica, client: u128, body: &[u8]) -> Result<u64, AppendError> {
    if replica.live() {
        replica.stage(client, 1, body)
    } else {
        Err(AppendError::DiskFault)
    }
}

// Why the first request of a third client isn't appended.
fn refusal(disk: &mut MemoryDisk, replica: &mut Replica) -> Option<AppendError> {
    if !replica.live() {
        return Some(AppendError::DiskFault);
    }
    match replica.append(disk, 3, 1, b"") {
        Ok(_) => None,
        Err(refusal) => Some(refusal),
    }
}

fn flush(disk: &mut MemoryDisk, replica: &mut Replica) -> Result<u64, FlushError> {
    if replica.live() {
        replica.flush(disk)
    } else {
        Err(FlushError::DiskFault)
    }
}

fn session(disk: &mut MemoryDisk, replica: &mut Replica) -> Answers {
    let (calls, events) = (disk.calls(), disk.events());
    let staged = [stage(replica, 1, b"first"), stage(replica, 2, b"")];
    let count = replica.staged();
    let between = refusal(disk, replica);
    let first = flush(disk, replica);
    let left = replica.staged();
    let again = flush(disk, replica);
    Answers {
        staged,
        counts: [count, left],
        between,
        flushed: [first, again],
        calls: disk.calls().saturating_sub(calls),
        events: disk.events().saturating_sub(events),
    }
}

// What the session answers over a new file, and the head that an open then finds.
fn outcome_of(alloc: Global) -> Result<(Answers, u64), Fail> {
    let mut disk = small_file(alloc, 0)?;
    let answers = match open(alloc, &mut disk, &Layout::small())? {
        Ok(replica) => {
            let mut replica = replica;
            session(&mut disk, &mut replica)
        }
        Err(_) => return Err("the file is refused".into()),
    };
    match found(alloc, &mut disk)? {
        Ok(summary) => Ok((answers, summary.head)),
        Err(_) => Err("the file is refused".into()),
    }
}

// Two writes, a sync, a write and a sync: each is a device call and an event.
#[test]
fn two_that_are_staged_are_flushed_by_five_device_calls(rt: HostRuntime) -> Result<(), Fail> {
    let outcome = outcome_of(rt.alloc())?;
    let wanted = Answers {
        staged: [Ok(1), Ok(2)],
        counts: [2, 0],
        between: Some(AppendError::Staged { count: 2 }),
        flushed: [Ok(2), Err(FlushError::NothingStaged)],
        calls: 5,
        events: 5,
    };
    assert_eq!(rt; outcome, (wanted, 2));
    Ok(())
}
