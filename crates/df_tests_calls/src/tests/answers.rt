// Calls of a replica in order, with what each answers: appends and replies, and their refusals.
use crate::tests::calls::{Answer, Call, make_call};
use crate::tests::files::new_file;
use crate::tests::opened::opened;
use df_layout::Layout;
use df_memdisk::MemoryDisk;
use df_replica::{AppendError, Replica, ReplyError};
use std::alloc::Global;
use std::test::Fail;

// A call, and what it answers.
type Row = (Call, Answer);

// The first of the calls that isn't answered as the row says, and its answer.
fn first_among(
    alloc: Global,
    disk: &mut MemoryDisk,
    replica: &mut Replica,
    rows: &[Row],
) -> Result<Option<(usize, Answer)>, Fail> {
    for (index, (call, wanted)) in rows.iter().enumerate() {
        let answer = make_call(alloc, disk, replica, call)?;
        if answer != *wanted {
            return Ok(Some((index, answer)));
        }
    }
    Ok(None)
}

// The same of a replica of the file.
fn first_other(
    alloc: Global,
    disk: &mut MemoryDisk,
    layout: &Layout,
    rows: &[Row],
) -> Result<Option<(usize, Answer)>, Fail> {
    let mut replica = opened(alloc, disk, layout)?;
    first_among(alloc, disk, &mut replica, rows)
}

const SESSION: [Row; 18] = [
    (
        Call::Reply(1, 0),
        Answer::Replied(Err(ReplyError::NothingPending { head: 0 })),
    ),
    (Call::Append(5, 1, 0), Answer::Appended(Ok(1))),
    (
        Call::Reply(2, 1),
        Answer::Replied(Err(ReplyError::ReplyOrder { expected: 1 })),
    ),
    (
        Call::Reply(1, 7937),
        Answer::Replied(Err(ReplyError::BodyTooLong { max: 7936 })),
    ),
    (Call::Reply(1, 1), Answer::Replied(Ok(()))),
    (
        Call::Append(5, 1, 0),
        Answer::Appended(Err(AppendError::Repeated { op: 1 })),
    ),
    (
        Call::Append(5, 3, 1),
        Answer::Appended(Err(AppendError::RequestOrder { expected: 2 })),
    ),
    (Call::Append(5, 2, 2), Answer::Appended(Ok(2))),
    (
        Call::Append(5, 2, 2),
        Answer::Appended(Err(AppendError::ReplyPending { op: 2 })),
    ),
    (
        Call::Append(5, 3, 2),
        Answer::Appended(Err(AppendError::ReplyPending { op: 2 })),
    ),
    (
        Call::Reply(1, 0),
        Answer::Replied(Err(ReplyError::ReplyOrder { expected: 2 })),
    ),
    (
        Call::Append(0, 1, 0),
        Answer::Appended(Err(AppendError::ClientZero)),
    ),
    (
        Call::Append(6, 2, 0),
        Answer::Appended(Err(AppendError::RequestOrder { expected: 1 })),
    ),
    (
        Call::Append(6, 1, 7937),
        Answer::Appended(Err(AppendError::BodyTooLong { max: 7936 })),
    ),
    (Call::Append(6, 1, 7936), Answer::Appended(Ok(3))),
    (Call::Reply(2, 0), Answer::Replied(Ok(()))),
    (Call::Reply(3, 7936), Answer::Replied(Ok(()))),
    (
        Call::Reply(4, 0),
        Answer::Replied(Err(ReplyError::NothingPending { head: 3 })),
    ),
];

#[test]
fn a_first_session_is_answered_in_order(rt: HostRuntime) -> Result<(), Fail> {
    let layout = Layout::small();
    let mut disk = new_file(rt.alloc(), &layout, &[])?;
    let other = first_other(rt.alloc(), &mut disk, &layout, &SESSION)?;
    assert_eq!(rt; other, None);
    Ok(())
}
