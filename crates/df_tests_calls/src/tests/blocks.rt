// Calls of blocks and checkpoints of a replica in order, with what each answers, and how many device calls and events it makes.
use crate::tests::files::small_file;
use crate::tests::steps::{Step, first_other_of};
use df_replica::{BeginError, BlockError, NotLive, Progress, ReadError, StepError};
use std::test::Fail;

// A block is written by one device call and read by one. The last step of a checkpoint is a sync, a write and a sync for each of
// the four copies, and a read of each. A body may have 16,128 bytes and a root 1,024.
#[test]
fn blocks_and_checkpoints_are_answered_in_order(rt: HostRuntime) -> Result<(), Fail> {
    let mut disk = small_file(rt.alloc(), 0)?;
    let long = vec![in rt.alloc(); 0xddu8; 16_129].expect(&rt, "memory of a body");
    let most = long.len() - 1;
    let rows = [
        (Step::Write(0, &[], Err(BlockError::KindZero)), 0, 0),
        (
            Step::Write(1, &long, Err(BlockError::BodyTooLong { max: 16_128 })),
            0,
            0,
        ),
        (Step::Read(1, Err(ReadError::NotLive)), 0, 0),
        (Step::Advance(Err(StepError::NotRunning)), 0, 0),
        (Step::Write(1, &[0xaa], Ok(1)), 1, 1),
        (Step::Read(1, Ok((1, &[0xaa]))), 1, 0),
        (
            Step::Begin(&long[..1025], Err(BeginError::RootTooLong { max: 1024 })),
            0,
            0,
        ),
        (Step::Begin(&long[..1024], Ok(1)), 0, 0),
        (Step::Begin(&[], Err(BeginError::Running { left: 2 })), 0, 0),
        (Step::Advance(Ok(Progress::Working { left: 1 })), 1, 1),
        (Step::Advance(Ok(Progress::Done { sequence: 2 })), 13, 9),
        (Step::Release(1, Ok(())), 0, 0),
        (Step::Release(1, Err(NotLive)), 0, 0),
        (Step::Begin(&[], Ok(1)), 0, 0),
        (Step::Write(1, &[0xbb], Ok(4)), 1, 1),
        (Step::Advance(Ok(Progress::Working { left: 1 })), 1, 1),
        (Step::Advance(Ok(Progress::Done { sequence: 3 })), 13, 9),
        (Step::Write(255, &long[..most], Ok(1)), 1, 1),
        (Step::Read(1, Ok((255, &long[..most]))), 1, 0),
        (Step::Read(4, Ok((1, &[0xbb]))), 1, 0),
    ];
    assert_eq!(rt; first_other_of(rt.alloc(), &mut disk, &rows)?, None);
    Ok(())
}
