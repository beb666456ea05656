// A disk that loses its second and third write, over one whose third device call fails.
use crate::tests::memory::failing;
use crate::tests::rows::{Call, assert_answers};
use df_base::Failed;
use df_memdisk::DroppingDisk;

#[test]
fn a_lost_write_is_answered_ok_and_is_no_device_call(rt: HostRuntime) {
    let dropped = Vec::from_slice(rt.alloc(), &[2, 3]).expect(&rt, "memory of a list");
    let mut disk = DroppingDisk::new(failing(&rt, rt.alloc(), &[3]), dropped);
    let rows = [
        (Call::Fill(1, 1), Ok(true)),
        (Call::Sync, Ok(true)),
        (Call::Fill(1, 2), Ok(true)),
        (Call::Fill(2, 3), Ok(true)),
        (Call::Sync, Err(Failed)),
        (Call::Sync, Ok(true)),
        (Call::Fill(3, 4), Ok(true)),
        (Call::Holds(1, 1), Ok(true)),
        (Call::Holds(2, 0), Ok(true)),
        (Call::Holds(3, 4), Ok(true)),
    ];
    assert_answers(&rt, &mut disk, &rows);
    assert!(rt; disk.into_disk().events() == 4);
}
