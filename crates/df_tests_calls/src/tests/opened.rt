// A replica of a file that opens, and calls that are all done. A replica is held where no `?` follows, since at each all that is
// held is let go of.
use crate::tests::calls::{Call, make_call};
use crate::tests::files::open;
use df_layout::Layout;
use df_memdisk::MemoryDisk;
use df_replica::Replica;
use std::alloc::Global;
use std::test::Fail;

// The replica of a file of this layout.
pub(crate) fn opened(
    alloc: Global,
    disk: &mut MemoryDisk,
    layout: &Layout,
) -> Result<Replica, Fail> {
    match open(alloc, disk, layout)? {
        Ok(replica) => Ok(replica),
        Err(_) => Err("the file is refused".into()),
    }
}

// Makes the calls, each of which is done.
pub(crate) fn do_all(
    alloc: Global,
    disk: &mut MemoryDisk,
    replica: &mut Replica,
    calls: &[Call],
) -> Result<(), Fail> {
    for call in calls {
        if !make_call(alloc, disk, replica, call)?.is_done() {
            return Err("a call is refused".into());
        }
    }
    Ok(())
}
