// The calls of a scan.
use crate::tests::files::tried;
use df_base::Failed;
use df_layout::Layout;
use df_memdisk::MemoryDisk;
use std::alloc::Global;
use std::process::Abort;

// How a scan of a blank disk ends whose call of this number fails, and how many device calls it made.
fn scan_ends(rt: &impl Abort, alloc: Global, failing: u64) -> (Result<(), Failed>, u64) {
    let failing = Vec::from_slice(alloc, &[failing]).expect(rt, "memory of a list");
    let mut disk = MemoryDisk::new(alloc, failing);
    let (_, done) = tried(rt, alloc, &mut disk, &Layout::small(), 1 << 62, 0);
    (done, disk.calls())
}

// Two header sectors and 32 prepare slots, each by one call.
#[test]
fn a_scan_makes_two_and_thirty_two_calls_and_ends_with_the_one_that_fails(rt: HostRuntime) {
    assert!(rt; scan_ends(&rt, rt.alloc(), 2 + 32 + 1) == (Ok(()), 2 + 32));
    for listed in &[1, 2, 17, 18, 19, 2 + 32] {
        assert!(rt; scan_ends(&rt, rt.alloc(), *listed) == (Err(Failed), *listed));
    }
}
