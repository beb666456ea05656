// Files of cluster 7 on a disk in memory: how they are made, surveyed and opened. What a call of the replica
// promises isn't passed on, so that a test's proof doesn't carry it.
use df_disk::Disk;
use df_layout::Layout;
use df_memdisk::MemoryDisk;
use df_model::Summary;
use df_replica::{FormatError, OpenError, Replica, Rooms, Surveyed, format, survey};
use std::alloc::Global;
use std::test::Fail;

/// `format`, `survey` and `Replica::open`, of which a caller's proof is told nothing.
pub(crate) fn format_in(
    disk: &mut MemoryDisk,
    rooms: &mut Rooms,
    cluster: u128,
) -> Result<(), FormatError> {
    format(disk, rooms, cluster)
}

pub(crate) fn survey_in(
    disk: &mut MemoryDisk,
    rooms: Rooms,
) -> Result<Surveyed, (Rooms, OpenError)> {
    survey(disk, rooms)
}

pub(crate) fn open_in<D: Disk>(disk: &mut D, rooms: Rooms) -> Result<Replica, (Rooms, OpenError)> {
    Replica::open(disk, rooms)
}

/// Rooms for a layout.
pub(crate) fn rooms_of(alloc: Global, layout: &Layout) -> Result<Rooms, Fail> {
    match Rooms::reserve(alloc, layout) {
        Ok(rooms) => Ok(rooms),
        Err(_) => Err("no memory for the rooms".into()),
    }
}

/// A disk with a new file; the listed device calls, counted from the first of its making, fail.
pub(crate) fn new_file(
    alloc: Global,
    layout: &Layout,
    failing: &[u64],
) -> Result<MemoryDisk, Fail> {
    let mut disk = MemoryDisk::new(alloc, Vec::from_slice(alloc, failing)?);
    let mut rooms = rooms_of(alloc, layout)?;
    match format_in(&mut disk, &mut rooms, 7) {
        Ok(()) => Ok(disk),
        Err(_) => Err("the file isn't made".into()),
    }
}

/// A disk with a new small file, the work of 15 device calls; a later one may be listed to fail.
pub(crate) fn small_file(alloc: Global, failing: u64) -> Result<MemoryDisk, Fail> {
    new_file(alloc, &Layout::small(), &[failing])
}

/// An open of a file of this layout.
pub(crate) fn open(
    alloc: Global,
    disk: &mut MemoryDisk,
    layout: &Layout,
) -> Result<Result<Replica, OpenError>, Fail> {
    let rooms = rooms_of(alloc, layout)?;
    match open_in(disk, rooms) {
        Ok(replica) => Ok(Ok(replica)),
        Err((_, refusal)) => Ok(Err(refusal)),
    }
}

/// What a small file is opened with.
pub(crate) fn found(
    alloc: Global,
    disk: &mut MemoryDisk,
) -> Result<Result<Summary, OpenError>, Fail> {
    match open(alloc, disk, &Layout::small())? {
        Ok(replica) => Ok(Ok(replica.summary())),
        Err(refusal) => Ok(Err(refusal)),
    }
}
