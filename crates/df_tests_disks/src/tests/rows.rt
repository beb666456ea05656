// Calls of a disk as rows of a table.
use df_base::{Failed, SECTOR};
use df_disk::Disk;
use std::process::Abort;

/// A call of a disk.
#[derive(Clone, Copy)]
pub(crate) enum Call {
    /// Writes one sector that holds this byte 4096 times.
    Fill(u16, u8),
    Sync,
    /// Reads one sector: does it hold this byte 4096 times, which isn't 9?
    Holds(u16, u8),
}

/// A call, and how it is answered; what isn't asked for a byte is answered true.
pub(crate) type Row = (Call, Result<bool, Failed>);

/// The bytes of a sector; nines stand in the buffer before it is read.
pub(crate) fn sector_of<D: Disk>(disk: &mut D, sector: u16) -> Result<[u8; SECTOR], Failed> {
    let mut shown = [9u8; SECTOR];
    disk.read(u64::from(sector), &mut shown)?;
    Ok(shown)
}

fn does<D: Disk>(disk: &mut D, call: Call) -> Result<bool, Failed> {
    match call {
        Call::Fill(sector, byte) => disk.write(u64::from(sector), &[byte; SECTOR])?,
        Call::Sync => disk.sync()?,
        Call::Holds(sector, byte) => return Ok(sector_of(disk, sector)? == [byte; SECTOR]),
    }
    Ok(true)
}

/// Each call in turn is answered as its row says.
pub(crate) fn assert_answers<D: Disk>(rt: &impl Abort, disk: &mut D, rows: &[Row]) {
    for (i, (call, wanted)) in rows.iter().enumerate() {
        assert!(rt; does(disk, *call) == *wanted, "call {i}");
    }
}
