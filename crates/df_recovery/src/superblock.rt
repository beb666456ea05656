// The superblock of a file: what its four copies say, and how it is found, with the barrier that an open begins with and without.
ghost use Rattle.std.specs.Prelude.{◌≡◌, Option, IfOk, IfErr};
ghost use Rattle.df_recovery.specs.{Below.{IsBlamed, ShowsCopies, ShowsSlots, Told, is_open_fault}, Found.{IsOfCopies, IsRefusal, Syncs, TellsFoundAs, TellsLayout, TellsLayoutAs}};

use crate::OpenError;
use df_buffers::ProbeRoom;
use df_disk::Disk;
use df_format::{Super, SuperFault, test_fields};
use df_layout::Layout;
use df_quorum::{Chosen, Slot, choose};
use df_superblock::{first_written, read_all};

/// The superblock of a file that can be opened: which copies say it, and what it says.
#[derive(Clone, Copy, Debug, PartialEq, Eq)]
pub struct Found {
    pub chosen: Chosen,
    /// The fields of the choice, which have passed their tests.
    pub content: Super,
}

/// The superblock that the four places say, where this version is asked for, or the first reason why the file can't be opened.
pub fn superblock_of(copies: &[Slot; 4], version: u32) -> Result<Found, OpenError>
    ensures same_fields { IfOk result (λ found. found.content ≡ found.chosen.content) }
    ensures version { IfOk result (λ found. found.content.version ≡ version) }
    ensures told { (told : Option Told) → ShowsSlots told copies.now → ShowsCopies told copies.now → TellsFoundAs version told result }
    ensures refusal { IfErr result IsRefusal }
{
    if first_written(copies).is_none() {
        return Err(OpenError::NotFormatted);
    }
    let choice = match choose(copies) {
        Ok(choice) => choice,
        Err(classes) => return Err(OpenError::NoQuorum { classes }),
    };
    let found = choice.content.version;
    if found != version {
        return Err(OpenError::Version { found });
    }
    match test_fields(&choice.content) {
        Ok(content) => Ok(Found {
            chosen: choice,
            content,
        }),
        Err(SuperFault::Version { found }) => Err(OpenError::Version { found }),
        Err(SuperFault::BadField { field, value }) => Err(OpenError::BadField { field, value }),
    }
}

/// The superblock that a file shows, where this version is asked for, or the first reason why the file can't be opened: all four
/// sectors of zeros, no two copies that agree, another version (before any field), a field out of its range. It reads the four
/// sectors, and writes nothing.
pub fn read_superblock<D: Disk>(
    disk: &mut D,
    room: &mut ProbeRoom,
    version: u32,
) -> Result<Found, OpenError>
    ensures same_fields { IfOk result (λ found. found.content ≡ found.chosen.content) }
    ensures answer { TellsFoundAs version (D.told disk.old) result }
    ensures same { D.told disk.new ≡ D.told disk.old }
    ensures of_copies { IfErr result IsOfCopies }
    ensures cause { IsBlamed is_open_fault (D.faults disk.old) (D.faults disk.new) result }
{
    match read_all(disk, room) {
        Ok(copies) => superblock_of(&copies, version),
        Err(_) => Err(OpenError::DiskFault),
    }
}

/// The layout that the superblock names, where this version is asked for, with the same refusals.
pub fn probe_version<D: Disk>(
    disk: &mut D,
    room: &mut ProbeRoom,
    version: u32,
) -> Result<Layout, OpenError>
    ensures answer { TellsLayoutAs version (D.told disk.old) result }
    ensures same { D.told disk.new ≡ D.told disk.old }
    ensures of_copies { IfErr result IsOfCopies }
    ensures cause { IsBlamed is_open_fault (D.faults disk.old) (D.faults disk.new) result }
{
    let found = read_superblock(disk, room, version)?;
    Ok(found.content.layout())
}

/// The same, where version 2 is asked for, as an open does.
pub fn probe<D: Disk>(disk: &mut D, room: &mut ProbeRoom) -> Result<Layout, OpenError>
    ensures answer { TellsLayout (D.told disk.old) result }
    ensures same { D.told disk.new ≡ D.told disk.old }
    ensures of_copies { IfErr result IsOfCopies }
    ensures cause { IsBlamed is_open_fault (D.faults disk.old) (D.faults disk.new) result }
{
    probe_version(disk, room, 2)
}

/// Makes durable whatever an earlier call left loose, and then finds the superblock, where this version is asked for. A sync is no
/// write.
pub fn survey_superblock<D: Disk>(
    disk: &mut D,
    room: &mut ProbeRoom,
    version: u32,
) -> Result<Found, OpenError>
    ensures same_fields { IfOk result (λ found. found.content ≡ found.chosen.content) }
    ensures answer { TellsFoundAs version (D.told disk.old) result }
    ensures barrier { Syncs (D.told disk.old) (D.told disk.new) result }
    ensures of_copies { IfErr result IsOfCopies }
    ensures cause { IsBlamed is_open_fault (D.faults disk.old) (D.faults disk.new) result }
{
    match disk.sync() {
        Ok(()) => read_superblock(disk, room, version),
        Err(_) => Err(OpenError::DiskFault),
    }
}
