// The mending of a surveyed file: header sectors, one sync, then the copies of the superblock that aren't members of the choice, so
// that a header sector is durable before a copy is written; and then its boot is raised, and calls may go on.
ghost use Rattle.std.specs.Prelude.{◌≡◌, ◌<◌, ◌/◌, length, IfErr, IfOk, OnErr, OnOk};
ghost use Rattle.df_base.specs.declared.TheConstants.{GREATEST};
ghost use Rattle.df_headers.specs.Ring.{IsHeaderTable};
ghost use Rattle.df_opening.specs.{Below.{Adds, HasCause, IsBlamed, is_mend_fault, update_events, without_rooms}, Keeping.{format}};
ghost use Rattle.df_opening.specs.Mending.{AddsSteps, AddsUpdating, header_events, lies_in, mending_events, mending_steps, needs_sector, raised_state, sectors_of, wanted_writes};
ghost use Rattle.df_opening.specs.{Raising.{AreRaised, RaisesEach, opening_events}, Survey.{survey_in}};
ghost use Rattle.df_damage.specs.Below.{AreFound, AreWhole, boot_fields, state_in};

use crate::{DataFile, MendError, Parts, Rooms, SurveyedFile};
use df_base::Failed;
use df_buffers::{HeaderSector, ProbeRoom, Raw};
use df_disk::Disk;
use df_format::{Super, SuperFields, test_fields};
use df_headers::HeaderTable;
use df_layout::{Mend, SECTOR_HEADERS, Zone};
use df_quorum::Chosen;
use df_superblock::{UpdateError, repair, update};

// Whether the place is a slot of this sector of the header ring.
fn lies_in(mend: &Mend, sector: u32) -> bool
    ensures { result ≡ lies_in sector mend.now }
{
    match mend.place.zone {
        Zone::WalHeaders => mend.place.index / u64::from(SECTOR_HEADERS) == u64::from(sector),
        _ => false,
    }
}

// Writes a sector, if the list has a slot of it, and answers whether it did.
fn mend_sector<D: Disk>(
    disk: &mut D,
    file: &DataFile,
    headers: &HeaderTable,
    mends: &[Mend],
    room: &mut Raw<HeaderSector>,
    sector: u32,
) -> Result<bool, Failed>
    requires table { IsHeaderTable file.now.layout file.now.cluster headers.now }
    requires room { room.old.layout ≡ file.now.layout }
    requires sector { sector < file.now.layout.slots / 16 }
    ensures events { Adds (wanted_writes file.now.layout headers.now mends.now sector) (D.told disk.old) (D.told disk.new) result }
    ensures wrote { IfOk result (λ wrote. wrote ≡ needs_sector mends.now sector) }
    ensures room { room.new.layout ≡ file.now.layout }
    ensures cause { HasCause (D.faults disk.old) (D.faults disk.new) result }
{
    if mends.iter().any(|mend| lies_in(mend, sector)) {
        match headers.write_sector(disk, room, sector) {
            Ok(()) => Ok(true),
            Err(failed) => Err(failed),
        }
    } else {
        Ok(false)
    }
}

// Writes the header sectors that the list has a slot of, and makes them durable, where there is one.
fn mend_headers<D: Disk>(
    disk: &mut D,
    file: &DataFile,
    headers: &HeaderTable,
    mends: &[Mend],
    room: &mut Raw<HeaderSector>,
) -> Result<(), Failed>
    requires table { IsHeaderTable file.now.layout file.now.cluster headers.now }
    requires room { room.old.layout ≡ file.now.layout }
    ensures events { Adds (header_events file.now.layout headers.now (sectors_of file.now.layout mends.now)) (D.told disk.old) (D.told disk.new) result }
    ensures room { room.new.layout ≡ file.now.layout }
    ensures cause { HasCause (D.faults disk.old) (D.faults disk.new) result }
{
    let mut wrote = false;
    let mut sector = 0;
    while sector < file.layout.slots / SECTOR_HEADERS {
        match mend_sector(disk, file, headers, mends, room, sector) {
            Ok(done) => wrote = wrote || done,
            Err(failed) => return Err(failed),
        }
        sector += 1;
    }
    if wrote { disk.sync() } else { Ok(()) }
}

/// Writes what is listed: each header sector that has a listed slot, once and in order, from the table; one sync, where
/// there was such a sector; then the copies that aren't members of the choice, in order, each durable before the next one
/// is written. No member is written, and no other place. After an error what was being written may hold anything once the
/// machine stops.
pub fn write_mends<D: Disk>(
    disk: &mut D,
    file: &DataFile,
    headers: &HeaderTable,
    mends: &[Mend],
    sector: &mut Raw<HeaderSector>,
    superblock: &mut ProbeRoom,
    chosen: &Chosen,
    content: &Super,
) -> Result<(), Failed>
    requires table { IsHeaderTable file.now.layout file.now.cluster headers.now }
    requires room { sector.old.layout ≡ file.now.layout }
    requires content { content.now ≡ chosen.now.content }
    ensures does { AddsSteps (format file.now) (mending_events file.now.layout headers.now mends.now content.now chosen.now.members)
        (mending_steps file.now.layout headers.now mends.now content.now chosen.now.members) (D.told disk.old) (D.told disk.new) result }
    ensures room { sector.new.layout ≡ file.now.layout }
    ensures cause { HasCause (D.faults disk.old) (D.faults disk.new) result }
{
    // The content's fields obey their rules, and a choice has four members.
    let _fields = content.fields();
    let _members = chosen.members;
    match mend_headers(disk, file, headers, mends, sector) {
        Ok(()) => repair(disk, superblock, chosen, content),
        Err(failed) => Err(failed),
    }
}

// Writes what the rooms of these parts list, from the table that they have; these copies are members of the choice.
fn mend_parts<D: Disk>(disk: &mut D, parts: &mut Parts, members: [bool; 4]) -> Result<(), Failed>
    requires whole { AreWhole parts.old }
    ensures state { state_in parts.new ≡ state_in parts.old }
    ensures whole { AreWhole parts.new }
    ensures does { AddsSteps (format parts.old.file) (mending_events parts.old.file.layout parts.old.rooms.headers parts.old.rooms.mends.items parts.old.content members)
        (mending_steps parts.old.file.layout parts.old.rooms.headers parts.old.rooms.mends.items parts.old.content members) (D.told disk.old) (D.told disk.new) result }
    ensures size { length members ≡ 4 }
    ensures cause { HasCause (D.faults disk.old) (D.faults disk.new) result }
{
    let chosen = Chosen {
        content: *parts.content.fields(),
        members,
    };
    let rooms = &mut parts.rooms;
    write_mends(
        disk,
        &parts.file,
        &rooms.headers,
        &rooms.mends,
        &mut rooms.sector,
        &mut rooms.superblock,
        &chosen,
        &parts.content,
    )
}

// The superblock that an open writes: it records the state of these parts as it is, with the next boot.
fn next_superblock(parts: &Parts) -> Super
    requires whole { AreWhole parts.now }
    requires unspent { parts.now.content.boot < GREATEST }
    ensures { result ≡ boot_fields (state_in parts.now) }
{
    // The sessions are a table of the file.
    let _count = parts.sessions.len();
    let fields = parts.content.fields();
    let next = parts.recorded(SuperFields {
        boot: fields.boot + 1,
        ..*fields
    });
    match test_fields(&next) {
        Ok(content) => content,
        Err(_) => unreachable!(),
    }
}

// Raises the boot of the file of these parts by this superblock; then units are made in it, and calls may go on.
fn raise_parts<D: Disk>(disk: &mut D, parts: &mut Parts, content: Super) -> Result<(), MendError>
    requires whole { AreWhole parts.old }
    requires unspent { parts.old.content.boot < GREATEST }
    requires content { content ≡ boot_fields (state_in parts.old) }
    ensures state { OnOk result (state_in parts.new ≡ raised_state (state_in parts.old)) }
    ensures kept { OnErr result (state_in parts.new ≡ state_in parts.old) }
    ensures whole { AreWhole parts.new }
    ensures does { AddsUpdating (update_events content) content (D.told disk.old) (D.told disk.new) result }
    ensures cause { IsBlamed is_mend_fault (D.faults disk.old) (D.faults disk.new) result }
{
    match update(disk, &mut parts.rooms.superblock, &content) {
        Ok(()) => {}
        Err(UpdateError::Damaged { place, class }) => {
            return Err(MendError::Damaged { place, class });
        }
        Err(UpdateError::DiskFault) => return Err(MendError::DiskFault),
    }
    let boot = content.fields().boot;
    parts.grid.set_boot(boot);
    parts.content = content;
    parts.live = true;
    Ok(())
}

/// Mends what the rooms of a surveyed file list, raises its boot, and hands out its parts, on which calls may be made: header
/// sectors first, each needed one once, then one sync, where there was such a sector, then the copies that aren't members of the
/// choice, each durable before the next one; and after that the copies 0, 1, 2 and 3 of a superblock with the next boot, which
/// records the state as it was found. A stop at any moment leaves that state with the boot of before or with the next one, and so
/// does a fault, by each log on which the plan rests; by one that is restarted at what is shown, whatever the copies showed. The
/// rooms come back with an error.
pub fn mend_file<D: Disk>(disk: &mut D, surveyed: SurveyedFile) -> Result<Parts, (Rooms, MendError)>
    requires found { AreFound surveyed.parts }
    ensures raised { IfOk result (AreRaised (state_in surveyed.parts)) }
    ensures rooms { IfErr result (λ refused. refused.0.layout ≡ surveyed.parts.file.layout) }
    ensures does { AddsUpdating (opening_events (survey_in surveyed)) (boot_fields (state_in surveyed.parts)) (D.told disk.old) (D.told disk.new) (without_rooms result) }
    ensures leaves { RaisesEach (survey_in surveyed) }
    ensures cause { IsBlamed is_mend_fault (D.faults disk.old) (D.faults disk.new) (without_rooms result) }
{
    let SurveyedFile { mut parts, chosen } = surveyed;
    let content = next_superblock(&parts);
    // Its fields obey their rules.
    let _fields = content.fields();
    match mend_parts(disk, &mut parts, chosen.members) {
        Ok(()) => {}
        Err(_) => return Err((parts.into_rooms(), MendError::DiskFault)),
    }
    match raise_parts(disk, &mut parts, content) {
        Ok(()) => Ok(parts),
        Err(error) => Err((parts.into_rooms(), error)),
    }
}
