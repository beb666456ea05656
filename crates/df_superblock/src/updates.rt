// Updates: the four copies in order, each durable before the next one is written, and a look at what became of them. And repairs: of
// the copies those alone that don't show the chosen content.
ghost use Rattle.std.specs.Prelude.{◌≡◌, ◌<◌, ◌≤◌, ℕ, IsTrue, ◌↔◌, length, IfSome, IfNone, OnOk};
ghost use Rattle.df_superblock.specs.Below.{HasCause, IsBlamed, Adds, update_steps, put_copies};
ghost use Rattle.df_superblock.specs.Calls.{SlotHolds, IsCopyRead, IsFirstMissing, IsUpdateVerdict, IsJudged, IsUndamaged, AddsUpdate, UpdatesSafely, ShowsEqual, EndsEqual, KeepsMembers, RepairsUnlessMisled, EndsRepaired, class_of_written_slot, is_update_fault};
ghost use Rattle.df_superblock.specs.{Events.{update_events, mend_events, repair_events}, Steps.{AreStepsOfCopies, repair_steps}};

use crate::copies::{read_all, write_copy, write_next};
use df_base::{BlamesDisk, Failed};
use df_buffers::ProbeRoom;
use df_disk::Disk;
use df_format::{Super, encode_copy};
use df_layout::{Class, Place, Zone};
use df_quorum::{Chosen, Slot, same_fields};

/// Why an update isn't known to be done.
#[derive(Clone, Copy, Debug, PartialEq, Eq)]
pub enum UpdateError {
    /// Fewer than three copies were read back as they were written: the place of the first that wasn't, and the class of
    /// what is there, `Stale` for a sound copy of other content. All four were written and synced.
    Damaged { place: Place, class: Class },
    /// A call of the disk failed. Some of the copies, from copy 0 on, may have been written.
    DiskFault,
}

impl BlamesDisk for UpdateError {
    ghost is_fault = { is_update_fault };

    fn is_fault(&self) -> bool
        ensures { result ≡ is_update_fault self.now }
    {
        *self == UpdateError::DiskFault
    }
}

/// Writes the copies in order of number, each durable before the next one is written. After an error some of them, from copy 0 on,
/// may have been written.
pub fn write_copies<D: Disk>(
    disk: &mut D,
    room: &mut ProbeRoom,
    content: &Super,
) -> Result<(), Failed>
    ensures events { Adds (update_events content.now) (D.told disk.old) (D.told disk.new) result }
    ensures cause { HasCause (D.faults disk.old) (D.faults disk.new) result }
{
    let bytes = room.sector_mut(0).bytes_mut();
    encode_copy(content, 0, bytes);
    write_next(disk, bytes, content, 0)?;
    write_next(disk, bytes, content, 1)?;
    write_next(disk, bytes, content, 2)?;
    write_next(disk, bytes, content, 3)
}

fn class_of(slot: &Slot) -> Class
    ensures { result ≡ class_of_written_slot slot.now }
{
    match slot {
        Slot::Sound(_) => Class::Stale,
        Slot::Bad(class) => *class,
    }
}

// Whether the slot of this number holds the copy that was written.
fn holds(number: u8, slot: &Slot, content: &Super) -> bool
    ensures { IsTrue result ↔ SlotHolds number slot.now content.now }
{
    match slot {
        Slot::Sound(copy) => copy.number == number && same_fields(&copy.fields, content.fields()),
        Slot::Bad(_) => false,
    }
}

// The first copy from a number on that wasn't read as it was written.
fn first_missing(slots: &[Slot; 4], content: &Super, from: u8) -> Option<u8>
    ensures some { IfSome result (λ first. IsFirstMissing slots.now content.now from first) }
    ensures none { IfNone result ((n : ℕ) → from ≤ n → n < 4 → IsCopyRead slots.now content.now n) }
{
    for number in from..4 {
        if !holds(number, &slots[usize::from(number)], content) {
            return Some(number);
        }
    }
    None
}

// Whether enough copies were read as they were written; else the first that wasn't.
fn judge(slots: &[Slot; 4], content: &Super) -> Result<(), UpdateError>
    ensures { IsUpdateVerdict slots.now content.now result }
{
    match first_missing(slots, content, 0) {
        None => Ok(()),
        Some(first) => match first_missing(slots, content, first + 1) {
            None => Ok(()),
            Some(_) => Err(UpdateError::Damaged {
                place: Place {
                    zone: Zone::Superblock,
                    index: u64::from(first),
                },
                class: class_of(&slots[usize::from(first)]),
            }),
        },
    }
}

/// Writes the copies 0, 1, 2 and 3, each durable before the next one is written, and reads all four back. From four equal
/// copies on, whatever a stop leaves at any moment has the old content chosen or the new one, and the old one as long as
/// copy 1 isn't written.
pub fn update<D: Disk>(
    disk: &mut D,
    room: &mut ProbeRoom,
    content: &Super,
) -> Result<(), UpdateError>
    ensures events { AddsUpdate (update_events content.now) (D.told disk.old) (D.told disk.new) result }
    ensures steps { AreStepsOfCopies (update_events content.now) (update_steps (put_copies content.now)) }
    ensures read_back { IsJudged (D.told disk.new) content.now result }
    ensures undamaged { IsUndamaged (D.told disk.new) result }
    ensures moments { UpdatesSafely content.now (D.told disk.old) (D.told disk.new) }
    ensures shown { OnOk result (ShowsEqual content.now (D.told disk.new)) }
    ensures equal { OnOk result (EndsEqual content.now (D.told disk.new)) }
    ensures cause { IsBlamed is_update_fault (D.faults disk.old) (D.faults disk.new) result }
{
    // Its fields obey their rules.
    let _fields = content.fields();
    match write_copies(disk, room, content) {
        Ok(()) => {}
        Err(_) => return Err(UpdateError::DiskFault),
    }
    match read_all(disk, room) {
        Ok(slots) => judge(&slots, content),
        Err(_) => Err(UpdateError::DiskFault),
    }
}

// Writes one copy, if it isn't a member.
fn mend<D: Disk>(
    disk: &mut D,
    room: &mut ProbeRoom,
    content: &Super,
    number: u8,
    is_member: bool,
) -> Result<(), Failed>
    requires { number < 4 }
    ensures events { Adds (mend_events content.now number is_member) (D.told disk.old) (D.told disk.new) result }
    ensures cause { HasCause (D.faults disk.old) (D.faults disk.new) result }
{
    if is_member {
        Ok(())
    } else {
        write_copy(disk, room, content, number)
    }
}

// Writes each copy that isn't a member.
fn mend_each<D: Disk>(
    disk: &mut D,
    room: &mut ProbeRoom,
    content: &Super,
    members: &[bool; 4],
) -> Result<(), Failed>
    ensures events { Adds (repair_events content.now 0 members.now) (D.told disk.old) (D.told disk.new) result }
    ensures size { length members.now ≡ 4 }
    ensures cause { HasCause (D.faults disk.old) (D.faults disk.new) result }
{
    mend(disk, room, content, 0, members[0])?;
    mend(disk, room, content, 1, members[1])?;
    mend(disk, room, content, 2, members[2])?;
    mend(disk, room, content, 3, members[3])
}

/// Writes the copies that aren't members of the choice, in order of number, each durable before the next one is written,
/// and no member. With no word on the history, whatever a stop leaves at any moment has the same content chosen unless it is
/// misled: the copy that is being written agrees with another one on a content not below the choice. At the end the four
/// copies are equal.
pub fn repair<D: Disk>(
    disk: &mut D,
    room: &mut ProbeRoom,
    chosen: &Chosen,
    content: &Super,
) -> Result<(), Failed>
    requires { content.now ≡ chosen.now.content }
    ensures events { Adds (repair_events content.now 0 chosen.now.members) (D.told disk.old) (D.told disk.new) result }
    ensures steps { AreStepsOfCopies (repair_events content.now 0 chosen.now.members) (repair_steps content.now chosen.now.members) }
    ensures members { KeepsMembers chosen.now.members (D.told disk.old) (D.told disk.new) }
    ensures unless_misled { RepairsUnlessMisled chosen.now (D.told disk.old) (D.told disk.new) }
    ensures repaired { OnOk result (EndsRepaired chosen.now (D.told disk.old) (D.told disk.new)) }
    ensures size { length chosen.now.members ≡ 4 }
    ensures cause { HasCause (D.faults disk.old) (D.faults disk.new) result }
{
    // Its fields obey their rules.
    let _fields = content.fields();
    mend_each(disk, room, content, &chosen.members)
}
