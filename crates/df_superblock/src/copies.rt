// Reads and writes of single copies, and which of the four places is written. A copy is durable before its writer answers.
ghost use Rattle.std.specs.Prelude.{◌≡◌, ◌<◌, ℕ, [], ◌∷◌, length, IfNone, IfOk, IfSome, OnOk};
ghost use Rattle.df_base.specs.declared.TheConstants.{SECTOR};
ghost use Rattle.df_superblock.specs.{Below.{HasCause, Sync, Adds, copy_bytes, own_copy, place_in}, Blank.{AreBlank, IsFirstWrittenOf}, Calls.{ShowsSector, ShowsCopySlot, ShowsSlots, ShowsCopies, slot_of}};
ghost use Rattle.df_superblock.specs.{Events.{copy_written}, Steps.{AreStepsOfCopies, copy_write_steps}};

use df_base::Failed;
use df_buffers::{ProbeRoom, Raw, SuperSector};
use df_disk::Disk;
use df_format::{Super, SuperCopy, encode_copy, renumber_copy};
use df_layout::{Class, Place, Zone};
use df_quorum::Slot;

// Reads the sector of one copy.
fn read_sector<D: Disk>(disk: &mut D, number: u8, into: &mut [u8]) -> Result<(), Failed>
    requires size { length into.old ≡ SECTOR }
    ensures bytes { OnOk result (ShowsSector (D.told disk.old) number into.new) }
    ensures same { D.told disk.new ≡ D.told disk.old }
    ensures cause { HasCause (D.faults disk.old) (D.faults disk.new) result }
{
    disk.read(u64::from(number), into)
}

// The place of the copy with this number.
fn place_of(number: u8) -> Place
    ensures { result ≡ place_in Zone.Superblock number }
{
    Place {
        zone: Zone::Superblock,
        index: u64::from(number),
    }
}

fn slot_for(read: Result<SuperCopy, Class>) -> Slot
    ensures { result ≡ slot_of read }
{
    match read {
        Ok(copy) => Slot::Sound(copy),
        Err(class) => Slot::Bad(class),
    }
}

// The copy in a room that was read from the place of this number, or the class of what is there.
fn slot_in(room: &Raw<SuperSector>, number: u8) -> Slot
    requires { number < 4 }
    ensures { result ≡ slot_of (own_copy number room.now.bytes) }
{
    slot_for(room.copy(place_of(number)))
}

// The same beside copy 0 and the room that it was read into. The four are nearly always equal but for their numbers, and of equal
// copies the first alone is hashed.
fn slot_beside(
    room: &Raw<SuperSector>,
    number: u8,
    first: &Slot,
    first_room: &Raw<SuperSector>,
) -> Slot
    requires number { number < 4 }
    requires first { first.now ≡ slot_of (own_copy 0 first_room.now.bytes) }
    ensures { result ≡ slot_of (own_copy number room.now.bytes) }
{
    match first {
        Slot::Sound(_) => slot_for(room.copy_beside(place_of(number), first_room)),
        Slot::Bad(_) => slot_in(room, number),
    }
}

// Reads the place of copy 0.
fn read_first<D: Disk>(disk: &mut D, room: &mut Raw<SuperSector>) -> Result<Slot, Failed>
    ensures shown { IfOk result (ShowsCopySlot (D.told disk.old) 0) }
    ensures held { IfOk result (λ slot. slot ≡ slot_of (own_copy 0 room.new.bytes)) }
    ensures same { D.told disk.new ≡ D.told disk.old }
    ensures cause { HasCause (D.faults disk.old) (D.faults disk.new) result }
{
    read_sector(disk, 0, room.bytes_mut())?;
    Ok(slot_in(room, 0))
}

// Reads the place of one copy, where copy 0 was read.
fn read_beside<D: Disk>(
    disk: &mut D,
    room: &mut Raw<SuperSector>,
    number: u8,
    first: &Slot,
    first_room: &Raw<SuperSector>,
) -> Result<Slot, Failed>
    requires number { number < 4 }
    requires first { first.now ≡ slot_of (own_copy 0 first_room.now.bytes) }
    ensures shown { IfOk result (ShowsCopySlot (D.told disk.old) number) }
    ensures same { D.told disk.new ≡ D.told disk.old }
    ensures cause { HasCause (D.faults disk.old) (D.faults disk.new) result }
{
    read_sector(disk, number, room.bytes_mut())?;
    Ok(slot_beside(room, number, first, first_room))
}

/// Reads the four copies: each slot is the sound copy that belongs at its place, or the class of what is there.
pub fn read_all<D: Disk>(disk: &mut D, room: &mut ProbeRoom) -> Result<[Slot; 4], Failed>
    ensures shown { IfOk result (ShowsSlots (D.told disk.old)) }
    ensures copies { IfOk result (ShowsCopies (D.told disk.old)) }
    ensures same { D.told disk.new ≡ D.told disk.old }
    ensures cause { HasCause (D.faults disk.old) (D.faults disk.new) result }
{
    let (zeroth, others) = room.sectors_mut().split_at_mut(1);
    let first = read_first(disk, &mut zeroth[0])?;
    let second = read_beside(disk, &mut others[0], 1, &first, &zeroth[0])?;
    let third = read_beside(disk, &mut others[1], 2, &first, &zeroth[0])?;
    let fourth = read_beside(disk, &mut others[2], 3, &first, &zeroth[0])?;
    Ok([first, second, third, fourth])
}

/// The first place that holds a byte other than zero.
pub fn first_written(copies: &[Slot; 4]) -> Option<u8>
    ensures some { IfSome result (IsFirstWrittenOf copies.now) }
    ensures none { IfNone result (AreBlank copies.now 4) }
{
    for number in 0..4u8 {
        if copies[usize::from(number)] != Slot::Bad(Class::Blank) {
            return Some(number);
        }
    }
    None
}

/// Writes the copy with this number, 0 to 3, into its own place, and makes it durable. The bytes are those of a copy of the content,
/// whatever its number, and then those of this one, so that only the first copy of an update is hashed.
pub(crate) fn write_next<D: Disk>(
    disk: &mut D,
    bytes: &mut [u8],
    content: &Super,
    number: u8,
) -> Result<(), Failed>
    requires size { length bytes.old ≡ SECTOR }
    requires copy { (before : ℕ) × (bytes.old ≡ copy_bytes before content.now) }
    ensures events { Adds (copy_written number content.now ∷ Sync ∷ []) (D.told disk.old) (D.told disk.new) result }
    ensures size { length bytes.new ≡ SECTOR }
    ensures copy { bytes.new ≡ copy_bytes number content.now }
    ensures cause { HasCause (D.faults disk.old) (D.faults disk.new) result }
{
    renumber_copy(number, bytes);
    disk.write(u64::from(number), bytes)?;
    disk.sync()
}

/// Writes the copy with this number, 0 to 3, into its own place, and makes it durable. After an error the place may show
/// anything once the machine stops.
pub fn write_copy<D: Disk>(
    disk: &mut D,
    room: &mut ProbeRoom,
    content: &Super,
    number: u8,
) -> Result<(), Failed>
    requires { number < 4 }
    ensures events { Adds (copy_written number content.now ∷ Sync ∷ []) (D.told disk.old) (D.told disk.new) result }
    ensures steps { AreStepsOfCopies (copy_written number content.now ∷ Sync ∷ []) (copy_write_steps number content.now) }
    ensures cause { HasCause (D.faults disk.old) (D.faults disk.new) result }
{
    let bytes = room.sector_mut(number).bytes_mut();
    encode_copy(content, number, bytes);
    write_next(disk, bytes, content, number)
}
