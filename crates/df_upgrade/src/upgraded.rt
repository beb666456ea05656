// A file of version 1 becomes one of version 2: it is surveyed, mended, and gets its superblock.
ghost use Rattle.std.specs.Prelude.{◌≡◌, Some};
ghost use Rattle.df_base.specs.declared.TheConstants.{FIRST_VERSION};
ghost use Rattle.df_upgrade.specs.{Base.{MayUpgradeTo, base_fields}, Below.{AddsUpdating, IsBlamed, IsPlannedOf, Told, is_mend_fault, is_open_fault, update_events, without_rooms}, Old.{rooms_in}};
ghost use Rattle.df_upgrade.specs.{Upgraded.{AnswersUpgrade, LeavesUpgrade, rooms_of, sequence_of}, Upgrading.{UpgradesEach, upgrading_events}};

use crate::{MendError, OpenError, Rooms, Surveyed, UpdateError, survey, upgrade};
use df_damage::LogRooms;
use df_disk::Disk;
use df_format::SuperFields;
use df_opening::refusal_of;

/// A file that was upgraded: the rooms, and the sequence of its superblock, which an upgrade keeps.
pub struct Upgraded {
    pub rooms: Rooms,
    pub sequence: u64,
}

// Its owner lets go of it in one call, and not field by field.
impl Drop for Upgraded {
    fn drop(self) {
        let Upgraded {
            rooms: _,
            sequence: _,
        } = self;
    }
}

// Writes the four copies of version 2 in these rooms.
fn upgrade_in<D: Disk>(
    disk: &mut D,
    rooms: &mut LogRooms,
    base: &SuperFields,
) -> Result<(), MendError>
    requires may { MayUpgradeTo (D.told disk.old) base.now }
    ensures layout { rooms.new.layout ≡ rooms.old.layout }
    ensures does { AddsUpdating (update_events base.now) base.now (D.told disk.old) (D.told disk.new) result }
    ensures cause { IsBlamed is_mend_fault (D.faults disk.old) (D.faults disk.new) result }
{
    match upgrade(disk, &mut rooms.superblock, base) {
        Ok(()) => Ok(()),
        Err(UpdateError::Damaged { place, class }) => Err(MendError::Damaged { place, class }),
        Err(UpdateError::DiskFault) => Err(MendError::DiskFault),
    }
}

/// Mends what was listed of a file of version 1, and after that writes the copies 0, 1, 2 and 3 of its superblock of version 2, each
/// durable before the next one, and reads them back. A stop at any moment leaves the state that was found, by version 1 or by version 2,
/// and so does a fault, by a log that is restarted at what is shown, whatever the copies showed. The rooms come back with an error.
pub fn upgrade_surveyed<D: Disk>(
    disk: &mut D,
    surveyed: Surveyed,
) -> Result<Rooms, (Rooms, MendError)>
    requires planned { (t : Told) → D.told disk.old ≡ Some t → IsPlannedOf surveyed t }
    requires version { surveyed.state.file.version ≡ FIRST_VERSION }
    ensures rooms { (rooms_in result).layout ≡ surveyed.state.file.layout }
    ensures does { AddsUpdating (upgrading_events surveyed) (base_fields surveyed.state) (D.told disk.old) (D.told disk.new) (without_rooms result) }
    ensures leaves { UpgradesEach surveyed }
    ensures cause { IsBlamed is_mend_fault (D.faults disk.old) (D.faults disk.new) (without_rooms result) }
{
    let base = surveyed.base();
    let mut rooms = match surveyed.restore(disk) {
        Ok(rooms) => rooms,
        Err((rooms, _)) => return Err((rooms, MendError::DiskFault)),
    };
    match upgrade_in(disk, &mut rooms.log, &base) {
        Ok(()) => Ok(rooms),
        Err(error) => Err((rooms, error)),
    }
}

/// Makes a file of version 1 one of version 2: surveys it with the refusals of an open that asks for version 1, mends what an open would,
/// and after that writes its superblock of version 2, with the same sequence and boot 1, which records the state as it was found. A file
/// of version 2 is refused, so an upgrade that was stopped is made again, or its file is opened. A fault of the disk may come before the
/// mending, within it or within the update, and where a disk lies the update answers `Damaged`; every other refusal has written nothing.
/// The rooms come back.
pub fn upgrade_file<D: Disk>(disk: &mut D, rooms: Rooms) -> Result<Upgraded, (Rooms, OpenError)>
    ensures rooms { (rooms_of result).layout ≡ rooms.layout }
    ensures answers { AnswersUpgrade rooms.layout (D.told disk.old) (sequence_of result) }
    ensures leaves { LeavesUpgrade rooms.layout (D.told disk.old) (D.told disk.new) (sequence_of result) }
    ensures cause { IsBlamed is_open_fault (D.faults disk.old) (D.faults disk.new) (sequence_of result) }
{
    let surveyed = match survey(disk, rooms) {
        Ok(surveyed) => surveyed,
        Err(refused) => return Err(refused),
    };
    let sequence = surveyed.base().sequence;
    match upgrade_surveyed(disk, surveyed) {
        Ok(rooms) => Ok(Upgraded { rooms, sequence }),
        Err((rooms, error)) => Err((rooms, refusal_of(error))),
    }
}
