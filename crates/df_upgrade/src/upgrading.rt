// The four copies of version 2.
ghost use Rattle.df_upgrade.specs.{Base.{MayUpgradeTo}, Below.{IsBlamed, is_update_fault}, Upgrading.{UpdatesTo}};

use df_buffers::ProbeRoom;
use df_disk::Disk;
use df_format::{SuperFields, test_fields};
use df_superblock::{UpdateError, update};

/// Writes the superblock of version 2: the copies 0, 1, 2 and 3, each durable before the next one is written, and reads all four back. It
/// is to pass its tests, and to be above the chosen one, by sequence and then by boot. A disk that tells what it shows is told of no
/// damage.
pub fn upgrade<D: Disk>(
    disk: &mut D,
    room: &mut ProbeRoom,
    base: &SuperFields,
) -> Result<(), UpdateError>
    requires may { MayUpgradeTo (D.told disk.old) base.now }
    ensures does { UpdatesTo base.now (D.told disk.old) (D.told disk.new) result }
    ensures cause { IsBlamed is_update_fault (D.faults disk.old) (D.faults disk.new) result }
{
    match test_fields(base) {
        Ok(content) => update(disk, room, &content),
        Err(_) => unreachable!(),
    }
}
