// An open, which hands out the replica.
ghost use Rattle.std.specs.Prelude.{◌≡◌, IfOk, IfErr, Some, true};
ghost use Rattle.df_replica.specs.Below.{IsBlamed, IsImage, Sync, Told, after, is_open_fault, without_rooms};
ghost use Rattle.df_opening.specs.Opened.{MendsAll, StopsOpening, TellsHurtOpened, TellsLivedOpened, TellsOpened, ToldBy};

use crate::{OpenError, Replica, Rooms};
use df_disk::Disk;
use df_opening::open_file;

impl Replica {
    /// Opens a file: finds its state, with the refusals of `survey`, mends it, and raises its boot. A fault of the disk may come
    /// before the mending, within it or within the boot update, and where a disk lies that update answers `Damaged`; every other
    /// refusal has written nothing. The rooms come back with a refusal. Where sectors of the file were damaged, lost or swapped
    /// before, the state is one that the file had, and a refusal is because of one of them; where they were before other opens, too,
    /// it is one that the file had since the last of these that raised its boot.
    pub fn open<D: Disk>(disk: &mut D, rooms: Rooms) -> Result<Replica, (Rooms, OpenError)>
        ensures kept { IfOk result (λ replica. replica.file.layout ≡ rooms.layout) }
        ensures live { IfOk result (λ replica. replica.live ≡ true) }
        ensures given_back { IfErr result (λ refused. refused.0.layout ≡ rooms.layout) }
        ensures answer { TellsOpened rooms.layout (D.told disk.old) (without_rooms result) }
        ensures hurt { TellsHurtOpened rooms.layout (D.told disk.old) (without_rooms result) }
        ensures lived { TellsLivedOpened rooms.layout (D.told disk.old) (without_rooms result) }
        ensures opened { (t : Told) → D.told disk.old ≡ Some t → IfOk result (λ replica. MendsAll t replica (D.told disk.new)) }
        ensures told { IfOk result (λ replica. ToldBy (after Sync (D.told disk.old)) (D.told disk.new)) }
        ensures refused { IfErr result (λ refused. (refused.1 ≡ OpenError.DiskFault → ⊥) → D.told disk.new ≡ after Sync (D.told disk.old)) }
        ensures stopped { (t : Told) → D.told disk.old ≡ Some t
            → IfErr result (λ refused. IsImage t.shown → refused.1 ≡ OpenError.DiskFault → StopsOpening rooms.layout t (D.told disk.new)) }
        ensures cause { IsBlamed is_open_fault (D.faults disk.old) (D.faults disk.new) (without_rooms result) }
    {
        match open_file(disk, rooms) {
            Ok(parts) => Ok(Replica { parts }),
            Err(refused) => Err(refused),
        }
    }
}
