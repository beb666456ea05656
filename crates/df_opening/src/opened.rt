// A file is surveyed and opened. A survey reads what it shows, finds its state and lists what is to be mended, and writes nothing; an open
// is a survey, the mending of what it lists, and the boot update.
ghost use Rattle.std.specs.Prelude.{◌≡◌, IfOk, IfErr};
ghost use Rattle.df_base.specs.declared.TheConstants.{VERSION};
ghost use Rattle.df_opening.specs.{Below.{IsBlamed, Syncs, is_open_fault, without_rooms}, Opened.{AnswersOpen, AreOpened, LeavesOpen, refusal_of}, Survey.{opened_of, survey_in, survey_of}};
ghost use Rattle.df_opening.specs.Surveying.{AnswersSurvey, IsSurveyed, state_of, survey_found};
ghost use Rattle.df_damage.specs.{Below.{AreFound}, Surveying.{IsPlannedFor, IsWellFound}};

use crate::{MendError, OpenError, Parts, Rooms, mend_file};
use df_damage::{Surveyed, survey_version};
use df_disk::Disk;
use df_quorum::Chosen;

// The version that is opened.
const VERSION: u32 = 2;

/// A file that was surveyed: its parts, on which no call may be made yet, and the choice of the superblock. What is to be mended
/// is listed in its rooms.
#[derive(Drop)]
pub struct SurveyedFile {
    pub parts: Parts,
    pub chosen: Chosen,
}

// What was surveyed of a file of version 2, as parts and the choice, with nothing staged and the tour at its start.
fn parts_of(surveyed: Surveyed) -> SurveyedFile
    requires found { IsWellFound surveyed }
    requires version { surveyed.scanned.file.version ≡ VERSION }
    requires planned { IsPlannedFor surveyed }
    ensures found { AreFound result.parts }
    ensures seen { survey_in result ≡ survey_found surveyed }
{
    let Surveyed {
        scanned,
        traces,
        waiting,
    } = surveyed;
    let mut rooms = scanned.rooms;
    rooms.staging.clear();
    let scrub = rooms.scrub.cleared();
    let copies = scanned.copies;
    let _fields = copies.found.content.fields();
    // A root has at most 1,024 bytes.
    let _bytes = scanned.root.as_slice();
    let head_checksum = traces.tail.checksum;
    let parts = Parts {
        file: scanned.file,
        content: copies.found.content,
        root: scanned.root,
        head: traces.tail.op,
        head_checksum,
        replies: traces.replies,
        sessions: scanned.sessions,
        waiting,
        live: false,
        rooms: rooms.log,
        grid: rooms.grid,
        running: None,
        trailer: rooms.trailer,
        scrub,
        staging: rooms.staging,
    };
    SurveyedFile {
        parts,
        chosen: copies.found.chosen,
    }
}

/// What a file of version 2 shows: its state, and what is to be mended before calls may work on it; or the first reason of the order
/// of open why it isn't opened, and the rooms. It syncs once, then reads each copy of the superblock once, each block of the
/// trailer that it names twice, and each sector of the header ring, each slot of the ring of prepares and each reply slot
/// once, and writes nothing. Where sectors of the file were damaged, lost or swapped before, it finds a state that the file had,
/// or refuses it because of a sector that is hurt; and where they were before other opens, too, one that it had since the last of
/// these that raised its boot.
pub fn survey_file<D: Disk>(disk: &mut D, rooms: Rooms) -> Result<SurveyedFile, (Rooms, OpenError)>
    ensures found { IfOk result (λ surveyed. AreFound surveyed.parts) }
    ensures surveyed { IfOk (survey_of result) (IsSurveyed rooms.layout (D.told disk.old) (D.told disk.new)) }
    ensures given_back { IfErr result (λ refused. refused.0.layout ≡ rooms.layout) }
    ensures answers { AnswersSurvey rooms.layout (D.told disk.old) (state_of (survey_of result)) }
    ensures barrier { Syncs (D.told disk.old) (D.told disk.new) (state_of (survey_of result)) }
    ensures cause { IsBlamed is_open_fault (D.faults disk.old) (D.faults disk.new) (state_of (survey_of result)) }
{
    match survey_version(disk, rooms, VERSION) {
        Ok(surveyed) => Ok(parts_of(surveyed)),
        Err(refused) => Err(refused),
    }
}

/// What an open answers where the mending or the boot update failed.
pub fn refusal_of(error: MendError) -> OpenError
    ensures { result ≡ refusal_of error }
{
    match error {
        MendError::Damaged { place, class } => OpenError::Damaged { place, class },
        MendError::DiskFault => OpenError::DiskFault,
    }
}

/// Opens a file: finds its state, with the refusals of a survey, mends it, and raises its boot; then calls may be made on its
/// parts. A fault of the disk may come before the mending, within it or within the boot update, and where a disk lies that update
/// answers `Damaged`; every other refusal has written nothing. The rooms come back with a refusal. Where sectors of the file were
/// damaged, lost or swapped before, the state is one that the file had, and a refusal is because of one of them; where they were
/// before other opens, too, it is one that the file had since the last of these that raised its boot.
pub fn open_file<D: Disk>(disk: &mut D, rooms: Rooms) -> Result<Parts, (Rooms, OpenError)>
    ensures parts { IfOk result (AreOpened rooms.layout) }
    ensures given_back { IfErr result (λ refused. refused.0.layout ≡ rooms.layout) }
    ensures answers { AnswersOpen rooms.layout (D.told disk.old) (without_rooms (opened_of result)) }
    ensures leaves { LeavesOpen rooms.layout (D.told disk.old) (D.told disk.new) (without_rooms (opened_of result)) }
    ensures cause { IsBlamed is_open_fault (D.faults disk.old) (D.faults disk.new) (without_rooms (opened_of result)) }
{
    let surveyed = match survey_file(disk, rooms) {
        Ok(surveyed) => surveyed,
        Err(refused) => return Err(refused),
    };
    match mend_file(disk, surveyed) {
        Ok(parts) => Ok(parts),
        Err((rooms, error)) => Err((rooms, refusal_of(error))),
    }
}
