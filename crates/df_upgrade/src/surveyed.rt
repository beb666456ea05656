// A file of version 1 that was surveyed, and the superblock of version 2 that records it. No call may be made on its state: a replica
// is of version 2 alone, and so this is a type of its own.
ghost use Rattle.std.specs.Prelude.{◌≡◌, IfOk, IfErr};
ghost use Rattle.df_base.specs.declared.TheConstants.{FIRST_VERSION};
ghost use Rattle.df_upgrade.specs.{Base.{base_fields}, Below.{IsBlamed, IsSurveyed, IsUsable, Syncs, is_open_fault, state_of}, Old.{AnswersOld}};

use crate::base::base_of;
use crate::{OpenError, Rooms};
use df_damage::{Surveyed as SurveyedFile, survey_version};
use df_disk::Disk;
use df_format::SuperFields;
use df_layout::Mend;
use std::marker::Model;

// The version that is asked for.
const VERSION: u32 = 1;

/// What an open finds of a file of version 1, before anything of it is mended. Contracts see the state, the choice of the superblock,
/// and the list of what is to be mended.
#[derive(Drop)]
pub struct Surveyed {
    pub(crate) found: SurveyedFile,
}

impl Model for Surveyed {
    ghost use Rattle.df_opening.specs.{Survey.{Survey}, Surveying.{survey_found}};
    ghost use Rattle.df_upgrade.specs.Old.{IsOldSurvey};

    ghost Value = { Survey };

    ghost view = { λ s. survey_found s.found };

    ghost invariant = { λ s. IsOldSurvey s.found };
}

impl Surveyed {
    /// What is to be mended: copies of the superblock in order of number, then header slots in order, each with the class of
    /// what is shown there.
    pub fn to_mend(&self) -> &[Mend]
        ensures { result.now ≡ self.now.mends }
    {
        self.found.scanned.rooms.log.mends.as_slice()
    }

    /// The superblock of version 2 that records the state: the same checkpoint and sequence, boot 1, the head that was found and that
    /// prepare's checksum, the number of replies, and by place the checksum of each that is stored. It passes its tests.
    pub fn base(&self) -> SuperFields
        ensures fields { result ≡ base_fields self.now.state }
        ensures usable { IsUsable result }
    {
        base_of(&self.found)
    }
}

/// What a file of version 1 shows: its state, and what is to be mended of it; or the first reason of the order of open, which asks for
/// version 1, why it isn't upgraded, and the rooms. It syncs once and reads what a survey reads, and writes nothing. Where sectors of
/// the file were damaged, lost or swapped before, it finds a state that the file had, or refuses it because of a sector that is hurt.
pub fn survey<D: Disk>(disk: &mut D, rooms: Rooms) -> Result<Surveyed, (Rooms, OpenError)>
    ensures surveyed { IfOk result (IsSurveyed rooms.layout (D.told disk.old) (D.told disk.new)) }
    ensures version { IfOk result (λ survey. survey.state.file.version ≡ FIRST_VERSION) }
    ensures given_back { IfErr result (λ refused. refused.0.layout ≡ rooms.layout) }
    ensures answers { AnswersOld rooms.layout (D.told disk.old) (state_of result) }
    ensures barrier { Syncs (D.told disk.old) (D.told disk.new) (state_of result) }
    ensures cause { IsBlamed is_open_fault (D.faults disk.old) (D.faults disk.new) (state_of result) }
{
    match survey_version(disk, rooms, VERSION) {
        Ok(found) => Ok(Surveyed { found }),
        Err(refused) => Err(refused),
    }
}
