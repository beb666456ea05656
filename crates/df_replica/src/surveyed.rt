// A file that was surveyed: its state, and what is to be mended before calls may work on it.
ghost use Rattle.std.specs.Prelude.{◌≡◌, IfOk, IfErr, Some, slice_get};
ghost use Rattle.df_theory.specs.Found.{IsFound};
ghost use Rattle.df_units.specs.Bytes.{unit_at};
ghost use Rattle.df_replica.specs.Below.{AreDistinctUnits, AreSteps, IsBlamed, IsImage, Represents, Syncs, TellsHurt, TellsLived};
ghost use Rattle.df_replica.specs.{Below.{Told, View, boot_fields, is_mend_fault, is_open_fault, restarted, shape, without_rooms}, Replica.{summary_of}};
ghost use Rattle.df_opening.specs.Mending.{AddsRaising, IsPlanned, IsReadBack, IsUnharmed, RestsOnDisk, first_state, raised_state};
ghost use Rattle.df_opening.specs.{Raising.{IsPlannedOf, RaisesAnew, RaisesOver, opening_events, opening_steps}, Keeping.{Grade, StandsFor, format}, Surveying.{TellsMends, TellsSurvey, state_of}};

use crate::{MendError, OpenError, Replica, Rooms};
use df_disk::Disk;
use df_layout::Mend;
use df_model::Summary;
use df_opening::{SurveyedFile, mend_file, survey_file};
use df_sessions::Session;
use std::marker::Model;

/// The state that an open finds, before anything of the file is mended. Contracts see the state, which isn't live, the choice
/// of the superblock, and the list of what is to be mended.
#[derive(Drop)]
pub struct Surveyed {
    found: SurveyedFile,
}

impl Model for Surveyed {
    ghost use Rattle.df_opening.specs.{Survey.{Survey, survey_in}, Below.{AreFound}};

    ghost Value = { Survey };

    ghost view = { λ s. survey_in s.found };

    ghost invariant = { λ s. AreFound s.found.parts };
}

impl Surveyed {
    /// The numbers of the state.
    pub fn summary(&self) -> Summary
        ensures { result ≡ summary_of self.now.state }
    {
        self.found.parts.summary()
    }

    /// The root of the durable checkpoint; it is empty while no checkpoint has one.
    pub fn root(&self) -> &[u8]
        ensures { result.now ≡ self.now.state.root }
    {
        self.found.parts.root.as_slice()
    }

    /// The session at a place, None exactly where the place is past the table.
    pub fn session(&self, place: u64) -> Option<Session>
        ensures { result ≡ slice_get self.now.state.table.sessions place }
    {
        self.found.parts.sessions.get(place)
    }

    /// The sessions in order of their places.
    pub fn sessions(&self) -> &[Session]
        ensures { result.now ≡ self.now.state.table.sessions }
    {
        self.found.parts.sessions.as_slice()
    }

    /// What is to be mended: copies of the superblock in order of number, then header slots in order, each with the class of
    /// what is shown there.
    pub fn to_mend(&self) -> &[Mend]
        ensures { result.now ≡ self.now.mends }
    {
        self.found.parts.rooms.mends.as_slice()
    }

    /// Gives the rooms back; nothing is mended. It touches no disk.
    pub fn close(self) -> Rooms
        ensures { result.layout ≡ self.state.file.layout }
    {
        let Surveyed { found } = self;
        let SurveyedFile { parts, .. } = found;
        parts.into_rooms()
    }

    /// Mends what `to_mend` lists, raises the boot, and hands out the replica: header sectors first, each needed one once, then one
    /// sync, where there was such a sector, then the copies that aren't members of the choice, each durable before the next one; and
    /// after that the copies 0, 1, 2 and 3 of a superblock with the next boot, which records the state as it was found. A stop at any
    /// moment leaves that state with the boot of before or with the next one, and so does a fault, by each log on which the plan
    /// rests; by one that is restarted at what is shown, whatever the copies showed. The rooms come back with an error.
    pub fn mend<D: Disk>(self, disk: &mut D) -> Result<Replica, (Rooms, MendError)>
        ensures state { IfOk result (λ replica. replica ≡ raised_state self.state) }
        ensures rooms { IfErr result (λ refused. refused.0.layout ≡ self.state.file.layout) }
        ensures events { AddsRaising (opening_events self) (D.told disk.old) (D.told disk.new) (without_rooms result) }
        ensures steps { AreSteps (format self.state.file) (opening_events self) (opening_steps self) }
        ensures read_back { IsReadBack (boot_fields self.state) (D.told disk.new) (without_rooms result) }
        ensures unharmed { IsUnharmed (D.told disk.new) (without_rooms result) }
        ensures over { (base : Told) (g : Grade) (view : View) → IsPlannedOf self base → RestsOnDisk g self.state.file view base
            → Represents self.state (first_state self.state.file base view) → RaisesOver g view self base }
        ensures anew { (base : Told) (g : Grade) (view : View) → IsPlannedOf self (restarted base) → IsImage base.shown
            → IsFound (shape self.state.file) (unit_at self.state.file.layout self.state.file.cluster base.shown) view
            → AreDistinctUnits (unit_at self.state.file.layout self.state.file.cluster base.shown) → StandsFor g (unit_at self.state.file.layout self.state.file.cluster base.shown) view
            → Represents self.state (first_state self.state.file base view) → RaisesAnew g view self (restarted base) }
        ensures cause { IsBlamed is_mend_fault (D.faults disk.old) (D.faults disk.new) (without_rooms result) }
    {
        let Surveyed { found } = self;
        match mend_file(disk, found) {
            Ok(parts) => Ok(Replica { parts }),
            Err(refused) => Err(refused),
        }
    }
}

/// What a file shows: its state, and what is to be mended before calls may work on it; or the first reason of the order of
/// open why it isn't opened, and the rooms. It syncs once, then reads each copy of the superblock once, each block of the
/// trailer that it names twice, and each sector of the header ring, each slot of the ring of prepares and each reply slot
/// once, and writes nothing. Where sectors of the file were damaged, lost or swapped before, it finds a state that the file had,
/// or refuses it because of a sector that is hurt; and where they were before other opens, too, one that it had since the last of
/// these that raised its boot.
pub fn survey<D: Disk>(disk: &mut D, rooms: Rooms) -> Result<Surveyed, (Rooms, OpenError)>
    ensures kept { IfOk result (λ survey. survey.state.file.layout ≡ rooms.layout) }
    ensures given_back { IfErr result (λ refused. refused.0.layout ≡ rooms.layout) }
    ensures answer { TellsSurvey rooms.layout (D.told disk.old) (state_of result) }
    ensures hurt { TellsHurt rooms.layout (D.told disk.old) (state_of result) }
    ensures lived { TellsLived rooms.layout (D.told disk.old) (state_of result) }
    ensures mends { IfOk result (TellsMends rooms.layout (D.told disk.old)) }
    ensures barrier { Syncs (D.told disk.old) (D.told disk.new) (state_of result) }
    ensures planned { (t : Told) → D.told disk.new ≡ Some t → IfOk result (λ survey. IsPlanned survey.state.file survey.state.headers survey.mends survey.state.fields survey.chosen.members t) }
    ensures cause { IsBlamed is_open_fault (D.faults disk.old) (D.faults disk.new) (state_of result) }
{
    match survey_file(disk, rooms) {
        Ok(found) => Ok(Surveyed { found }),
        Err(refused) => Err(refused),
    }
}
