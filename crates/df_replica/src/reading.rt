// The reads of a replica: a unit is lent from the room that it was read into, exactly where its place shows the one that is known.
ghost use Rattle.std.specs.{Prelude.{◌≡◌, ◌<◌, ◌%◌, true, slice_get, IfOk}, Borrow.{sem}, Io.BufRead.{Rests}};
ghost use Rattle.df_replica.specs.Below.{HasCause, IsBlamed, WalPrepares, Prepare as AsPrepare, place_in, IsCheck, ReadPrepare};
ghost use Rattle.df_replica.specs.{Below.{ToReadPrepare, is_prepare_fault, prepare_sum, first_refusal, prepare_refusals, IsState, memory}, Answering.{ServesRead, answer_of}};
ghost use Rattle.df_replica.specs.{Lending.{LendsWrittenPrepare}, Reading.{IsKnownUnit, IsLoaded, IsReadPrepare, check_in, in_words, prepare_found, prepare_wanted}};
ghost use Rattle.df_replica.specs.{contracts.replica.Replica.{the_row}, Stopping.{left_by}};
ghost use Rattle.df_headers.specs.Ring.{IsHeaderTable};
ghost use Rattle.df_opening.specs.Held.{AreAsBefore, AreLogRoomsOf};

use crate::refusing::prepare_refusal;
use crate::replica::end_calls;
use crate::{DataFile, Replica};
use df_base::Failed;
use df_buffers::{Identity, Prepare, Sound};
use df_disk::Disk;
use df_headers::HeaderTable;
use df_layout::{Class, Layout, Place, Zone};
use df_model::PrepareError;
use df_opening::LogRooms;

// The place of the prepare of an op.
fn prepare_place(layout: &Layout, op: u64) -> Place
    ensures { result ≡ place_in WalPrepares (op % layout.now.slots) }
{
    Place {
        zone: Zone::WalPrepares,
        index: op % u64::from(layout.slots),
    }
}

// The prepare of an op that is kept, with the checksum of the header in its slot.
fn prepare_wanted(file: &DataFile, headers: &HeaderTable, op: u64) -> Identity
    requires table { IsHeaderTable file.now.layout file.now.cluster headers.now }
    ensures identity { result ≡ prepare_wanted file.now headers.now op }
    ensures check { IsCheck (check_in (slice_get headers.now (op % file.now.layout.slots))) }
{
    let place = prepare_place(&file.layout, op);
    let header = headers.get(place.index as u32);
    Identity::known(&file.layout, file.cluster, place, header.checksum)
}

// Reads the slot of an op that is kept: None exactly where its prepare is there, which the room holds then.
fn load_prepare<D: Disk>(
    disk: &mut D,
    file: &DataFile,
    op: u64,
    rooms: &mut LogRooms,
) -> Result<Option<Class>, Failed>
    requires rooms { AreLogRoomsOf file.now.layout file.now.cluster rooms.old }
    ensures rooms { AreAsBefore rooms.old rooms.new }
    ensures check { IsCheck (check_in (slice_get rooms.old.headers (op % file.now.layout.slots))) }
    ensures loaded { IfOk result (λ wrong. IsLoaded AsPrepare (prepare_wanted file.now rooms.old.headers op) (D.told disk.old) wrong rooms.new.prepare.held) }
    ensures same { D.told disk.new ≡ D.told disk.old }
    ensures cause { HasCause (D.faults disk.old) (D.faults disk.new) result }
{
    let identity = prepare_wanted(file, &rooms.headers, op);
    rooms.prepare.load(disk, &identity)
}

impl Replica {
    // Why a prepare isn't read.
    fn prepare_refusal(&self, op: u64) -> Option<PrepareError>
        ensures why { result ≡ first_refusal (prepare_refusals (memory self.now) op) }
        ensures state { IsState self.now }
    {
        // The state makes sense.
        let _file = &self.parts.file;
        prepare_refusal(&self.counters(), op)
    }

    /// Lends a prepare that is kept, from the room that its slot is read into, by one device call: the ops above the checkpoint's up to
    /// the head are kept. It is lent exactly where the slot shows the unit whose header the replica knows; else `Damaged` has the
    /// class of what is shown. What is lent was written there, also where sectors were struck since the open. After a fault no call
    /// may follow.
    pub fn read_prepare<D: Disk>(
        &mut self,
        disk: &mut D,
        op: u64,
    ) -> Result<&Sound<Prepare>, PrepareError>
        requires live { self.old.live ≡ true }
        ensures* after { sem 𝓛 (Rests the_row self.entry (λ s. s ≡ left_by is_prepare_fault self.entry.now result)) }
        ensures exact { IsReadPrepare op self.old (D.told disk.old) (in_words (λ u. u.now.unit) result) }
        ensures lent { IfOk result (λ u. IsKnownUnit AsPrepare self.old.file (place_in WalPrepares (op % self.old.file.layout.slots)) (prepare_sum (memory self.old) op) u.now.unit) }
        ensures written { LendsWrittenPrepare op self.old (in_words (λ u. u.now.unit) result) (D.told disk.old) }
        ensures call { ServesRead (ReadPrepare op) self.old (left_by is_prepare_fault self.old result) (D.told disk.old)
            (prepare_found (in_words (λ u. u.now.unit) result)) (answer_of is_prepare_fault ToReadPrepare (in_words (λ u. u.now.unit) result)) }
        ensures same { D.told disk.new ≡ D.told disk.old }
        ensures cause { IsBlamed is_prepare_fault (D.faults disk.old) (D.faults disk.new) result }
    {
        if let Some(error) = self.prepare_refusal(op) {
            return Err(error);
        }
        let parts = &mut self.parts;
        let wrong = match load_prepare(disk, &parts.file, op, &mut parts.rooms) {
            Ok(wrong) => wrong,
            Err(_) => {
                end_calls(&mut self.parts.live);
                return Err(PrepareError::DiskFault);
            }
        };
        match wrong {
            Some(class) => Err(PrepareError::Damaged {
                place: prepare_place(&self.parts.file.layout, op),
                class,
            }),
            None => Ok(self.parts.rooms.prepare.unit()),
        }
    }
}
