// The append of a replica: the next prepare is made in its room, and is durable, with its header, before anything in memory
// moves on.
ghost use Rattle.std.specs.Prelude.{◌≡◌, ◌+◌, ℕ, List, length, true, IsSome, IfOk, OnErr, OnOk};
ghost use Rattle.df_replica.specs.Below.{HasCause, IsBlamed, Adds, WalPrepares, Prepare as AsPrepare, for_body, own_place, place_in, ObeysRules};
ghost use Rattle.df_replica.specs.{Below.{IsCheck, with_header as table_with, Append, is_append_fault, append_refusals, first_refusal, IsState, memory}, Answering.{Serves, answer_of, as_append}};
ghost use Rattle.df_replica.specs.{Own.{AddsOwn}, Refusing.{AreCounters}, Appending.{IsAppendCall, IsMadeUnit, MayBeMade, MayNext, MayNote, append_events, header_given, next_unit}};
ghost use Rattle.df_replica.specs.Appending.{noted, prepare_events, receipt_of, unit_made, with_header, with_prepare_appended};
ghost use Rattle.df_journal.specs.Below.{IsInOwnSlot};
ghost use Rattle.df_sessions.specs.Table.{IsSessionTable as IsSessions};
ghost use Rattle.df_opening.specs.Held.{AreLogRoomsOf};

use crate::refusing::{Counters, request_refusal, session_of, staged_refusal};
use crate::{DataFile, Replica};
use df_base::Failed;
use df_disk::Disk;
use df_format::{HEADER_VERSION, Header, Kind};
use df_journal::append;
use df_model::{AppendError, Receipt};
use df_opening::LogRooms;

// Makes a prepare in its room, and makes it durable, with its header.
fn append_in<D: Disk>(
    disk: &mut D,
    file: &DataFile,
    header: Header,
    body: &[u8],
    rooms: &mut LogRooms,
) -> Result<Header, Failed>
    requires rooms { AreLogRoomsOf file.now.layout header.cluster rooms.old }
    requires may { MayBeMade file.now.layout WalPrepares AsPrepare header body.now }
    ensures events { Adds (prepare_events file.now.layout (unit_made header body.now) rooms.old.headers) (D.told disk.old) (D.told disk.new) result }
    ensures made { IsMadeUnit file.now.layout (place_in WalPrepares (unit_made header body.now).header.slot) (unit_made header body.now) result }
    ensures table { OnOk result (rooms.new.headers ≡ table_with (unit_made header body.now) rooms.old.headers) }
    ensures rooms { AreLogRoomsOf file.now.layout header.cluster rooms.new }
    ensures cause { HasCause (D.faults disk.old) (D.faults disk.new) result }
{
    rooms.prepare.make(header, body);
    let unit = rooms.prepare.unit();
    let made = *unit.header();
    match append(
        disk,
        &file.layout,
        unit,
        &mut rooms.headers,
        &mut rooms.sector,
    ) {
        Ok(()) => Ok(made),
        Err(failed) => Err(failed),
    }
}

impl Replica {
    // What the maker of the next prepare says of it.
    #[tactic(auto, unfolding(df_format::specs::Own::own_place))]
    fn header_given(&self, client: u128, request: u64, body: &[u8]) -> Header
        requires { MayNext self.now client request (length body.now) }
        ensures value { result ≡ header_given self.now client request }
        ensures rules { ObeysRules (for_body result body.now) }
        ensures own { IsSome (own_place self.now.file.layout WalPrepares result) }
    {
        let parent = self.parts.head_checksum;
        Header {
            parent,
            client,
            op: self.parts.head + 1,
            request,
            mark: self.parts.replies,
            checkpoint: self.parts.content.fields().sequence,
            slot: ((self.parts.head + 1) % u64::from(self.parts.file.layout.slots)) as u32,
            version: HEADER_VERSION,
            boot: self.parts.content.fields().boot,
            group: self.parts.head + 1,
            group_last: self.parts.head + 1,
            ..Header::of(Kind::Prepare, self.parts.file.cluster)
        }
    }

    // The numbers that refusals go by.
    pub(crate) fn counters(&self) -> Counters
        ensures { AreCounters (memory self.now) result }
    {
        Counters {
            op: self.parts.content.fields().op,
            head: self.parts.head,
            replies: self.parts.replies,
            sessions: self.parts.sessions.len(),
            places: u64::from(self.parts.file.layout.clients),
            slots: u64::from(self.parts.file.layout.slots),
            message_room: u64::from(self.parts.file.layout.message_size) - 256,
        }
    }

    // Why an append is refused.
    fn append_refusal(&self, client: u128, request: u64, size: u64) -> Option<AppendError>
        ensures why { (body : List ℕ) → size ≡ length body → result ≡ first_refusal (append_refusals (memory self.now) client request body) }
        ensures state { IsState self.now }
        ensures table { IsSessions self.now.table }
    {
        // The table is one.
        let _count = self.parts.sessions.len();
        let last = session_of(&self.parts.sessions, client);
        match request_refusal(&self.counters(), last, client, request, size) {
            Some(error) => Some(error),
            None => staged_refusal(self.parts.staging.len()),
        }
    }

    // Makes the next prepare and makes it durable, with its header.
    fn write_next<D: Disk>(
        &mut self,
        disk: &mut D,
        client: u128,
        request: u64,
        body: &[u8],
    ) -> Result<Header, Failed>
        requires { MayNext self.old client request (length body.now) }
        ensures events { Adds (append_events self.old (next_unit self.old client request body.now)) (D.told disk.old) (D.told disk.new) result }
        ensures made { IsMadeUnit self.old.file.layout (place_in WalPrepares (next_unit self.old client request body.now).header.slot) (next_unit self.old client request body.now) result }
        ensures state { OnOk result (self.new ≡ with_header self.old (next_unit self.old client request body.now)) }
        ensures kept { OnErr result (self.new ≡ record self.old { headers = self.new.headers }) }
        ensures cause { HasCause (D.faults disk.old) (D.faults disk.new) result }
    {
        let header = self.header_given(client, request, body);
        let parts = &mut self.parts;
        append_in(disk, &parts.file, header, body, &mut parts.rooms)
    }

    // Notes a prepare that is durable.
    fn note(&mut self, made: &Header)
        requires may { MayNote self.old made.now.client made.now.request }
        requires op { made.now.op ≡ self.old.head + 1 }
        requires sum { IsCheck made.now.checksum }
        ensures { self.new ≡ noted self.old made.now }
    {
        self.parts.head = made.op;
        self.parts.head_checksum = made.checksum;
        self.parts.waiting.push(made.checksum);
        self.parts
            .sessions
            .apply(made.client, made.request, made.op);
    }

    // Appends the next prepare.
    fn append_next<D: Disk>(
        &mut self,
        disk: &mut D,
        client: u128,
        request: u64,
        body: &[u8],
    ) -> Result<Receipt, Failed>
        requires { MayNext self.old client request (length body.now) }
        ensures events { Adds (append_events self.old (next_unit self.old client request body.now)) (D.told disk.old) (D.told disk.new) result }
        ensures own { IsInOwnSlot self.old.file.layout (next_unit self.old client request body.now) }
        ensures receipt { IfOk result (λ r. r ≡ receipt_of (next_unit self.old client request body.now).header) }
        ensures state { OnOk result (self.new ≡ with_prepare_appended self.old (next_unit self.old client request body.now)) }
        ensures kept { OnErr result (self.new ≡ record self.old { headers = self.new.headers }) }
        ensures cause { HasCause (D.faults disk.old) (D.faults disk.new) result }
    {
        let made = self.write_next(disk, client, request, body)?;
        self.note(&made);
        let checksum = made.checksum;
        Ok(Receipt {
            op: made.op,
            checksum,
        })
    }

    /// Appends a client's request as the next prepare and makes it durable, with its header: the prepare, a sync, its header
    /// sector, a sync. The first reason of the order refuses it; a refusal touches no disk and changes nothing. After a fault
    /// the prepare may be kept or not, and no call may follow.
    pub fn append<D: Disk>(
        &mut self,
        disk: &mut D,
        client: u128,
        request: u64,
        body: &[u8],
    ) -> Result<Receipt, AppendError>
        requires live { self.old.live ≡ true }
        ensures exact { IsAppendCall client request body.now self.old self.new (D.told disk.old) (D.told disk.new) result }
        ensures call { Serves (Append client request body.now) self.old self.new (D.told disk.old) (D.told disk.new) (answer_of is_append_fault as_append result) }
        ensures own { AddsOwn (Append client request body.now) self.old (D.told disk.old) (D.told disk.new) (answer_of is_append_fault as_append result) }
        ensures cause { IsBlamed is_append_fault (D.faults disk.old) (D.faults disk.new) result }
    {
        if let Some(error) = self.append_refusal(client, request, body.len() as u64) {
            return Err(error);
        }
        match self.append_next(disk, client, request, body) {
            Ok(receipt) => Ok(receipt),
            Err(_) => {
                self.stop();
                Err(AppendError::DiskFault)
            }
        }
    }
}
