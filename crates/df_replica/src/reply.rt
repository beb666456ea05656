// The reply of a replica: the next reply is made in its room, and is durable in its client's slot before anything in memory
// moves on. Replies are stored in order of op.
ghost use Rattle.std.specs.Prelude.{◌≡◌, ◌<◌, ◌+◌, ◌^◌, ℕ, List, length, slice_get, true, Some, IsSome, IfOk, OnErr, OnOk};
ghost use Rattle.df_replica.specs.Below.{HasCause, IsBlamed, Adds, ClientReplies, for_body, own_place, place_in, ObeysRules, IsCheck};
ghost use Rattle.df_replica.specs.{Below.{sessions_of, is_reply_fault, place_of_op, first_refusal, reply_refusals, IsState, memory}, Answering.{Serves, answer_of, as_reply}};
ghost use Rattle.df_replica.specs.{Appending.{IsMadeUnit, MayBeMade, unit_made}, Own.{AddsOwn}};
ghost use Rattle.df_replica.specs.Replying.{IsReplyCall, MayReplyNext, first_check, next_reply, reply_calls, reply_events, reply_given, with_stored_reply};
ghost use Rattle.df_format.specs.declared.kind.Kind.TheVariants.{Reply as AsReply};
ghost use Rattle.df_replies.specs.Slots.{IsInReplySlot};
ghost use Rattle.df_sessions.specs.Table.{IsSessionTable};
ghost use Rattle.df_model.specs.Commands.{Reply as Replies};

use crate::refusing::reply_refusal;
use crate::{DataFile, Replica};
use df_base::{Check, Failed};
use df_buffers::Reply;
use df_disk::Disk;
use df_format::{HEADER_VERSION, Header, Kind};
use df_model::ReplyError;
use df_places::Shelf;
use df_replies::write_reply;
use df_sessions::{Session, SessionTable};

// The session at a place.
pub(crate) fn session_in(table: &SessionTable, place: u64) -> Session
    requires { place < length table.now.sessions }
    ensures { slice_get table.now.sessions place ≡ Some result }
{
    match table.get(place) {
        Some(session) => session,
        None => unreachable!(),
    }
}

// The place of the session whose last request has this op, and past all of them where none has.
fn place_of_op(table: &SessionTable, op: u64) -> u64
    ensures table { IsSessionTable table.now }
    ensures place { result ≡ place_of_op op (sessions_of table.now.sessions) }
{
    let count = table.len();
    let mut place = 0;
    while place < count {
        let session = session_in(table, place);
        if session.op == op {
            return place;
        }
        place += 1;
    }
    count
}

// A checksum is one.
pub(crate) fn as_check(check: Check) -> Check
    ensures value { result ≡ check }
    ensures check { IsCheck check }
{
    check
}

// The client of a session.
fn client_of(session: &Session) -> u128
    ensures value { result ≡ session.now.client }
    ensures small { result < 2 ^ 128 }
{
    session.client
}

// Makes a reply in its room, and makes it durable.
fn reply_in<D: Disk>(
    disk: &mut D,
    file: &DataFile,
    header: Header,
    body: &[u8],
    room: &mut Shelf<Reply>,
) -> Result<Header, Failed>
    requires room { room.old.layout ≡ file.now.layout }
    requires may { MayBeMade file.now.layout ClientReplies AsReply header body.now }
    ensures room { room.new.layout ≡ room.old.layout }
    ensures events { Adds (reply_calls file.now.layout (unit_made header body.now)) (D.told disk.old) (D.told disk.new) result }
    ensures made { IsMadeUnit file.now.layout (place_in ClientReplies (unit_made header body.now).header.slot) (unit_made header body.now) result }
    ensures cause { HasCause (D.faults disk.old) (D.faults disk.new) result }
{
    room.make(header, body);
    let unit = room.unit();
    let made = *unit.header();
    match write_reply(disk, &file.layout, unit) {
        Ok(()) => Ok(made),
        Err(failed) => Err(failed),
    }
}

impl Replica {
    // The checksum of the prepare that waits the longest.
    fn first_waiting(&self) -> Check
        requires { self.now.replies < self.now.head }
        ensures value { result ≡ first_check self.now.waiting }
        ensures check { IsCheck result }
    {
        let first = self.parts.waiting[0];
        as_check(first)
    }

    // What the maker of the next reply says of it.
    #[tactic(auto, unfolding(df_format::specs::Own::own_place))]
    fn reply_given(&self, body: &[u8]) -> Header
        requires { MayReplyNext self.now (length body.now) }
        ensures value { result ≡ reply_given self.now }
        ensures rules { ObeysRules (for_body result body.now) }
        ensures own { IsSome (own_place self.now.file.layout ClientReplies result) }
    {
        let place = place_of_op(&self.parts.sessions, self.parts.replies + 1);
        let session = session_in(&self.parts.sessions, place);
        let client = client_of(&session);
        let parent = self.first_waiting();
        Header {
            parent,
            client,
            op: self.parts.replies + 1,
            request: session.request,
            mark: self.parts.head,
            checkpoint: self.parts.content.fields().sequence,
            slot: place as u32,
            version: HEADER_VERSION,
            boot: self.parts.content.fields().boot,
            ..Header::of(Kind::Reply, self.parts.file.cluster)
        }
    }

    // Why a reply is refused.
    fn why_no_reply(&self, op: u64, size: u64) -> Option<ReplyError>
        ensures why { (body : List ℕ) → size ≡ length body → result ≡ first_refusal (reply_refusals (memory self.now) op body) }
        ensures state { IsState self.now }
    {
        // The state makes sense.
        let _count = self.parts.sessions.len();
        reply_refusal(&self.counters(), op, size)
    }

    // Makes the next reply and makes it durable.
    fn write_next_reply<D: Disk>(&mut self, disk: &mut D, body: &[u8]) -> Result<Header, Failed>
        requires { MayReplyNext self.old (length body.now) }
        ensures events { Adds (reply_events self.old (next_reply self.old body.now)) (D.told disk.old) (D.told disk.new) result }
        ensures made { IsMadeUnit self.old.file.layout (place_in ClientReplies (next_reply self.old body.now).header.slot) (next_reply self.old body.now) result }
        ensures state { self.new ≡ self.old }
        ensures cause { HasCause (D.faults disk.old) (D.faults disk.new) result }
    {
        let header = self.reply_given(body);
        let parts = &mut self.parts;
        reply_in(disk, &parts.file, header, body, &mut parts.rooms.reply)
    }

    // Notes a reply that is durable.
    fn note_reply(&mut self, made: &Header)
        requires waits { self.old.replies < self.old.head }
        requires place { made.now.slot < length self.old.table.sessions }
        ensures { self.new ≡ with_stored_reply self.old made.now }
    {
        self.parts.replies += 1;
        self.parts.waiting.remove(0);
        let checksum = made.checksum;
        self.parts.sessions.store(u64::from(made.slot), checksum);
    }

    // Stores the next reply.
    fn reply_next<D: Disk>(&mut self, disk: &mut D, body: &[u8]) -> Result<Check, Failed>
        requires { MayReplyNext self.old (length body.now) }
        ensures events { Adds (reply_events self.old (next_reply self.old body.now)) (D.told disk.old) (D.told disk.new) result }
        ensures own { IsInReplySlot self.old.file.layout (next_reply self.old body.now) }
        ensures check { IfOk result (λ check. check ≡ (next_reply self.old body.now).header.checksum) }
        ensures state { OnOk result (self.new ≡ with_stored_reply self.old (next_reply self.old body.now).header) }
        ensures kept { OnErr result (self.new ≡ self.old) }
        ensures cause { HasCause (D.faults disk.old) (D.faults disk.new) result }
    {
        let made = self.write_next_reply(disk, body)?;
        self.note_reply(&made);
        let checksum = made.checksum;
        Ok(checksum)
    }

    /// Stores the reply to the prepare that waits the longest, and makes it durable: one write into its client's own slot, and
    /// a sync. The answer is the reply's checksum. The first reason of the order refuses it: nothing waits, another op is
    /// next, the body is too long; a refusal touches no disk and changes nothing. After a fault the reply may be kept or not,
    /// and no call may follow.
    pub fn reply<D: Disk>(
        &mut self,
        disk: &mut D,
        op: u64,
        body: &[u8],
    ) -> Result<Check, ReplyError>
        requires live { self.old.live ≡ true }
        ensures exact { IsReplyCall op body.now self.old self.new (D.told disk.old) (D.told disk.new) result }
        ensures call { Serves (Replies op body.now) self.old self.new (D.told disk.old) (D.told disk.new) (answer_of is_reply_fault as_reply result) }
        ensures own { AddsOwn (Replies op body.now) self.old (D.told disk.old) (D.told disk.new) (answer_of is_reply_fault as_reply result) }
        ensures cause { IsBlamed is_reply_fault (D.faults disk.old) (D.faults disk.new) result }
    {
        if let Some(error) = self.why_no_reply(op, body.len() as u64) {
            return Err(error);
        }
        match self.reply_next(disk, body) {
            Ok(check) => Ok(check),
            Err(_) => {
                self.stop();
                Err(ReplyError::DiskFault)
            }
        }
    }
}
