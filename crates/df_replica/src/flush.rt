// Requests that are staged, and the flush that appends them as one group. A staged request is in memory alone, its body in the room
// that its prepare is made in and written from.
ghost use Rattle.std.specs.Prelude.{◌≡◌, ◌≤◌, ◌<◌, ◌+◌, ◌++◌, ℕ, List, [], length, option_map, true, Option, IfSome, IsSome, OnErr, OnOk};
ghost use Rattle.df_base.specs.declared.TheConstants.{GREATEST, HEADER};
ghost use Rattle.df_replica.specs.Below.{HasCause, IsBlamed, Adds, WalPrepares, for_body, own_place, ObeysRules, Stage, Flush, is_flush_fault};
ghost use Rattle.df_replica.specs.{Below.{stage_refusals, first_refusal, session_of_client, session_of, IsState, Told, memory, counted_staged}, Answering.{Serves, answer_of, as_flush, stage_answer}};
ghost use Rattle.df_replica.specs.{Own.{AddsOwn}, Refusing.{AreCounters}};
ghost use Rattle.df_replica.specs.Flushing.{AreHeld, AreMadeFor, AreSmall, HavePlaces, IsFlush, IsStage, MayBeIn, MaySeal, checks_of, flush_events, flush_units, flushed};
ghost use Rattle.df_replica.specs.Flushing.{group_events, group_in, group_prepares, header_in, last_check, request_made, sessions_staged, staged_with, with_requests};
ghost use Rattle.df_opening.specs.{Below.{AreStaging}, Held.{AreLogRoomsOf}};
ghost use Rattle.df_journal.specs.{Flush.{AreOwn, held_prepares, with_headers}, Tail.{AreNumbered}};
ghost use Rattle.df_sessions.specs.Table.{IsSessionTable as IsSessions};

use crate::refusing::{Counters, request_refusal, session_of};
use crate::{DataFile, Replica};
use arrayvec::ArrayVec;
use df_base::{Check, Failed};
use df_buffers::{Prepare, Sound};
use df_disk::Disk;
use df_format::{HEADER_VERSION, Header, Kind};
use df_journal::flush;
use df_model::{AppendError, FlushError};
use df_opening::{LogRooms, Staging};
use df_sessions::{Session, SessionTable};

// What the prepares of a group have alike.
#[derive(Clone, Copy)]
pub(crate) struct Group {
    pub(crate) file: DataFile,
    pub(crate) mark: u64,
    pub(crate) sequence: u64,
    pub(crate) boot: u64,
    pub(crate) first: u64,
    pub(crate) last: u64,
}

// What the maker of a prepare of the group says of it.
#[tactic(auto, unfolding(df_format::specs::Own::own_place))]
fn header_in(group: &Group, op: u64, parent: Check, client: u128, request: u64) -> Header
    requires may { MayBeIn group.now op parent }
    requires last { op ≤ group.now.last }
    requires client { 0 < client }
    requires request { (0 < request) × (request ≤ GREATEST) }
    ensures value { result ≡ header_in group.now op parent (request_made client request []) }
    ensures rules { (body : List ℕ) → HEADER + length body ≤ group.now.file.layout.message_size → ObeysRules (for_body result body) }
    ensures own { IsSome (own_place group.now.file.layout WalPrepares result) }
{
    Header {
        parent,
        client,
        op,
        request,
        mark: group.mark,
        checkpoint: group.sequence,
        slot: (op % u64::from(group.file.layout.slots)) as u32,
        version: HEADER_VERSION,
        boot: group.boot,
        group: group.first,
        group_last: group.last,
        ..Header::of(Kind::Prepare, group.file.cluster)
    }
}

// Makes the prepares of all that is staged, each the parent of the next.
fn seal_all(staging: &mut Staging, group: &Group, parent: Check)
    requires layout { staging.old.layout ≡ group.now.file.layout }
    requires may { MaySeal group.now group.now.first parent staging.old.requests }
    ensures requests { staging.new.requests ≡ [] }
    ensures units { held_prepares staging.new.sealed ≡ group_prepares group.now group.now.first parent staging.old.requests }
    ensures made { AreMadeFor group.now.file staging.new.sealed }
    ensures layout { staging.new.layout ≡ staging.old.layout }
{
    staging.loosen();
    let mut op = group.first;
    let mut before = parent;
    while staging.len() > 0 {
        let (client, request) = staging.request(0);
        before = staging.seal_first(header_in(group, op, before, client, request));
        op += 1;
    }
}

// Makes a group of prepares durable, with their headers.
fn flush_in<D: Disk>(
    disk: &mut D,
    file: &DataFile,
    group: &[Sound<Prepare>],
    rooms: &mut LogRooms,
) -> Result<(), Failed>
    requires some { 0 < length group.now }
    requires made { AreMadeFor file.now group.now }
    requires rooms { AreLogRoomsOf file.now.layout file.now.cluster rooms.old }
    ensures events { Adds (group_events file.now.layout (held_prepares group.now) rooms.old.headers) (D.told disk.old) (D.told disk.new) result }
    ensures own { AreOwn file.now.layout group.now }
    ensures table { OnOk result (rooms.new.headers ≡ with_headers (held_prepares group.now) rooms.old.headers) }
    ensures rooms { AreLogRoomsOf file.now.layout file.now.cluster rooms.new }
    ensures cause { HasCause (D.faults disk.old) (D.faults disk.new) result }
{
    flush(
        disk,
        &file.layout,
        group,
        &mut rooms.headers,
        &mut rooms.sector,
    )
}

// Notes the prepares of a group that is durable: the last one is the head, each waits for its reply, and its client's session has
// its request.
fn note_all(
    group: &[Sound<Prepare>],
    head: &mut u64,
    head_checksum: &mut Check,
    waiting: &mut ArrayVec<Check, 8>,
    sessions: &mut SessionTable,
)
    requires head { head.old + length group.now ≤ GREATEST }
    requires few { length waiting.old.items + length group.now ≤ 8 }
    requires places { HavePlaces sessions.old.max sessions.old.sessions (held_prepares group.now) }
    ensures head { head.new ≡ head.old + length group.now }
    ensures sum { head_checksum.new ≡ last_check head_checksum.old (held_prepares group.now) }
    ensures waiting { waiting.new.items ≡ waiting.old.items ++ checks_of (held_prepares group.now) }
    ensures sessions { sessions.new ≡ record sessions.old { sessions = with_requests (held_prepares group.now) sessions.old.sessions } }
{
    let mut i = 0;
    while i < group.len() {
        let made = group[i].header();
        *head += 1;
        *head_checksum = made.checksum;
        waiting.push(made.checksum);
        sessions.apply(made.client, made.request, made.op);
        i += 1;
    }
}

// The session of a client, as if this many of what is staged, from the first on, were appended after this head.
fn session_staged(
    table: &SessionTable,
    staging: &Staging,
    head: u64,
    count: u64,
    client: u128,
) -> Option<Session>
    requires count { count ≤ length staging.now.requests }
    requires ops { head + length staging.now.requests ≤ GREATEST }
    requires numbered { AreNumbered table.now.sessions }
    requires requests { AreSmall staging.now.requests }
    ensures session { session_of_client client (sessions_staged table.now.sessions staging.now.requests head count) ≡ option_map session_of result }
    ensures numbered { IfSome result (λ s. s.request ≤ GREATEST) }
{
    let mut last = session_of(table, client);
    let mut i = 0;
    while i < count {
        let (asker, request) = staging.request(i);
        i += 1;
        if asker == client {
            last = Some(Session {
                client,
                request,
                op: head + i,
                reply: None,
            });
        }
    }
    last
}

// How many places of the table would be taken, as if all that is staged were appended after this head.
fn places_staged(table: &SessionTable, staging: &Staging, head: u64) -> u64
    requires ops { head + length staging.now.requests ≤ GREATEST }
    requires numbered { AreNumbered table.now.sessions }
    requires requests { AreSmall staging.now.requests }
    ensures { result ≡ length (sessions_staged table.now.sessions staging.now.requests head (length staging.now.requests)) }
{
    let mut taken = table.len();
    let mut i = 0;
    while i < staging.len() {
        let (client, _) = staging.request(i);
        if session_staged(table, staging, head, i, client).is_none() {
            taken += 1;
        }
        i += 1;
    }
    taken
}

impl Replica {
    // The numbers that the refusals of `stage` go by: those of an append, as if what is staged were appended.
    fn staged_counters(&self) -> Counters
        ensures { AreCounters (counted_staged (memory self.now)) result }
    {
        let counters = self.counters();
        Counters {
            head: counters.head + self.parts.staging.len(),
            sessions: places_staged(&self.parts.sessions, &self.parts.staging, self.parts.head),
            ..counters
        }
    }

    // Why a request isn't staged.
    fn stage_refusal(&self, client: u128, request: u64, size: u64) -> Option<AppendError>
        ensures why { (body : List ℕ) → size ≡ length body → result ≡ first_refusal (stage_refusals (memory self.now) client request body) }
        ensures state { IsState self.now }
        ensures table { IsSessions self.now.table }
    {
        // The table is one.
        let _count = self.parts.sessions.len();
        let staging = &self.parts.staging;
        let last = session_staged(
            &self.parts.sessions,
            staging,
            self.parts.head,
            staging.len(),
            client,
        );
        request_refusal(&self.staged_counters(), last, client, request, size)
    }

    // Stages a request, and answers the op that its prepare is to get.
    fn stage_next(&mut self, client: u128, request: u64, body: &[u8]) -> u64
        requires { AreStaging (staged_with self.old (request_made client request body.now)) }
        ensures state { self.new ≡ staged_with self.old (request_made client request body.now) }
        ensures op { result ≡ self.old.head + length self.old.staged + 1 }
    {
        self.parts.staging.push(client, request, body);
        self.parts.head + self.parts.staging.len()
    }

    /// How many requests are staged.
    pub fn staged(&self) -> u64
        ensures { result ≡ length self.now.staged }
    {
        self.parts.staging.len()
    }

    /// Takes a client's request as one that the next flush appends, and answers the op that its prepare is to get. It touches no disk,
    /// and the file stays as it is. The first reason of an append's order refuses it, as if what is staged were appended without a
    /// reply; a refusal changes nothing.
    pub fn stage(&mut self, client: u128, request: u64, body: &[u8]) -> Result<u64, AppendError>
        requires live { self.old.live ≡ true }
        ensures exact { IsStage client request body.now self.old self.new result }
        ensures call { (told : Option Told) → Serves (Stage client request body.now) self.old self.new told told (stage_answer result) }
    {
        if let Some(error) = self.stage_refusal(client, request, body.len() as u64) {
            return Err(error);
        }
        Ok(self.stage_next(client, request, body))
    }

    // What the prepares of the group of all that is staged have alike.
    fn group(&self) -> Group
        ensures { result ≡ group_in self.now }
    {
        let fields = self.parts.content.fields();
        Group {
            file: self.parts.file,
            mark: self.parts.replies,
            sequence: fields.sequence,
            boot: fields.boot,
            first: self.parts.head + 1,
            last: self.parts.head + self.parts.staging.len(),
        }
    }

    // Makes the group of all that is staged, makes it durable with its headers, and notes it. Nothing is staged then.
    fn flush_next<D: Disk>(&mut self, disk: &mut D) -> Result<(), Failed>
        requires live { self.old.live ≡ true }
        requires some { 0 < length self.old.staged }
        ensures events { Adds (flush_events self.old) (D.told disk.old) (D.told disk.new) result }
        ensures held { AreHeld self.old.file (flush_units self.old) }
        ensures state { OnOk result (self.new ≡ flushed self.old (flush_units self.old)) }
        ensures kept { OnErr result (self.new ≡ record self.old { headers = self.new.headers; staged = [] }) }
        ensures cause { HasCause (D.faults disk.old) (D.faults disk.new) result }
    {
        let group = self.group();
        let parts = &mut self.parts;
        seal_all(&mut parts.staging, &group, parts.head_checksum);
        flush_in(disk, &parts.file, parts.staging.units(), &mut parts.rooms)?;
        note_all(
            parts.staging.units(),
            &mut parts.head,
            &mut parts.head_checksum,
            &mut parts.waiting,
            &mut parts.sessions,
        );
        Ok(())
    }

    /// Appends all that is staged as one group, and answers how many prepares it has: the prepares, in order of op, a sync, their one
    /// or two header sectors, a sync. A stop at any moment leaves the whole group or none of it. Where nothing is staged it is refused,
    /// and touches no disk. Nothing is staged after it. After a fault the group may be kept, all of it, or not, and no call may follow.
    pub fn flush<D: Disk>(&mut self, disk: &mut D) -> Result<u64, FlushError>
        requires live { self.old.live ≡ true }
        ensures exact { IsFlush self.old self.new (D.told disk.old) (D.told disk.new) result }
        ensures call { Serves Flush self.old self.new (D.told disk.old) (D.told disk.new) (answer_of is_flush_fault as_flush result) }
        ensures own { AddsOwn Flush self.old (D.told disk.old) (D.told disk.new) (answer_of is_flush_fault as_flush result) }
        ensures cause { IsBlamed is_flush_fault (D.faults disk.old) (D.faults disk.new) result }
    {
        let count = self.parts.staging.len();
        if count == 0 {
            return Err(FlushError::NothingStaged);
        }
        match self.flush_next(disk) {
            Ok(()) => Ok(count),
            Err(_) => {
                self.stop();
                Err(FlushError::DiskFault)
            }
        }
    }
}
