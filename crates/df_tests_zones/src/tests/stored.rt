// A disk in memory, replies that are put on it, and the sessions of those who asked.
ghost use Rattle.std.specs.Prelude.{◌≡◌, ◌≤◌, length, IsSome, None};
ghost use Rattle.df_base.specs.Causes.{HasCause};
ghost use Rattle.df_layout.specs.declared.layout.Layout.{Layout as AnyLayout};
ghost use Rattle.df_format.specs.{Rules.{ObeysRules}, Own.{own_place}, Making.{for_body}};

use df_base::{Failed, SECTOR, check};
use df_buffers::{Raw, Reply};
use df_disk::Disk;
use df_format::{Header, Kind, SuperFields};
use df_layout::{Layout, Zone};
use df_places::Shelf;
use df_replies::{ReplyTable, write_reply};
use df_sessions::SessionTable;
use std::alloc::Global;
use std::process::Abort;

// A disk of 80 sectors that tells nothing, counts its calls, and whose calls of some numbers fail, from 1 on.
#[derive(Drop)]
pub(crate) struct Board {
    bytes: Vec<u8>,
    pub(crate) calls: u64,
    first: u64,
    last: u64,
    pub(crate) faults: u64,
}

impl Board {
    // One whose calls fail from the first of these numbers to the last.
    pub(crate) fn failing(rt: &impl Abort, alloc: Global, first: u64, last: u64) -> Board {
        Board {
            bytes: vec![in alloc; 0u8; 80 * SECTOR].expect(rt, "memory of a disk"),
            calls: 0,
            first,
            last,
            faults: 0,
        }
    }

    fn count(&mut self) -> Result<(), Failed>
        ensures { HasCause self.old.faults self.new.faults result }
    {
        self.calls = self.calls.saturating_add(1);
        if self.first <= self.calls && self.calls <= self.last {
            self.faults = self.faults.saturating_add(1);
            return Err(Failed);
        }
        Ok(())
    }
}

impl Disk for Board {
    ghost told = { λ _. None };

    ghost faults = { λ d. d.faults };

    fn read(&mut self, at: u64, into: &mut [u8]) -> Result<(), Failed> {
        self.count()?;
        let from = at as usize * SECTOR;
        if from + into.len() <= self.bytes.len() {
            into.copy_from_slice(&self.bytes[from..from + into.len()]);
        }
        Ok(())
    }

    fn write(&mut self, at: u64, bytes: &[u8]) -> Result<(), Failed> {
        self.count()?;
        let from = at as usize * SECTOR;
        if from + bytes.len() <= self.bytes.len() {
            self.bytes[from..from + bytes.len()].copy_from_slice(bytes);
        }
        Ok(())
    }

    fn sync(&mut self) -> Result<(), Failed> {
        self.count()
    }
}

// A reply by its numbers; client, request, op, boot and checkpoint are 1 at the least. Its mark is this many ops ahead of its own, and
// where it names no boot, it is of version 1.
#[derive(Clone, Copy)]
pub(crate) struct Stored {
    pub(crate) client: u8,
    pub(crate) request: u8,
    pub(crate) op: u8,
    pub(crate) boot: Option<u8>,
    pub(crate) ahead: u8,
    pub(crate) checkpoint: u8,
    pub(crate) slot: u8,
}

// Its header, as its maker gives it.
#[tactic(auto, unfolding(df_format::specs::Own::own_place, df_format::specs::Spelling::no_checksum))]
fn header_of(stored: &Stored, body: &[u8]) -> Header
    requires body { length body.now ≤ 7936 }
    ensures rules { ObeysRules (for_body result body.now) }
    ensures kind { result.kind ≡ Kind.Reply }
    ensures own { (layout : AnyLayout) → layout.clients ≡ 4 → IsSome (own_place layout Zone.ClientReplies result) }
{
    let op = u64::from(stored.op.max(1));
    let first = Header {
        checksum_body: check(body),
        client: u128::from(stored.client.max(1)),
        op,
        request: u64::from(stored.request.max(1)),
        mark: op + u64::from(stored.ahead),
        checkpoint: u64::from(stored.checkpoint.max(1)),
        slot: u32::from(stored.slot % 4),
        ..Header::of(Kind::Reply, 7)
    };
    match stored.boot {
        None => first,
        Some(boot) => Header {
            version: 2,
            boot: u64::from(boot.max(1)),
            ..first
        },
    }
}

// A room for a reply, as one that was used before.
pub(crate) fn room_for(rt: &impl Abort, alloc: Global, layout: &Layout) -> Raw<Reply>
    ensures { result.layout ≡ layout.now }
{
    let mut room = Raw::reserve(alloc, layout).expect(rt, "memory of a room");
    room.bytes_mut().fill(0xa5);
    room
}

// Writes a reply with this body into its slot of layout small.
pub(crate) fn put(
    rt: &impl Abort,
    alloc: Global,
    board: &mut Board,
    stored: &Stored,
    body: &[u8],
) -> Result<(), Failed>
    requires { length body.now ≤ 7936 }
{
    let layout = Layout::small();
    let header = header_of(stored, body);
    let unit = room_for(rt, alloc, &layout).make(header, body);
    write_reply(board, &layout, &unit)
}

// An empty table of layout small.
pub(crate) fn new_table(rt: &impl Abort, alloc: Global) -> ReplyTable
    ensures { length result ≡ 4 }
{
    ReplyTable::reserve(alloc, &Layout::small()).expect(rt, "memory of a table")
}

// Reads each slot of layout small into the table.
pub(crate) fn scan(
    rt: &impl Abort,
    alloc: Global,
    board: &mut Board,
    table: &mut ReplyTable,
) -> Result<(), Failed>
    requires { length table.old ≡ 4 }
    ensures { length table.new ≡ 4 }
{
    let layout = Layout::small();
    let mut shelf = Shelf::over(layout, room_for(rt, alloc, &layout));
    table.scan(board, &layout, 7, &mut shelf)
}

// Notes a client's request, where the table has room for it.
pub(crate) fn ask(sessions: &mut SessionTable, stored: &Stored)
    requires { sessions.old.max ≡ 4 }
    ensures { sessions.new.max ≡ 4 }
{
    let client = u128::from(stored.client);
    if client != 0 && (sessions.place_of(client).is_some() || sessions.len() < 4) {
        let _ = sessions.apply(client, u64::from(stored.request), u64::from(stored.op));
    }
}

// The superblock of a boot, which names no reply: of version 1 in boot 0, and else of version 2.
pub(crate) fn fields_of(boot: u64) -> SuperFields {
    let version = if boot == 0 { 1 } else { 2 };
    SuperFields {
        version,
        boot,
        ..SuperFields::of(&Layout::small(), 7)
    }
}
