// All known units, in their order: the trailer, the blocks that it references, in order of address, the prepares that the superblock names, from its head down, and the replies.
ghost use Rattle.std.specs.Prelude.{◌≡◌, ◌≤◌, ◌+◌, List, length, IfOk};
ghost use Rattle.df_disk.specs.Told.{Told};
ghost use Rattle.df_format.specs.declared.kind.Kind.TheVariants.{Block as AsBlock, Prepare as AsPrepare};
ghost use Rattle.df_opening.specs.Below.{shape};
ghost use Rattle.df_sessions.specs.{Requests.{sessions_of}, declared.session.Session.{Session}};
ghost use Rattle.df_mirror.specs.{Known.{ShowsTrailer}, Mends.{AreInOrder, AreLate, AreOfKind, IsRefusal}, Outside.{Tell, around, counts}, Statuses.{AreBlamed}};
ghost use Rattle.df_mirror.specs.Walks.{HasTrailerText, HasWaiting, Mended, ShowsAll, ShowsBlocks, ShowsGrid, ShowsLog, ShowsNamed, content_of_superblock, superblock_units};

use crate::ending::Ending;
use crate::replies::{mend_replies, sessions_at_head};
use crate::superblock::Superblock;
use crate::trailer::{mend_chain, read_trailer};
use crate::unit::mend_unit;
use df_base::Sink;
use df_buffers::{Block, Identity, Prepare, Trailer};
use df_disk::Disk;
use df_grid::{Grid, known_at};
use df_journal::{Start, scan, slot_of};
use df_layout::{Place, Zone};
use df_places::Shelf;
use df_rooms::{LogRooms, Rooms};
use df_sessions::SessionTable;

/// All the memory of a mending.
#[derive(Drop)]
pub(crate) struct Reserved {
    pub(crate) rooms: Rooms,
    pub(crate) trailer: Shelf<Trailer>,
    pub(crate) block: Shelf<Block>,
}

// Mends the referenced blocks, in order of address. Answers how many were written.
fn mend_blocks<A: Disk, B: Disk, W: Sink>(
    first: &mut A,
    second: &mut B,
    sink: &mut W,
    base: &Superblock,
    grid: &Grid,
    shelf: &mut Shelf<Block>,
) -> Result<u64, Ending>
    requires layout { shelf.old.layout ≡ base.now.file.layout }
    ensures mends { (sessions : List Session) (t o : Told) → Tell t o (around (A.told first.old) (B.told second.old) (W.written sink.old))
        → HasTrailerText base.now (superblock_units base.now t.shown) grid.now sessions × HasWaiting base.now sessions
        → Mended base.now (AreOfKind AsBlock) t o (around (A.told first.old) (B.told second.old) (W.written sink.old))
        (around (A.told first.new) (B.told second.new) (W.written sink.new)) result (λ image. ShowsBlocks base.now image grid.now sessions base.now.file.layout.blocks) }
    ensures unrefused { IsRefusal result → ⊥ }
    ensures few { IfOk result (λ written. written ≤ base.now.file.layout.blocks) }
    ensures same { B.told second.new ≡ B.told second.old }
    ensures blamed { AreBlamed (counts (A.faults first.old) (B.faults second.old) (W.faults sink.old)) (counts (A.faults first.new) (B.faults second.new) (W.faults sink.new)) result }
{
    let mut written = 0;
    for before in 0..u64::from(base.file.layout.blocks) {
        let address = before + 1;
        let Some(checksum) = grid.live(address) else {
            continue;
        };
        let block = known_at(&base.file.layout, base.file.cluster, address, checksum);
        match mend_unit(first, second, sink, shelf, &block) {
            Ok(more) => written += more,
            Err(ending) => return Err(ending),
        }
    }
    Ok(written)
}

// Mends the prepares that the superblock names, from its head down to the one above its checkpoint. Answers how many were written.
fn mend_prepares<A: Disk, B: Disk, W: Sink>(
    first: &mut A,
    second: &mut B,
    sink: &mut W,
    base: &Superblock,
    shelf: &mut Shelf<Prepare>,
) -> Result<u64, Ending>
    requires layout { shelf.old.layout ≡ base.now.file.layout }
    ensures mends { (t o : Told) → Tell t o (around (A.told first.old) (B.told second.old) (W.written sink.old)) → ShowsGrid base.now (superblock_units base.now t.shown)
        → Mended base.now (AreOfKind AsPrepare) t o (around (A.told first.old) (B.told second.old) (W.written sink.old))
        (around (A.told first.new) (B.told second.new) (W.written sink.new)) result (ShowsNamed base.now) }
    ensures unrefused { IsRefusal result → ⊥ }
    ensures back { IfOk result (λ mended. (shelf.new.layout ≡ base.now.file.layout) × (mended ≤ base.now.file.layout.slots)) }
    ensures same { B.told second.new ≡ B.told second.old }
    ensures blamed { AreBlamed (counts (A.faults first.old) (B.faults second.old) (W.faults sink.old)) (counts (A.faults first.new) (B.faults second.new) (W.faults sink.new)) result }
{
    let fields = base.content.fields();
    let mut named = fields.head_checksum;
    let mut op = fields.head;
    let mut mended = 0;
    while fields.op < op {
        let place = Place {
            zone: Zone::WalPrepares,
            index: u64::from(slot_of(&base.file.layout, op)),
        };
        let prepare = Identity::known(&base.file.layout, base.file.cluster, place, named);
        match mend_unit(first, second, sink, shelf, &prepare) {
            Ok(more) => {
                named = shelf.unit().header().parent;
                mended += more;
            }
            Err(ending) => return Err(ending),
        }
        op -= 1;
    }
    Ok(mended)
}

// Mends the prepares, and then the replies.
fn mend_log<A: Disk, B: Disk, W: Sink>(
    first: &mut A,
    second: &mut B,
    sink: &mut W,
    base: &Superblock,
    rooms: LogRooms,
    sessions: SessionTable,
) -> Result<u64, Ending>
    requires rooms { rooms.layout ≡ base.now.file.layout }
    requires places { sessions.max ≡ base.now.file.layout.clients }
    requires few { length sessions.sessions ≤ sessions.max }
    ensures mends { (t o : Told) → Tell t o (around (A.told first.old) (B.told second.old) (W.written sink.old))
        → ShowsGrid base.now (superblock_units base.now t.shown)
        → (says : ShowsTrailer (shape base.now.file) (superblock_units base.now t.shown) (content_of_superblock base.now)) → says.parts.sessions ≡ sessions_of sessions.sessions
        → Mended base.now AreLate t o (around (A.told first.old) (B.told second.old) (W.written sink.old))
        (around (A.told first.new) (B.told second.new) (W.written sink.new)) result (ShowsLog base.now (superblock_units base.now t.shown)) }
    ensures unrefused { IsRefusal result → ⊥ }
    ensures few { IfOk result (λ mended. mended ≤ base.now.file.layout.slots + 64) }
    ensures same { B.told second.new ≡ B.told second.old }
    ensures blamed { AreBlamed (counts (A.faults first.old) (B.faults second.old) (W.faults sink.old)) (counts (A.faults first.new) (B.faults second.new) (W.faults sink.new)) result }
{
    let LogRooms {
        layout,
        superblock: _,
        mut sector,
        mut prepare,
        mut reply,
        headers: _,
        mut slots,
        replies: _,
        mends: _,
    } = rooms;
    let prepares = match mend_prepares(first, second, sink, base, &mut prepare) {
        Ok(mended) => mended,
        Err(ending) => return Err(ending),
    };
    let start = Start::of(base.content.fields());
    let room = prepare.into_room();
    let (_, done) = scan(first, &layout, &start, &mut slots, &mut sector, room);
    match done {
        Ok(()) => {
            let sessions = sessions_at_head(base, &slots, sessions);
            match mend_replies(first, second, sink, base, &slots, &sessions, &mut reply) {
                Ok(replies) => Ok(prepares + replies),
                Err(ending) => Err(ending),
            }
        }
        Err(_) => Err(Ending::First),
    }
}

/// Mends all known units of the first file. Answers how many were written.
pub(crate) fn mend_all<A: Disk, B: Disk, W: Sink>(
    first: &mut A,
    second: &mut B,
    sink: &mut W,
    base: &Superblock,
    reserved: Reserved,
) -> Result<u64, Ending>
    requires rooms { reserved.rooms.layout ≡ base.now.file.layout }
    requires trailer { reserved.trailer.layout ≡ base.now.file.layout }
    requires block { reserved.block.layout ≡ base.now.file.layout }
    ensures mends { (t o : Told) → Tell t o (around (A.told first.old) (B.told second.old) (W.written sink.old))
        → Mended base.now AreInOrder t o (around (A.told first.old) (B.told second.old) (W.written sink.old))
        (around (A.told first.new) (B.told second.new) (W.written sink.new)) result (ShowsAll base.now) }
    ensures same { B.told second.new ≡ B.told second.old }
    ensures blamed { AreBlamed (counts (A.faults first.old) (B.faults second.old) (W.faults sink.old)) (counts (A.faults first.new) (B.faults second.new) (W.faults sink.new)) result }
{
    let Reserved {
        rooms,
        mut trailer,
        mut block,
    } = reserved;
    let (log, grid, room, _, _) = rooms.into_parts();
    let chain = match mend_chain(first, second, sink, base, &mut trailer) {
        Ok(mended) => mended,
        Err(ending) => return Err(ending),
    };
    let found = match read_trailer(first, base, grid, room) {
        Ok(found) => found,
        Err(ending) => return Err(ending),
    };
    let blocks = match mend_blocks(first, second, sink, base, &found.grid, &mut block) {
        Ok(mended) => mended,
        Err(ending) => return Err(ending),
    };
    match mend_log(first, second, sink, base, log, found.sessions) {
        Ok(mended) => Ok(chain + blocks + mended),
        Err(ending) => Err(ending),
    }
}
