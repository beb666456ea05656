// The trailer of the first file: the chain of its blocks is mended, from the last to the first, each before the one that it names is known; then it is read, for what it references and the sessions.
ghost use Rattle.std.specs.Prelude.{◌≡◌, ◌+◌, ◌-◌, ◌<◌, ◌≤◌, ℕ, [], length, Some, IfErr, IfOk};
ghost use Rattle.df_base.specs.{Causes.{IsBlamed}, Image.{IsImage}, declared.TheConstants.{HEADER}};
ghost use Rattle.arrayvec.specs.ArrayVec.{array_vec_len};
ghost use Rattle.df_disk.specs.Told.{Told};
ghost use Rattle.df_format.specs.declared.kind.Kind.TheVariants.{Trailer as AsTrailer};
ghost use Rattle.df_opening.specs.Below.{shape};
ghost use Rattle.df_theory.specs.Trailer.{IsCount};
ghost use Rattle.df_trailer.specs.Reading.{HasRead};
ghost use Rattle.df_mirror.specs.{Known.{AreShown}, Mends.{AreOfKind}, Outside.{Tell, around, counts}, Statuses.{AreBlamed, IsOfFirst, is_first}};
ghost use Rattle.df_mirror.specs.Walks.{HasWalkedChain, IsInsideGrid, IsOfChain, Mended, ReadsChainText, WalksTo, content_of_superblock, counted_in, superblock_units};

use crate::ending::Ending;
use crate::superblock::Superblock;
use crate::unit::mend_unit;
use arrayvec::ArrayVec;
use df_base::Sink;
use df_buffers::Trailer;
use df_checkpoint::{Link, TrailerFault, block_count, is_among, link_before, pending, read_chain};
use df_disk::Disk;
use df_grid::{Grid, chains_have_room, known_at};
use df_layout::{Field, LINKS};
use df_model::OpenError;
use df_places::Shelf;
use df_rooms::{GridRooms, ReaderRoom, TrailerRooms};
use df_sessions::SessionTable;
use df_trailer::{Parts, Reader};

/// How far the chain was walked: the block that is wanted next, and those that were read before it.
#[derive(Drop)]
pub(crate) struct Walk {
    pub(crate) at: Link,
    pub(crate) read: ArrayVec<Link, LINKS>,
}

// Mends the block of the chain with this index, and goes on to the one that it names. Answers how many were written, 0 or 1.
fn mend_link<A: Disk, B: Disk, W: Sink>(
    first: &mut A,
    second: &mut B,
    sink: &mut W,
    base: &Superblock,
    shelf: &mut Shelf<Trailer>,
    walk: Walk,
    index: u64,
) -> Result<(Walk, u64), Ending>
    requires inside { IsInsideGrid base.now walk.at.address }
    requires few { array_vec_len walk.read + index < 70 }
    requires layout { shelf.old.layout ≡ base.now.file.layout }
    ensures mends { (t o : Told) (n : ℕ) → Tell t o (around (A.told first.old) (B.told second.old) (W.written sink.old))
        → IsCount (base.now.file.layout.block_size - HEADER) base.now.content.trailer_size n
        → n ≡ length walk.read.items + (index + 1) → HasWalkedChain base.now (superblock_units base.now t.shown) n walk
        → Mended base.now (AreOfKind AsTrailer) t o (around (A.told first.old) (B.told second.old) (W.written sink.old))
        (around (A.told first.new) (B.told second.new) (W.written sink.new)) (counted_in result) (WalksTo base.now n result) }
    ensures more { IfOk result (λ done. (array_vec_len done.0.read ≡ array_vec_len walk.read + 1) × (shelf.new.layout ≡ base.now.file.layout) × (done.1 ≤ 1)
        × (0 < index → IsInsideGrid base.now done.0.at.address)) }
    ensures broken { IfErr result IsOfChain }
    ensures same { B.told second.new ≡ B.told second.old }
    ensures blamed { AreBlamed (counts (A.faults first.old) (B.faults second.old) (W.faults sink.old)) (counts (A.faults first.new) (B.faults second.new) (W.faults sink.new)) result }
{
    let Walk { at, mut read } = walk;
    // A block that isn't the link that the chain asks for.
    let broken = Ending::Unopened {
        error: OpenError::BadField {
            field: Field::TrailerChain,
            value: u128::from(at.address),
        },
    };
    if is_among(&read, at.address) {
        return Err(broken);
    }
    let checksum = at.checksum;
    let wanted = known_at(&base.file.layout, base.file.cluster, at.address, checksum);
    match mend_unit(first, second, sink, shelf, &wanted) {
        Ok(more) => match link_before(
            &base.file.layout,
            base.content.fields(),
            index,
            shelf.unit(),
        ) {
            Some(before) => {
                read.push(at);
                Ok((Walk { at: before, read }, more))
            }
            None => Err(broken),
        },
        Err(ending) => Err(ending),
    }
}

/// Mends the blocks of the trailer that the superblock names, from the last to the first. Where one of them isn't the link that the chain asks for, or the chain comes to a block of its own again, the
/// file is refused as by an open. Answers how many were written.
pub(crate) fn mend_chain<A: Disk, B: Disk, W: Sink>(
    first: &mut A,
    second: &mut B,
    sink: &mut W,
    base: &Superblock,
    shelf: &mut Shelf<Trailer>,
) -> Result<u64, Ending>
    requires layout { shelf.old.layout ≡ base.now.file.layout }
    ensures mends { (t o : Told) → Tell t o (around (A.told first.old) (B.told second.old) (W.written sink.old))
        → Mended base.now (AreOfKind AsTrailer) t o (around (A.told first.old) (B.told second.old) (W.written sink.old))
        (around (A.told first.new) (B.told second.new) (W.written sink.new)) result (λ image. AreShown (shape base.now.file) image (content_of_superblock base.now) AsTrailer) }
    ensures few { IfOk result (λ mended. mended ≤ 70) }
    ensures broken { IfErr result IsOfChain }
    ensures same { B.told second.new ≡ B.told second.old }
    ensures blamed { AreBlamed (counts (A.faults first.old) (B.faults second.old) (W.faults sink.old)) (counts (A.faults first.new) (B.faults second.new) (W.faults sink.new)) result }
{
    chains_have_room();
    let fields = base.content.fields();
    let checksum = fields.trailer_checksum;
    let mut mended = 0;
    let mut walk = Walk {
        at: Link {
            address: fields.trailer_address,
            checksum,
        },
        read: ArrayVec::new(),
    };
    let count = block_count(&base.file.layout, fields);
    for done in 0..count {
        match mend_link(first, second, sink, base, shelf, walk, count - 1 - done) {
            Ok((next, more)) => {
                walk = next;
                mended += more;
            }
            Err(ending) => return Err(ending),
        }
    }
    Ok(mended)
}

/// What the trailer says: in the grid the blocks that it references, and the sessions.
#[derive(Drop)]
pub(crate) struct Text {
    pub(crate) grid: Grid,
    pub(crate) sessions: SessionTable,
}

// A reader of the text of a checkpoint of this op, over the room that is lent for one.
fn reader_in(rooms: TrailerRooms, op: u64) -> Reader
    ensures { HasRead rooms.layout op result [] }
{
    let TrailerRooms {
        layout: _,
        reader,
        piece: _,
        block: _,
    } = rooms;
    let Some(
        ReaderRoom {
            layout,
            bits,
            checks,
        },
    ) = reader
    else {
        unreachable!()
    };
    let parts = Parts {
        root: ArrayVec::new(),
        sessions: ArrayVec::new(),
        bits,
        checks,
    };
    Reader::new(layout, op, parts)
}

/// Reads the trailer, each of whose blocks is shown, or says why it is refused: the first part of its text that fails, an address
/// of the chain that it references, or an op that waits and is that of no session.
pub(crate) fn read_trailer<A: Disk>(
    first: &mut A,
    base: &Superblock,
    grid: GridRooms,
    rooms: TrailerRooms,
) -> Result<Text, Ending>
    requires grid { grid.layout ≡ base.now.file.layout }
    requires rooms { rooms.layout ≡ base.now.file.layout }
    ensures reads { (t : Told) → A.told first.old ≡ Some t → IsImage t.shown
        → AreShown (shape base.now.file) (superblock_units base.now t.shown) (content_of_superblock base.now) AsTrailer → ReadsChainText base.now t.shown result }
    ensures fits { IfOk result (λ text. (text.grid.layout ≡ base.now.file.layout) × (text.sessions.max ≡ base.now.file.layout.clients)
        × (length text.sessions.sessions ≤ base.now.file.layout.clients)) }
    ensures same { A.told first.new ≡ A.told first.old }
    ensures cause { IsBlamed is_first (A.faults first.old) (A.faults first.new) result }
    ensures own { IfErr result IsOfFirst }
{
    let mut grid = grid.into_grid(base.file.cluster);
    let clients = base.file.layout.clients;
    let fields = base.content.fields();
    if fields.trailer_address == 0 {
        let sessions = SessionTable::new(clients);
        return Ok(Text { grid, sessions });
    }
    let mut reader = reader_in(rooms, fields.op);
    match read_chain(first, &base.content, &mut grid, &mut reader) {
        Ok(()) => {}
        Err(fault) => match fault {
            TrailerFault::DiskFault => return Err(Ending::First),
            _ => return Err(Ending::Unopened {
                error: fault.refusal(),
            }),
        },
    }
    let sessions = reader.into_parts().sessions;
    match pending(&sessions, fields.replies, fields.op) {
        None => Ok(Text {
            grid,
            sessions: SessionTable::over(clients, sessions),
        }),
        Some(op) => Err(Ending::Unopened {
            error: OpenError::BadField {
                field: Field::Pending,
                value: u128::from(op),
            },
        }),
    }
}
