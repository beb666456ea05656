// A checkpoint's trailer is read: the chain backwards, the text forwards, each block shown again and its body given to the reader, and
// what both name into the grid. Each op that the checkpoint reaches, and whose reply isn't stored, has its session.
ghost use Rattle.std.specs.Prelude.{◌≡◌, ◌≢◌, ◌+◌, ◌-◌, ◌≤◌, ◌<◌, ◌^◌, [], ℕ, length, OnErr, OnOk};
ghost use Rattle.df_base.specs.declared.TheConstants.{HEADER};
ghost use Rattle.df_checkpoint.specs.{Below.{IsBlamed, Shape, IsCount, layout_of, AreFieldsOf, HasAddress, HasRead, bytes_read, parse_of, IsIdle, no_blocks}, Adopting.{SameFile}};
ghost use Rattle.df_checkpoint.specs.{Chain.{AreDistinctLinks, OfTold, content_in, is_trailer_fault}, Reads.{ChainAnswer, IsCompleteReader}, Texts.{FeedAnswer, TextAnswer, bad_of}};
ghost use Rattle.df_checkpoint.specs.Waiting.{IsPendingReply, has_op};

use crate::TrailerFault;
use crate::adopting::adopt;
use crate::links::{Link, link_after, walk};
use df_base::HEADER;
use df_disk::Disk;
use df_format::{Super, SuperFields};
use df_grid::{Grid, chains_have_room};
use df_layout::Layout;
use df_sessions::Session;
use df_trailer::{Fault, Reader};

/// How many blocks the trailer has that a superblock names; none where it names none.
pub fn block_count(layout: &Layout, content: &SuperFields) -> u64
    ensures { IsCount (layout.now.block_size - HEADER) content.now.trailer_size result }
{
    content
        .trailer_size
        .div_ceil(u64::from(layout.block_size - HEADER as u32))
}

// What is refused of the text.
fn as_bad(answer: Result<(), Fault>) -> Result<(), TrailerFault>
    ensures { result ≡ bad_of answer }
{
    match answer {
        Ok(()) => Ok(()),
        Err(fault) => Err(TrailerFault::BadField {
            field: fault.field,
            value: u128::from(fault.value),
        }),
    }
}

// Shows a block of the chain again, and gives its body to the reader.
fn feed_block<D: Disk>(
    disk: &mut D,
    grid: &mut Grid,
    at: Link,
    reader: &mut Reader,
) -> Result<(), TrailerFault>
    requires inside { HasAddress grid.old at.address }
    requires small { bytes_read reader.old < 2 ^ 60 }
    ensures fed { FeedAnswer grid.old (D.told disk.old) at reader.old reader.new result }
    ensures size { bytes_read reader.new ≤ bytes_read reader.old + 2 ^ 32 }
    ensures layout { reader.new.layout ≡ reader.old.layout }
    ensures grid { grid.new ≡ grid.old }
    ensures same { D.told disk.new ≡ D.told disk.old }
    ensures cause { IsBlamed is_trailer_fault (D.faults disk.old) (D.faults disk.new) result }
{
    match grid.show_trailer(disk, at.reference()) {
        Ok(Ok(unit)) => as_bad(reader.feed(unit.body())),
        Ok(Err(class)) => Err(TrailerFault::Damaged {
            address: at.address,
            class,
        }),
        Err(_) => Err(TrailerFault::DiskFault),
    }
}

// Reads the text of the chain, from its first block to its end.
fn read_text<D: Disk>(
    disk: &mut D,
    grid: &mut Grid,
    blocks: &[Link],
    reader: &mut Reader,
) -> Result<(), TrailerFault>
    requires apart { AreDistinctLinks grid.old blocks.now }
    requires few { length blocks.now ≤ 70 }
    requires fresh { bytes_read reader.old ≡ 0 }
    ensures text { (op : ℕ) → HasRead grid.old.layout op reader.old [] → TextAnswer grid.old (D.told disk.old) blocks.now op reader.new result }
    ensures layout { reader.new.layout ≡ reader.old.layout }
    ensures grid { grid.new ≡ grid.old }
    ensures same { D.told disk.new ≡ D.told disk.old }
    ensures cause { IsBlamed is_trailer_fault (D.faults disk.old) (D.faults disk.new) result }
{
    for done in 0..blocks.len() {
        match feed_block(disk, grid, link_after(blocks, done), reader) {
            Ok(()) => {}
            Err(fault) => return Err(fault),
        }
    }
    as_bad(reader.end())
}

/// Reads the trailer that a superblock names: the chain from its last block back to index 0, then the text from its first block on, each
/// block proved again. Where it is Ok, the grid has adopted the referenced blocks as live ones, and the chain's blocks in order of index,
/// and the reader gives the parts. The grid is one in which no address is held, of the superblock's layout and cluster, and the reader is
/// one of its layout and op that was fed nothing. After a refusal the grid holds nothing: whether an address of the chain is referenced is
/// tested before the first block is adopted. Over a disk that tells what it shows, the second reading refuses no block that the first one
/// took.
pub fn read_chain<D: Disk>(
    disk: &mut D,
    content: &Super,
    grid: &mut Grid,
    reader: &mut Reader,
) -> Result<(), TrailerFault>
    requires named { content.now.trailer_address ≢ 0 }
    requires file { AreFieldsOf grid.old.layout grid.old.cluster content.now }
    requires free { grid.old.blocks ≡ no_blocks }
    requires fresh { HasRead grid.old.layout content.now.op reader.old [] }
    ensures answer { (sh : Shape) → sh.layout ≡ layout_of grid.old.layout → sh.parse ≡ parse_of sh.layout → OfTold grid.old (D.told disk.old) (λ shown. ChainAnswer sh shown (content_in content.now) grid.new reader.new result) }
    ensures complete { OnOk result (IsCompleteReader grid.old content.now.op reader.new) }
    ensures rooms { reader.new.layout ≡ reader.old.layout }
    ensures idle { OnOk result (IsIdle grid.new.blocks) }
    ensures refused { OnErr result (grid.new ≡ grid.old) }
    ensures grid { SameFile grid.old grid.new }
    ensures same { D.told disk.new ≡ D.told disk.old }
    ensures cause { IsBlamed is_trailer_fault (D.faults disk.old) (D.faults disk.new) result }
{
    let content = content.fields();
    chains_have_room();
    let count = block_count(&grid.layout(), content);
    let blocks = match walk(disk, content, grid, count) {
        Ok(blocks) => blocks,
        Err(fault) => return Err(fault),
    };
    match read_text(disk, grid, &blocks, reader) {
        Ok(()) => adopt(grid, reader, &blocks),
        Err(fault) => Err(fault),
    }
}

// Whether an op is the last request of a session.
fn has_op(sessions: &[Session], op: u64) -> bool
    ensures { result ≡ has_op op sessions.now }
{
    sessions.iter().any(|session| session.op == op)
}

/// The least op above the number of stored replies, and at most the checkpoint's, that is the op of no session; None exactly where each of
/// them has its session.
pub fn pending(sessions: &[Session], replies: u64, op: u64) -> Option<u64>
    ensures { IsPendingReply sessions.now replies op result }
{
    for before in replies..op {
        if !has_op(sessions, before + 1) {
            return Some(before + 1);
        }
    }
    None
}
