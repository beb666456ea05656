// What a checkpoint captured, and how a piece of its trailer's text is written: one block, which refers to the one before.
ghost use Rattle.std.specs.Prelude.{◌≡◌, ◌≢◌, ◌-◌, ◌≤◌, ◌<◌, [], length, OnErr, OnOk};
ghost use Rattle.df_base.specs.declared.TheConstants.{GREATEST, HEADER};
ghost use Rattle.df_checkpoint.specs.{Below.{HasCause, Adds, AreSteps, format_of, block_of, number_of, with_blocks, next_written, block_steps, made_events, next_block}, Writing.{piece_in, unit_in}};

use arrayvec::ArrayVec;
use df_base::Failed;
use df_disk::Disk;
use df_grid::Grid;
use df_layout::ROOT;
use df_sessions::Session;
use df_trailer::piece;

/// What a checkpoint captured beside the grid's blocks, which the grid marks.
#[derive(Drop)]
pub struct Capture {
    /// What the caller of the checkpoint gave: at most 1,024 bytes.
    pub root: ArrayVec<u8, ROOT>,
    /// The sessions in order of their places.
    pub sessions: ArrayVec<Session, 64>,
    /// The superblock's next sequence, 2 to 2^62.
    pub sequence: u64,
}

/// A root of at most 1,024 bytes, in a list of its own.
pub fn root_of(root: &[u8]) -> ArrayVec<u8, ROOT>
    requires { length root.now ≤ 1024 }
    ensures { result.items ≡ root.now }
{
    let mut copy = ArrayVec::new();
    match copy.try_extend_from_slice(root) {
        Ok(()) => copy,
        Err(_) => unreachable!(),
    }
}

// At most 64 sessions, in a list of their own.
fn sessions_of(sessions: &[Session]) -> ArrayVec<Session, 64>
    requires { length sessions.now ≤ 64 }
    ensures { result.items ≡ sessions.now }
{
    let mut copy = ArrayVec::new();
    match copy.try_extend_from_slice(sessions) {
        Ok(()) => copy,
        Err(_) => unreachable!(),
    }
}

impl Capture {
    /// A root of at most 1,024 bytes, at most 64 sessions and the next sequence, in lists of their own.
    pub fn of(root: &[u8], sessions: &[Session], sequence: u64) -> Capture
        requires short { length root.now ≤ 1024 }
        requires few { length sessions.now ≤ 64 }
        ensures root { result.root.items ≡ root.now }
        ensures sessions { result.sessions.items ≡ sessions.now }
        ensures sequence { result.sequence ≡ sequence }
    {
        Capture {
            root: root_of(root),
            sessions: sessions_of(sessions),
            sequence,
        }
    }
}

/// Writes the piece with this index of the text of what was captured, without a sync: the running trailer's next block, made in a room
/// of a block's body. Its index is the number of blocks that are written, below 70. After an error the block is still the next one.
pub fn write_piece<D: Disk>(
    disk: &mut D,
    grid: &mut Grid,
    capture: &Capture,
    room: &mut [u8],
    index: u64,
) -> Result<(), Failed>
    requires next { grid.old.blocks.left ≢ [] }
    requires index { (index ≡ length grid.old.blocks.written) × (index < 70) }
    requires sequence { (2 ≤ capture.now.sequence) × (capture.now.sequence ≤ GREATEST) }
    requires room { grid.old.layout.block_size - HEADER ≤ length room.old }
    ensures events { Adds (made_events grid.old.layout (unit_in grid.old capture.now index)) (D.told disk.old) (D.told disk.new) result }
    ensures steps { AreSteps (format_of grid.old.layout grid.old.cluster) (made_events grid.old.layout (unit_in grid.old capture.now index)) (block_steps (unit_in grid.old capture.now index)) }
    ensures unit { block_of (unit_in grid.old capture.now index) ≡ next_block grid.old capture.now.sequence (piece_in grid.old capture.now index) (number_of (unit_in grid.old capture.now index).header.checksum) }
    ensures written { OnOk result (grid.new ≡ with_blocks grid.old (next_written grid.old.blocks (number_of (unit_in grid.old capture.now index).header.checksum))) }
    ensures failed { OnErr result (grid.new ≡ grid.old) }
    ensures room { length room.new ≡ length room.old }
    ensures cause { HasCause (D.faults disk.old) (D.faults disk.new) result }
{
    let layout = grid.layout();
    let size = piece(&layout, &capture.root, &capture.sessions, grid, index, room);
    grid.write_trailer(disk, index, capture.sequence, &room[..size as usize])
}
