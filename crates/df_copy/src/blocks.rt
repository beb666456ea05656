// The blocks: each that is referenced is read from the source once, in order of address, and the k-th is written to address k of the target: its kind, its body, its version and its boot stay.
ghost use Rattle.std.specs.Prelude.{◌≡◌, ◌<◌, ◌≤◌, ◌+◌, ℕ, List, [], true, length, OnErr, OnOk};
ghost use Rattle.df_base.specs.Causes.{HasCause, IsBlamed};
ghost use Rattle.df_disk.specs.Adds.{Adds};
ghost use Rattle.df_format.specs.Message.{Message};
ghost use Rattle.df_grid.specs.Writes.{made, made_events};
ghost use Rattle.df_model.specs.{Blocks.{sum_at}, Work.{is_known}};
ghost use Rattle.df_opening.specs.Below.{memory};
ghost use Rattle.df_replica.specs.Blocks.{MayPut};
ghost use Rattle.df_copy.specs.{Acts.{CopiesAt, CopiesBlocks, IsBlockOf, IsCopyBegun, LeavesSource, PutsBlock, beside, with_block}, Statuses.{copied_block_ending, is_target}, Targets.{IsTarget}};
ghost use Rattle.df_copy.specs.Tests.{references};

use crate::ending::Ending;
use crate::target::Target;
use df_base::Failed;
use df_buffers::{Block, Sound};
use df_disk::Disk;
use df_format::Header;
use df_grid::Grid;
use df_model::ReadError;
use df_places::Shelf;
use df_replica::Replica;

// A block's header at another address.
fn moved_to(header: &Header, address: u64) -> Header
    ensures { result ≡ record header.now { op = address } }
{
    Header {
        op: address,
        ..*header
    }
}

// Makes a block in its room and writes it to its address, without a sync. It is live then.
fn put_made<B: Disk>(
    to: &mut B,
    grid: &mut Grid,
    room: &mut Shelf<Block>,
    header: Header,
    body: &[u8],
) -> Result<(), Failed>
    requires may { MayPut room.old.layout grid.old header body.now }
    ensures room { room.new.layout ≡ room.old.layout }
    ensures events { Adds (made_events grid.old.layout (made header body.now)) (B.told to.old) (B.told to.new) result }
    ensures live { OnOk result (grid.new ≡ with_block grid.old (made header body.now)) }
    ensures failed { OnErr result (grid.new ≡ grid.old) }
    ensures cause { HasCause (B.faults to.old) (B.faults to.new) result }
{
    room.make(header, body);
    grid.write(to, room.unit())
}

// Writes a block that was read at an address of the source to the next address of the target, where the layout has room for it.
fn put_block<B: Disk>(
    to: &mut B,
    target: &mut Target,
    address: u64,
    unit: &Sound<Block>,
) -> Result<(), Ending>
    requires room { target.old.copied < target.old.layout.blocks }
    requires begun { (cluster : ℕ) × (rs : List Message) × (bs : List Message) × IsTarget target.old.layout cluster rs bs target.old }
    requires unit { IsBlockOf target.old.grid.cluster address unit.now.unit }
    ensures puts { PutsBlock address unit.now.unit target.old target.new (B.told to.old) (B.told to.new) result }
    ensures layout { target.new.layout ≡ target.old.layout }
    ensures disk { IsBlamed is_target (B.faults to.old) (B.faults to.new) result }
{
    let size = u64::from(unit.header().size);
    if u64::from(target.layout.block_size) < size {
        return Err(Ending::BlockTooLong { address, size });
    }
    let header = moved_to(unit.header(), target.copied + 1);
    let done = put_made(
        to,
        &mut target.grid,
        &mut target.trailer.block,
        header,
        unit.body(),
    );
    match done {
        Ok(()) => {
            target.copied += 1;
            Ok(())
        }
        Err(_) => Err(Ending::Target),
    }
}

// Why a live block isn't read.
fn unread_block(error: ReadError) -> Ending
    requires { error ≡ ReadError.NotLive → ⊥ }
    ensures { result ≡ copied_block_ending error }
{
    match error {
        ReadError::NotLive => unreachable!(),
        ReadError::DiskFault => Ending::Source,
        ReadError::Damaged { place, class } => Ending::Damaged { place, class },
    }
}

// Copies the block at an address, if one is live there.
fn copy_at<A: Disk, B: Disk>(
    from: &mut A,
    to: &mut B,
    replica: &mut Replica,
    target: &mut Target,
    address: u64,
) -> Result<(), Ending>
    requires begun { IsCopyBegun replica.old target.old }
    requires live { replica.old.live ≡ true }
    requires room { is_known (sum_at address (memory replica.old).blocks.live) ≡ true → target.old.copied < target.old.layout.blocks }
    ensures copies { CopiesAt target.old.layout address (sum_at address replica.old.blocks.live) replica.old target.old target.new (A.told from.old) (B.told to.old) (B.told to.new) result }
    ensures layout { target.new.layout ≡ target.old.layout }
    ensures leaves { LeavesSource (beside replica.old (A.told from.old) (A.faults from.old) (B.faults to.old)) (beside replica.new (A.told from.new) (A.faults from.new) (B.faults to.new)) result }
{
    let Some(_) = replica.reference(address) else {
        return Ok(());
    };
    match replica.read_block(from, address) {
        Ok(unit) => put_block(to, target, address, unit),
        Err(error) => Err(unread_block(error)),
    }
}

/// Copies all referenced blocks, in order of address, each by one read of the source and one write of the target. The first that is damaged, or has more bytes than a block of the layout, ends it.
pub(crate) fn copy_blocks<A: Disk, B: Disk>(
    from: &mut A,
    to: &mut B,
    replica: &mut Replica,
    target: &mut Target,
) -> Result<(), Ending>
    requires room { length (references (memory replica.old)) ≤ target.old.layout.blocks }
    requires live { replica.old.live ≡ true }
    requires begun { (rs : List Message) × IsTarget target.old.layout replica.old.file.cluster rs [] target.old }
    ensures copies { (rs : List Message) → IsTarget target.old.layout replica.old.file.cluster rs [] target.old
        → CopiesBlocks target.old.layout replica.old rs target.new (A.told from.old) (B.told to.old) (B.told to.new) result }
    ensures layout { target.new.layout ≡ target.old.layout }
    ensures leaves { LeavesSource (beside replica.old (A.told from.old) (A.faults from.old) (B.faults to.old)) (beside replica.new (A.told from.new) (A.faults from.new) (B.faults to.new)) result }
{
    for before in 0..replica.summary().layout.blocks {
        match copy_at(from, to, replica, target, u64::from(before) + 1) {
            Ok(()) => {}
            Err(ending) => return Err(ending),
        }
    }
    Ok(())
}
