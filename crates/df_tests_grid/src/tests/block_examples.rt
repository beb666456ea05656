// Blocks and checkpoints of a grid of cluster 7, as they are written over a disk in memory.
ghost use Rattle.std.specs.Prelude.{◌≡◌, ◌≤◌, IsSome, OnOk, length};
ghost use Rattle.df_layout.specs.declared.layout.Layout.{Layout as AnyLayout};
ghost use Rattle.df_format.specs.{Rules.{ObeysRules}, Own.{own_place}, Making.{for_body}};
ghost use Rattle.df_grid.specs.Table.{IsIdle, IsReadyTrailer};

use df_base::{Failed, check};
use df_buffers::{Block, Raw};
use df_format::{Header, Kind};
use df_grid::Grid;
use df_layout::Zone;
use df_memdisk::MemoryDisk;
use std::alloc::Global;
use std::process::Abort;

// The header of a block at an address, as its maker gives it.
#[tactic(auto, unfolding(df_format::specs::Spelling::no_checksum, df_format::specs::Own::own_place))]
fn block_header(address: u64, body: &[u8]) -> Header
    requires address { (1 ≤ address) × (address ≤ 16384) }
    requires body { length body.now ≤ 3840 }
    ensures rules { ObeysRules (for_body result body.now) }
    ensures kind { result.kind ≡ Kind.Block }
    ensures cluster { result.cluster ≡ 7 }
    ensures address { result.op ≡ address }
    ensures own { (layout : AnyLayout) → address ≤ layout.blocks → IsSome (own_place layout Zone.Grid result) }
{
    Header {
        checksum_body: check(body),
        op: address,
        block_kind: 1,
        ..Header::of(Kind::Block, 7)
    }
}

// Writes a block of one byte to the next address, and answers that, None where there is none.
pub(crate) fn put_next(
    rt: &impl Abort,
    alloc: Global,
    grid: &mut Grid,
    disk: &mut MemoryDisk,
    byte: u8,
) -> Result<Option<u64>, Failed>
    requires { grid.old.cluster ≡ 7 }
    ensures layout { grid.new.layout ≡ grid.old.layout }
    ensures cluster { grid.new.cluster ≡ 7 }
    ensures idle { IsIdle grid.old.blocks → IsIdle grid.new.blocks }
    ensures ready { IsReadyTrailer grid.old.blocks → IsReadyTrailer grid.new.blocks }
{
    let Some(address) = grid.next() else {
        return Ok(None);
    };
    let room: Raw<Block> = Raw::reserve(alloc, &grid.layout()).expect(rt, "memory of a room");
    let body = [byte];
    let header = block_header(address, &body);
    let unit = room.make(header, &body);
    grid.write(disk, &unit)?;
    Ok(Some(address))
}

// Writes blocks of these bytes to the next addresses.
pub(crate) fn put_all(
    rt: &impl Abort,
    alloc: Global,
    grid: &mut Grid,
    disk: &mut MemoryDisk,
    bytes: &[u8],
) -> Result<(), Failed>
    requires cluster { grid.old.cluster ≡ 7 }
    requires idle { IsIdle grid.old.blocks }
    ensures cluster { grid.new.cluster ≡ 7 }
    ensures idle { IsIdle grid.new.blocks }
{
    for byte in bytes {
        put_next(rt, alloc, grid, disk, *byte)?;
    }
    Ok(())
}

// Begins a checkpoint whose trailer has one block; fails where no address is free.
pub(crate) fn begin(grid: &mut Grid) -> Result<(), Failed>
    requires idle { IsIdle grid.old.blocks }
    ensures layout { grid.new.layout ≡ grid.old.layout }
    ensures cluster { grid.new.cluster ≡ grid.old.cluster }
    ensures ready { OnOk result (IsReadyTrailer grid.new.blocks) }
{
    if grid.free() == 0 {
        return Err(Failed);
    }
    grid.capture(1);
    Ok(())
}

// Ends the checkpoint; fails where a block of its trailer isn't written, or none runs.
fn end(grid: &mut Grid) -> Result<(), Failed>
    ensures layout { grid.new.layout ≡ grid.old.layout }
    ensures cluster { grid.new.cluster ≡ grid.old.cluster }
    ensures idle { OnOk result (IsIdle grid.new.blocks) }
{
    let Some(_last) = grid.trailer() else {
        return Err(Failed);
    };
    grid.finish();
    Ok(())
}

// Writes the one block of the running trailer, and ends the checkpoint.
pub(crate) fn write_and_end(
    grid: &mut Grid,
    disk: &mut MemoryDisk,
    sequence: u64,
) -> Result<(), Failed>
    requires ready { IsReadyTrailer grid.old.blocks }
    requires sequence { (2 ≤ sequence) × (sequence ≤ 100) }
    ensures layout { grid.new.layout ≡ grid.old.layout }
    ensures cluster { grid.new.cluster ≡ grid.old.cluster }
    ensures idle { OnOk result (IsIdle grid.new.blocks) }
{
    grid.write_trailer(disk, 0, sequence, &[1, 2, 3])?;
    end(grid)
}
