// Grids and readers of a layout in cluster 7, superblocks that name a trailer, and chains over a disk in memory.
ghost use Rattle.std.specs.Prelude.{◌≡◌, ◌+◌, ◌-◌, ◌/◌, ◌≤◌, ◌<◌, [], IfOk, IfSome, OnOk, length};
ghost use Rattle.df_trailer.specs.Reading.{HasRead, bytes_read};
ghost use Rattle.df_units.specs.Superblocks.{AreFieldsOf};
ghost use Rattle.df_grid.specs.Table.{IsIdle, no_blocks};
ghost use Rattle.df_tests_grid.specs.Examples.{AreLeftToWrite};

use arrayvec::ArrayVec;
use df_base::{Check, Failed};
use df_buffers::Raw;
use df_checkpoint::{TrailerFault, read_chain};
use df_format::{Reference, Super, SuperFields, test_fields};
use df_freeset::FreeSet;
use df_grid::Grid;
use df_layout::Layout;
use df_memdisk::MemoryDisk;
use df_trailer::{Parts, Reader};
use std::alloc::{AllocError, Global};

// A grid with all addresses free.
pub(crate) fn new_grid(alloc: Global, layout: Layout) -> Result<Grid, AllocError>
    requires blocks { layout.blocks ≤ 1024 }
    ensures layout { IfOk result (λ grid. grid.layout ≡ layout) }
    ensures cluster { IfOk result (λ grid. grid.cluster ≡ 7) }
    ensures free { IfOk result (λ grid. grid.blocks ≡ no_blocks) }
{
    let (Ok(block), Ok(trailer)) = (Raw::reserve(alloc, &layout), Raw::reserve(alloc, &layout))
    else {
        return Err(AllocError);
    };
    let blocks = layout.blocks as usize;
    let words = vec![in alloc; 0u64; (blocks + 63) / 64]?;
    let summary = vec![in alloc; 0u64; 1]?;
    let free = FreeSet::over(words, summary, layout.blocks);
    let checks = vec![in alloc; [0u8; 16]; blocks]?;
    let marks = vec![in alloc; 0u8; blocks]?;
    Ok(Grid::over(layout, 7, free, checks, marks, block, trailer))
}

// The same; fails where memory is refused.
pub(crate) fn grid_of(alloc: Global, layout: Layout) -> Result<Grid, Failed>
    requires blocks { layout.blocks ≤ 1024 }
    ensures layout { IfOk result (λ grid. grid.layout ≡ layout) }
    ensures cluster { IfOk result (λ grid. grid.cluster ≡ 7) }
    ensures free { IfOk result (λ grid. grid.blocks ≡ no_blocks) }
{
    match new_grid(alloc, layout) {
        Ok(grid) => Ok(grid),
        Err(_) => Err(Failed),
    }
}

// A reader of the layout and op that was fed nothing.
pub(crate) fn new_reader(alloc: Global, layout: Layout, op: u64) -> Result<Reader, AllocError>
    ensures read { IfOk result (λ reader. HasRead layout op reader []) }
    ensures empty { IfOk result (λ reader. bytes_read reader ≡ 0) }
{
    let bits = vec![in alloc; 0u64; (layout.blocks as usize + 63) / 64]?;
    let checks = vec![in alloc; [0u8; 16]; layout.blocks as usize]?;
    let parts = Parts {
        root: ArrayVec::new(),
        sessions: ArrayVec::new(),
        bits,
        checks,
    };
    Ok(Reader::new(layout, op, parts))
}

// A superblock of sequence 2 that names a trailer by its last block, with this checkpoint's op.
pub(crate) fn super_of(layout: &Layout, last: Reference, size: u64, op: u64) -> Option<Super>
    ensures fields { IfSome result (λ content. AreFieldsOf layout.now 7 content) }
    ensures op { IfSome result (λ content. content.op ≡ op) }
    ensures trailer { IfSome result (λ content. content.trailer_address ≡ last.address) }
{
    let checksum = last.checksum;
    let op_checksum = if op == 0 { [0; 16] } else { [9; 16] };
    let fields = SuperFields {
        sequence: 2,
        op,
        op_checksum,
        head: op,
        head_checksum: op_checksum,
        replies: op,
        trailer_address: last.address,
        trailer_checksum: checksum,
        trailer_size: size,
        ..SuperFields::of(layout, 7)
    };
    match test_fields(&fields) {
        Ok(content) => Some(content),
        Err(_) => None,
    }
}

// Begins a checkpoint whose trailer has this many blocks; fails where fewer addresses are free.
pub(crate) fn begin(grid: &mut Grid, blocks: u64) -> Result<(), Failed>
    requires idle { IsIdle grid.old.blocks }
    requires some { (1 ≤ blocks) × (blocks ≤ 70) }
    ensures left { OnOk result (AreLeftToWrite 0 blocks grid.new.blocks) }
    ensures layout { grid.new.layout ≡ grid.old.layout }
    ensures cluster { grid.new.cluster ≡ grid.old.cluster }
{
    if grid.free() < blocks {
        return Err(Failed);
    }
    grid.capture(blocks);
    Ok(())
}

// Writes the next block of the running trailer over any piece, with sequence 2.
pub(crate) fn write_any(
    disk: &mut MemoryDisk,
    grid: &mut Grid,
    index: u64,
    left: u64,
    piece: &[u8],
) -> Result<(), Failed>
    requires left { AreLeftToWrite index left grid.old.blocks }
    requires some { 0 < left }
    requires fits { 256 + length piece.now ≤ grid.old.layout.block_size }
    ensures left { OnOk result (AreLeftToWrite (index + 1) (left - 1) grid.new.blocks) }
    ensures layout { grid.new.layout ≡ grid.old.layout }
    ensures cluster { grid.new.cluster ≡ grid.old.cluster }
{
    grid.write_trailer(disk, index, 2, piece)
}

// A trailer of one block is begun and written in a new grid; the reference of its last block.
pub(crate) fn write_one(
    alloc: Global,
    disk: &mut MemoryDisk,
    layout: Layout,
    piece: &[u8],
) -> Result<Option<Reference>, Failed>
    requires blocks { layout.blocks ≤ 1024 }
    requires fits { 256 + length piece.now ≤ layout.block_size }
{
    let mut grid = grid_of(alloc, layout)?;
    begin(&mut grid, 1)?;
    write_any(disk, &mut grid, 0, 1, piece)?;
    Ok(grid.trailer())
}

// The same, of two blocks: the first of version 1, the second of version 2 and boot 3.
pub(crate) fn write_two(
    alloc: Global,
    disk: &mut MemoryDisk,
    layout: Layout,
    first: &[u8],
    second: &[u8],
) -> Result<Option<Reference>, Failed>
    requires blocks { layout.blocks ≤ 1024 }
    requires first { 256 + length first.now ≤ layout.block_size }
    requires second { 256 + length second.now ≤ layout.block_size }
{
    let mut grid = grid_of(alloc, layout)?;
    begin(&mut grid, 2)?;
    write_any(disk, &mut grid, 0, 2, first)?;
    grid.set_boot(3);
    write_any(disk, &mut grid, 1, 1, second)?;
    Ok(grid.trailer())
}

// What a grid holds once a trailer was read: the least free address, how many are free, and what is known of the last address.
#[derive(Clone, Copy, Debug, PartialEq, Eq)]
pub(crate) struct Held {
    pub(crate) next: Option<u64>,
    pub(crate) free: u64,
    pub(crate) last: Option<Check>,
}

// What is read of the trailer that a superblock names into a new grid; None where there is no such superblock, or no memory.
pub(crate) fn read(
    alloc: Global,
    disk: &mut MemoryDisk,
    layout: Layout,
    last: Reference,
    size: u64,
    op: u64,
) -> Option<Result<Held, TrailerFault>>
    requires blocks { layout.blocks ≤ 1024 }
{
    let Ok(mut grid) = new_grid(alloc, layout) else {
        return None;
    };
    let Ok(mut reader) = new_reader(alloc, layout, op) else {
        return None;
    };
    let content = super_of(&layout, last, size, op)?;
    if last.address == 0 {
        return None;
    }
    match read_chain(disk, &content, &mut grid, &mut reader) {
        Ok(()) => Some(Ok(Held {
            next: grid.next(),
            free: grid.free(),
            last: grid.live(u64::from(layout.blocks)),
        })),
        Err(fault) => Some(Err(fault)),
    }
}
