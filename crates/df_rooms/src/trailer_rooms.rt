// The rooms that a trailer is read into and written from, and in which a new block is made.
ghost use Rattle.std.specs.Prelude.{◌≡◌, ◌+◌, ◌-◌, ◌/◌, vec_len, IfOk, IfSome, IsSome};
ghost use Rattle.std.proofs.Props.{props};
ghost use Rattle.df_base.specs.declared.TheConstants.{HEADER};

use df_base::{Check, HEADER, OutOfMemory};
use df_buffers::{Block, Raw};
use df_layout::Layout;
use df_places::Shelf;
use std::alloc::Global;

/// Where a reader of a trailer keeps the bits and the checksums of the referenced blocks.
#[derive(Drop)]
pub struct ReaderRoom {
    pub layout: Layout,
    pub bits: Vec<u64>,
    pub checks: Vec<Check>,
    pub ghost bits_fit: { vec_len bits ≡ (layout.blocks + 63) / 64 },
    pub ghost checks_fit: { vec_len checks ≡ layout.blocks },
}

/// The memory that serves a checkpoint's trailer, and the block that is made next.
#[derive(Drop)]
pub struct TrailerRooms {
    pub layout: Layout,
    // A reader owns its room while it reads: it is taken from here, and put back.
    pub reader: Option<ReaderRoom>,
    // A piece of the trailer's text: as long as a block's body.
    pub piece: Vec<u8>,
    // Where the next block is made.
    pub block: Shelf<Block>,
    pub ghost reader_there: { IsSome reader },
    pub ghost reader_fits: { IfSome reader (λ room. room.layout ≡ layout) } by { Prim.hlevel props },
    pub ghost piece_fits: { vec_len piece ≡ layout.block_size - HEADER },
    pub ghost block_fits: { block.layout ≡ layout },
}

impl TrailerRooms {
    /// The rooms for a layout, or the refusal of memory for one of them.
    pub(crate) fn reserve(alloc: Global, layout: &Layout) -> Result<TrailerRooms, OutOfMemory>
        ensures { IfOk result (λ rooms. rooms.layout ≡ layout.now) }
    {
        let bits = vec![in alloc; 0u64; layout.blocks.div_ceil(64) as usize]?;
        let checks = vec![in alloc; [0u8; 16]; layout.blocks as usize]?;
        let piece = vec![in alloc; 0u8; layout.block_size as usize - HEADER]?;
        let block = Raw::reserve(alloc, layout)?;
        let reader = ReaderRoom {
            layout: *layout,
            bits,
            checks,
        };
        Ok(TrailerRooms {
            layout: *layout,
            reader: Some(reader),
            piece,
            block: Shelf::over(*layout, block),
        })
    }
}
