// The rooms of the grid: its table, its free set, and those that blocks are read into; and of the scrubber that tours it, with the list
// that a whole tour fills.
ghost use Rattle.std.specs.Prelude.{◌≡◌, ◌<◌, ◌≤◌, length, vec_capacity, IfOk};
ghost use Rattle.df_rooms.specs.Below.{new_scrub, no_blocks};

use df_base::{Check, OutOfMemory};
use df_buffers::{Block, Raw, Trailer};
use df_freeset::FreeSet;
use df_grid::Grid;
use df_layout::{Finding, Layout};
use df_scrub::Scrubber;
use std::alloc::Global;

/// The memory that serves the grid of a file of one layout.
#[derive(Drop)]
pub struct GridRooms {
    pub layout: Layout,
    pub checks: Vec<Check>,
    pub free: FreeSet,
    pub marks: Vec<u8>,
    pub block: Raw<Block>,
    pub trailer: Raw<Trailer>,
    pub ghost free_fits: { length free ≡ layout.blocks },
    pub ghost checks_fit: { length checks.items ≡ layout.blocks },
    pub ghost marks_fit: { length marks.items ≡ layout.blocks },
    pub ghost block_fits: { block.layout ≡ layout },
    pub ghost trailer_fits: { trailer.layout ≡ layout },
}

impl GridRooms {
    /// The rooms for a layout, or the refusal of memory for one of them.
    pub(crate) fn reserve(alloc: Global, layout: &Layout) -> Result<GridRooms, OutOfMemory>
        ensures { IfOk result (λ rooms. rooms.layout ≡ layout.now) }
    {
        let block = Raw::reserve(alloc, layout)?;
        let trailer = Raw::reserve(alloc, layout)?;
        let count = layout.blocks.div_ceil(64);
        let words = vec![in alloc; 0u64; count as usize]?;
        let summary = vec![in alloc; 0u64; count.div_ceil(64) as usize]?;
        let checks = vec![in alloc; [0u8; 16]; layout.blocks as usize]?;
        let marks = vec![in alloc; 0u8; layout.blocks as usize]?;
        Ok(GridRooms {
            layout: *layout,
            checks,
            free: FreeSet::over(words, summary, layout.blocks),
            marks,
            block,
            trailer,
        })
    }

    /// The grid of a file of this cluster in which no address is held, whatever the rooms served before.
    pub fn into_grid(self, cluster: u128) -> Grid
        requires { 0 < cluster }
        ensures { result ≡ record { layout = self.layout; cluster = cluster; boot = 0; blocks = no_blocks } }
    {
        let GridRooms {
            layout,
            checks,
            free,
            mut marks,
            block,
            trailer,
        } = self;
        let (mut words, mut summary) = free.into_room();
        words.fill(0);
        summary.fill(0);
        marks.fill(0);
        let free = FreeSet::over(words, summary, layout.blocks);
        Grid::over(layout, cluster, free, checks, marks, block, trailer)
    }

    /// The rooms of a grid that is done with.
    pub fn of(grid: Grid) -> GridRooms
        ensures { result.layout ≡ grid.layout }
    {
        let layout = grid.layout();
        let (free, checks, marks, block, trailer) = grid.into_room();
        GridRooms {
            checks,
            free,
            marks,
            block,
            trailer,
            layout,
        }
    }
}

/// The memory that serves the scrubber of a file of one layout.
#[derive(Drop)]
pub struct ScrubRooms {
    pub layout: Layout,
    pub scrubber: Scrubber,
    // What a whole tour lists: at most each block of the grid once.
    pub report: Vec<Finding>,
    pub ghost report_fits: { layout.blocks ≤ vec_capacity report },
}

impl ScrubRooms {
    /// The rooms for a layout, or the refusal of memory for one of them: no tour was made yet, and nothing was found.
    pub(crate) fn reserve(alloc: Global, layout: &Layout) -> Result<ScrubRooms, OutOfMemory>
        ensures layout { IfOk result (λ rooms. rooms.layout ≡ layout.now) }
        ensures new { IfOk result (λ rooms. rooms.scrubber ≡ new_scrub) }
    {
        let scrubber = Scrubber::reserve(alloc)?;
        let report = Vec::with_capacity(alloc, layout.blocks as usize)?;
        Ok(ScrubRooms {
            layout: *layout,
            scrubber,
            report,
        })
    }

    /// The same rooms, for another file: the tour is at its start, and nothing was found.
    pub fn cleared(self) -> ScrubRooms
        ensures layout { result.layout ≡ self.layout }
        ensures cleared { result.scrubber ≡ new_scrub }
    {
        let ScrubRooms {
            layout,
            mut scrubber,
            report,
        } = self;
        scrubber.clear();
        ScrubRooms {
            layout,
            scrubber,
            report,
        }
    }
}
