// All the rooms of a replica, whose memory is taken in one call.
ghost use Rattle.std.specs.Prelude.{◌≡◌, IfOk};

use crate::{FileRooms, GridRooms, LogRooms, ScrubRooms, Staging, TrailerRooms};
use df_base::OutOfMemory;
use df_layout::Layout;
use std::alloc::Global;

/// The memory that serves a file of one layout.
pub struct Rooms {
    pub layout: Layout,
    pub log: LogRooms,
    pub grid: GridRooms,
    pub trailer: TrailerRooms,
    pub scrub: ScrubRooms,
    pub staging: Staging,
    pub ghost log_fits: { log.layout ≡ layout },
    pub ghost grid_fits: { grid.layout ≡ layout },
    pub ghost trailer_fits: { trailer.layout ≡ layout },
    pub ghost scrub_fits: { scrub.layout ≡ layout },
    pub ghost staging_fits: { staging.layout ≡ layout },
}

// Its owner lets go of it in one call, and not field by field.
impl Drop for Rooms {
    fn drop(self) {
        let Rooms {
            layout: _,
            log: _,
            grid: _,
            trailer: _,
            scrub: _,
            staging: _,
        } = self;
    }
}

impl Rooms {
    ghost use Rattle.std.specs.Prelude.{◌<◌};
    ghost use Rattle.df_rooms.specs.Below.{no_blocks};

    /// The rooms for a layout, or the refusal of memory for one of them. No other call of a replica takes memory.
    pub fn reserve(alloc: Global, layout: &Layout) -> Result<Rooms, OutOfMemory>
        ensures { IfOk result (λ rooms. rooms.layout ≡ layout.now) }
    {
        let log = LogRooms::reserve(alloc, layout)?;
        let grid = GridRooms::reserve(alloc, layout)?;
        let trailer = TrailerRooms::reserve(alloc, layout)?;
        let scrub = ScrubRooms::reserve(alloc, layout)?;
        let staging = Staging::reserve(alloc, layout)?;
        Ok(Rooms {
            layout: *layout,
            log,
            grid,
            trailer,
            scrub,
            staging,
        })
    }

    /// Takes the rooms apart: those of the log zones, of the grid, of the trailer, of the scrubber and of what is staged.
    pub fn into_parts(self) -> (LogRooms, GridRooms, TrailerRooms, ScrubRooms, Staging)
        ensures log { result.0.layout ≡ self.layout }
        ensures grid { result.1.layout ≡ self.layout }
        ensures trailer { result.2.layout ≡ self.layout }
        ensures scrub { result.3.layout ≡ self.layout }
        ensures staging { result.4.layout ≡ self.layout }
    {
        let Rooms {
            layout: _,
            log,
            grid,
            trailer,
            scrub,
            staging,
        } = self;
        (log, grid, trailer, scrub, staging)
    }

    /// The rooms with the grid of a file of this cluster, in which no address is held, whatever they served before.
    pub fn into_file(self, cluster: u128) -> FileRooms
        requires { 0 < cluster }
        ensures layout { result.layout ≡ self.layout }
        ensures grid { result.grid ≡ record { layout = self.layout; cluster = cluster; boot = 0; blocks = no_blocks } }
    {
        let Rooms {
            layout,
            log,
            grid,
            trailer,
            scrub,
            staging,
        } = self;
        FileRooms {
            layout,
            log,
            grid: grid.into_grid(cluster),
            trailer,
            scrub,
            staging,
        }
    }

    /// The layout that the rooms were reserved for.
    pub fn layout(&self) -> Layout
        ensures { result ≡ self.now.layout }
    {
        self.layout
    }
}
