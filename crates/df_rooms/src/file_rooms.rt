// The rooms of a file that is read or worked on: those that were reserved, with the file's grid over its own.
ghost use Rattle.std.specs.Prelude.{◌≡◌};

use crate::{GridRooms, LogRooms, Rooms, ScrubRooms, Staging, TrailerRooms};
use df_grid::Grid;
use df_layout::Layout;

/// The memory that serves a file whose cluster is known, with its grid.
#[derive(Drop)]
pub struct FileRooms {
    pub layout: Layout,
    pub log: LogRooms,
    pub grid: Grid,
    pub trailer: TrailerRooms,
    pub scrub: ScrubRooms,
    pub staging: Staging,
    pub ghost log_fits: { log.layout ≡ layout },
    pub ghost grid_fits: { grid.layout ≡ layout },
    pub ghost trailer_fits: { trailer.layout ≡ layout },
    pub ghost scrub_fits: { scrub.layout ≡ layout },
    pub ghost staging_fits: { staging.layout ≡ layout },
}

impl FileRooms {
    /// All the rooms, of a file that is done with.
    pub fn into_rooms(self) -> Rooms
        ensures { result.layout ≡ self.layout }
    {
        let FileRooms {
            layout,
            log,
            grid,
            trailer,
            scrub,
            staging,
        } = self;
        Rooms {
            layout,
            log,
            grid: GridRooms::of(grid),
            trailer,
            scrub,
            staging,
        }
    }
}
