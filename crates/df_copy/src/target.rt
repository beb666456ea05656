// The target: the rooms of its layout, and what was written of it so far.
ghost use Rattle.std.specs.Prelude.{◌≡◌};

use df_base::Check;
use df_grid::Grid;
use df_layout::Layout;
use df_opening::LogRooms;
use df_rooms::TrailerRooms;

/// The file that is made: its rooms, its grid with the blocks that were written, and the checksums of the replies that were.
pub struct Target {
    pub layout: Layout,
    pub log: LogRooms,
    pub grid: Grid,
    pub trailer: TrailerRooms,
    /// For each session's place the checksum of its reply, once that is written, and zeros.
    pub checks: [Check; 64],
    /// How many blocks were written: they stand at the addresses from 1 on.
    pub copied: u64,
    pub ghost log_fits: { log.layout ≡ layout },
    pub ghost grid_fits: { grid.layout ≡ layout },
    pub ghost trailer_fits: { trailer.layout ≡ layout },
}

// Its owner lets go of it in one call, and not field by field.
impl Drop for Target {
    fn drop(self) {
        let Target {
            layout: _,
            log: _,
            grid: _,
            trailer: _,
            checks: _,
            copied: _,
        } = self;
    }
}
