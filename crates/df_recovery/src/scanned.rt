// What was read of a file, in the rooms that it was read into.
ghost use Rattle.std.specs.Prelude.{◌≡◌};

use crate::Copies;
use arrayvec::ArrayVec;
use df_layout::ROOT;
use df_rooms::{DataFile, FileRooms};
use df_sessions::SessionTable;

/// What was read of a file: its superblock, in the tables of the rooms what the rings and the reply slots show, in their grid the
/// blocks that the checkpoint holds, and the checkpoint's root and sessions.
#[derive(Drop)]
pub struct Scanned {
    pub file: DataFile,
    pub copies: Copies,
    pub rooms: FileRooms,
    pub root: ArrayVec<u8, ROOT>,
    pub sessions: SessionTable,
    pub ghost rooms_fit: { rooms.layout ≡ file.layout },
    pub ghost grid_named: { rooms.grid.cluster ≡ file.cluster },
    pub ghost grid_unbooted: { rooms.grid.boot ≡ 0 },
}
