// What is kept in memory of a file, whether calls may work on it or not: the state that contracts see, and the rooms that serve it.
ghost use Rattle.std.specs.Prelude.{◌≡◌};
ghost use Rattle.df_rooms.specs.Parts.{AreWhole, state_in, summary_of};

use crate::{
    DataFile, FileRooms, LogRooms, Rooms, RunningCheckpoint, ScrubRooms, Staging, TrailerRooms,
};
use arrayvec::ArrayVec;
use df_base::Check;
use df_format::Super;
use df_grid::Grid;
use df_layout::ROOT;
use df_model::Summary;
use df_sessions::SessionTable;

/// The parts of a replica, and of a file that was surveyed: the file and its superblock, the log and its sessions, and the rooms.
pub struct Parts {
    pub file: DataFile,
    pub content: Super,
    /// The durable checkpoint's root.
    pub root: ArrayVec<u8, ROOT>,
    pub head: u64,
    pub head_checksum: Check,
    pub replies: u64,
    pub sessions: SessionTable,
    /// The checksums of the prepares that wait for their replies, in order of op.
    pub waiting: ArrayVec<Check, 8>,
    /// Whether calls may go on.
    pub live: bool,
    pub rooms: LogRooms,
    pub grid: Grid,
    pub running: Option<RunningCheckpoint>,
    pub trailer: TrailerRooms,
    pub scrub: ScrubRooms,
    /// What the next flush appends.
    pub staging: Staging,
}

// Their owner lets go of them in one call, and not field by field.
impl Drop for Parts {
    fn drop(self) {
        let Parts {
            file: _,
            content: _,
            root: _,
            head: _,
            head_checksum: _,
            replies: _,
            sessions: _,
            waiting: _,
            live: _,
            rooms: _,
            grid: _,
            running: _,
            trailer: _,
            scrub: _,
            staging: _,
        } = self;
    }
}

impl Parts {
    /// The numbers of the state.
    pub fn summary(&self) -> Summary
        ensures { result ≡ summary_of (state_in self.now) }
    {
        let fields = self.content.fields();
        Summary {
            cluster: self.file.cluster,
            layout: self.file.layout,
            sequence: fields.sequence,
            checkpoint_op: fields.op,
            head: self.head,
            replies: self.replies,
            sessions: self.sessions.len(),
            references: self.grid.references(),
        }
    }

    /// All the rooms, of parts that are done with.
    pub fn into_rooms(self) -> Rooms
        requires { AreWhole self }
        ensures { result.layout ≡ self.file.layout }
    {
        let Parts {
            file,
            rooms,
            grid,
            trailer,
            scrub,
            staging,
            content: _,
            root: _,
            live: _,
            head: _,
            head_checksum: _,
            running: _,
            replies: _,
            sessions: _,
            waiting: _,
        } = self;
        let all = FileRooms {
            layout: file.layout,
            log: rooms,
            grid,
            trailer,
            scrub,
            staging,
        };
        all.into_rooms()
    }
}
