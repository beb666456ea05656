// The checkpoint that a superblock names is read: its trailer's chain and text into the grid and the table of sessions.
ghost use Rattle.std.specs.Prelude.{◌≡◌, ◌≢◌};
ghost use Rattle.df_recovery.specs.{Below.{IsBlamed, AreFieldsOf, is_open_fault}, Scanning.{AreRoomsOf, FitsFile, ReadsCheckpoint, ReadsText}};

use crate::OpenError;
use arrayvec::ArrayVec;
use df_checkpoint::{pending, read_chain};
use df_disk::Disk;
use df_format::Super;
use df_grid::Grid;
use df_layout::{Field, ROOT};
use df_rooms::{DataFile, ReaderRoom, TrailerRooms};
use df_sessions::SessionTable;
use df_trailer::{Parts, Reader};

/// The root and the sessions of the checkpoint that a superblock names; its blocks are in the grid.
#[derive(Drop)]
pub struct Checkpoint {
    pub root: ArrayVec<u8, ROOT>,
    pub sessions: SessionTable,
}

// Reads the trailer that a superblock names, up to the ops that wait. Its reader takes its room, and puts it back.
fn read_text<D: Disk>(
    disk: &mut D,
    file: &DataFile,
    content: &Super,
    grid: &mut Grid,
    trailer: &mut TrailerRooms,
) -> Result<Checkpoint, OpenError>
    requires rooms { AreRoomsOf file.now grid.old trailer.old.layout }
    requires file { AreFieldsOf file.now.layout file.now.cluster content.now }
    requires named { content.now.trailer_address ≢ 0 }
    ensures reads { ReadsText file.now (D.told disk.old) content.now grid.new result }
    ensures fits { FitsFile file.now grid.new trailer.new.layout }
    ensures same { D.told disk.new ≡ D.told disk.old }
    ensures cause { IsBlamed is_open_fault (D.faults disk.old) (D.faults disk.new) result }
{
    let Some(room) = trailer.reader.take() else {
        unreachable!()
    };
    let layout = room.layout;
    let empty = Parts {
        root: ArrayVec::new(),
        sessions: ArrayVec::new(),
        bits: room.bits,
        checks: room.checks,
    };
    let mut reader = Reader::new(layout, content.fields().op, empty);
    match read_chain(disk, content, grid, &mut reader) {
        Ok(()) => {
            let parts = reader.into_parts();
            let room = ReaderRoom {
                layout,
                bits: parts.bits,
                checks: parts.checks,
            };
            trailer.reader = Some(room);
            Ok(Checkpoint {
                root: parts.root,
                sessions: SessionTable::over(file.layout.clients, parts.sessions),
            })
        }
        Err(fault) => {
            let (bits, checks) = reader.into_room();
            let room = ReaderRoom {
                layout,
                bits,
                checks,
            };
            trailer.reader = Some(room);
            Err(fault.refusal())
        }
    }
}

/// Reads the checkpoint of a superblock: where it names a trailer, the chain of blocks backwards and their text forwards. It is
/// refused with the first block of the chain that isn't shown, or with the first test that fails: that of a link, of the text, of
/// the chain's own addresses, or of the ops that wait for their replies, each of which has its session. The grid is one in which no
/// address is held.
pub(crate) fn read_checkpoint<D: Disk>(
    disk: &mut D,
    file: &DataFile,
    content: &Super,
    grid: &mut Grid,
    trailer: &mut TrailerRooms,
) -> Result<Checkpoint, OpenError>
    requires rooms { AreRoomsOf file.now grid.old trailer.old.layout }
    requires file { AreFieldsOf file.now.layout file.now.cluster content.now }
    ensures reads { ReadsCheckpoint file.now (D.told disk.old) content.now grid.new result }
    ensures fits { FitsFile file.now grid.new trailer.new.layout }
    ensures same { D.told disk.new ≡ D.told disk.old }
    ensures cause { IsBlamed is_open_fault (D.faults disk.old) (D.faults disk.new) result }
{
    let fields = content.fields();
    if fields.trailer_address == 0 {
        return Ok(Checkpoint {
            root: ArrayVec::new(),
            sessions: SessionTable::new(file.layout.clients),
        });
    }
    let base = read_text(disk, file, content, grid, trailer)?;
    match pending(base.sessions.as_slice(), fields.replies, fields.op) {
        None => Ok(base),
        Some(op) => Err(OpenError::BadField {
            field: Field::Pending,
            value: u128::from(op),
        }),
    }
}
