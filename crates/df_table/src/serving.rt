// A file is opened, its table is found, and the script is executed, in memory that was taken before.
ghost use Rattle.std.specs.Prelude.{◌≡◌, ◌*◌, ◌≤◌, Some, true, vec_len};
ghost use Rattle.df_base.specs.Image.{IsImage};
ghost use Rattle.df_disk.specs.Told.{Told};
ghost use Rattle.df_lines.specs.Room.{IsFresh, line_bound};
ghost use Rattle.df_model.specs.Work.{Work};
ghost use Rattle.df_rows.specs.Limits as limits;
ghost use Rattle.df_table.specs.{Outside.{EndsWithFile, HasTableCauses, back, failed, seen}, Ready.{IsBegun}, Run.{DoesTable}, Session.{ServesOpened}, Table.{empty_table}};

use crate::ending::tell_ending;
use crate::opening::open_table;
use crate::session::Session;
use crate::status::Status;
use crate::turns::serve_lines;
use df_base::{Sink, Source};
use df_disk::Disk;
use df_layout::Layout;
use df_lines::LineRoom;
use df_program::{Outside, refuse_file};
use df_rows::ObjectTable;
use df_session::{Replica, Rooms};

/// The memory of a session over a file.
#[derive(Drop)]
pub(crate) struct Reserved {
    /// The replica's.
    pub rooms: Rooms,
    /// The table's, which is empty.
    pub table: ObjectTable,
    /// The script's.
    pub lines: LineRoom,
    /// A block's.
    pub block: Vec<u8>,
}

// That of a session beside its replica, over a file of a layout.
#[derive(Drop)]
struct Opening {
    layout: Layout,
    table: ObjectTable,
    lines: LineRoom,
    block: Vec<u8>,
}

// Finds the table of a file that was opened, and executes the script.
fn serve_opened<D: Disk, S: Source, W: Sink>(
    outside: Outside<D, S, W>,
    replica: Replica,
    opening: Opening,
) -> Status
    requires live { replica.live ≡ true }
    requires layout { replica.file.layout ≡ opening.layout }
    requires lines { IsFresh (line_bound opening.layout) opening.lines }
    requires table { opening.table ≡ empty_table opening.layout }
    requires block { 64 * limits.rows_in_block opening.layout ≤ vec_len opening.block }
    ensures ends { EndsWithFile result }
    ensures serves { (w : Work) → IsBegun opening.layout w replica → (t : Told) → D.told outside.entry.disk.now ≡ Some t
        → ServesOpened opening.layout replica t (seen D.told S.left W.written outside.entry) (seen D.told S.left W.written (back outside.exit)) result }
    ensures causes { HasTableCauses (failed D.faults S.faults W.faults outside.entry) (failed D.faults S.faults W.faults (back outside.exit)) result }
{
    let Opening {
        layout,
        table,
        lines,
        block,
    } = opening;
    let mut replica = replica;
    match open_table(outside.disk, &mut replica, table, &layout) {
        Ok(table) => {
            let mut session = Session {
                layout,
                replica,
                table,
                lines,
                block,
                count: 0,
            };
            serve_lines(outside, &mut session)
        }
        Err(ending) => tell_ending(outside.sink, ending),
    }
}

/// Opens the file, finds its table, and executes the script.
pub(crate) fn serve_table<D: Disk, S: Source, W: Sink>(
    reserved: Reserved,
    outside: Outside<D, S, W>,
) -> Status
    requires lines { IsFresh (line_bound reserved.rooms.layout) reserved.lines }
    requires table { reserved.table ≡ empty_table reserved.rooms.layout }
    requires block { 64 * limits.rows_in_block reserved.rooms.layout ≤ vec_len reserved.block }
    ensures serves { (t : Told) → D.told outside.entry.disk.now ≡ Some t → IsImage t.shown
        → DoesTable reserved.rooms.layout t (seen D.told S.left W.written outside.entry) (seen D.told S.left W.written (back outside.exit)) result }
    ensures causes { HasTableCauses (failed D.faults S.faults W.faults outside.entry) (failed D.faults S.faults W.faults (back outside.exit)) result }
    ensures ends { EndsWithFile result }
{
    let Reserved {
        rooms,
        table,
        lines,
        block,
    } = reserved;
    match Replica::open(outside.disk, rooms) {
        Ok(replica) => {
            let layout = replica.summary().layout;
            let opening = Opening {
                layout,
                table,
                lines,
                block,
            };
            serve_opened(outside, replica, opening)
        }
        Err((_, error)) => refuse_file(outside.sink, &error),
    }
}
