// What no clause says: that a table comes through a disk in memory, and that a failed write is answered.
ghost use Rattle.std.specs.Prelude.{◌≡◌};
ghost use Rattle.df_headers.specs.Ring.{IsHeaderTable};

use crate::tests::rings::reserved_table;
use crate::tests::stored::Board;
use df_base::Failed;
use df_buffers::{HeaderSector, Identity, Raw, Wanted};
use df_format::Header;
use df_headers::{HeaderTable, read_sector, reserved_header};
use df_layout::{Class, Layout, Place, Zone};
use std::alloc::Global;
use std::process::Abort;

// Writes the second sector of a table.
fn write_second(
    board: &mut Board,
    layout: &Layout,
    table: &HeaderTable,
    room: &mut Raw<HeaderSector>,
) -> Result<(), Failed>
    requires slots { layout.now.slots ≡ 32 }
    requires table { IsHeaderTable layout.now 7 table.now }
{
    table.write_sector(board, room, 1)
}

fn shown(layout: &Layout, slot: u32, room: &Raw<HeaderSector>) -> Result<Header, Class> {
    let identity = Identity {
        layout: *layout,
        cluster: 7,
        place: Place {
            zone: Zone::WalHeaders,
            index: u64::from(slot),
        },
        wanted: Wanted::Any,
    };
    room.header_at(u64::from(slot % 16), &identity)
}

// Writes the second sector of a table of reserved headers of layout small.
fn write_reserved(rt: &impl Abort, alloc: Global, board: &mut Board) -> Result<(), Failed> {
    let layout = Layout::small();
    let table = reserved_table(alloc, &layout).expect(rt, "memory of a table");
    let mut room = Raw::reserve(alloc, &layout).expect(rt, "memory of a room");
    let written = write_second(board, &layout, &table, &mut room);
    assert!(rt; table.into_room().len() == 32);
    written
}

// A room for a sector of headers of layout small.
fn new_room(rt: &impl Abort, alloc: Global) -> Raw<HeaderSector> {
    Raw::reserve(alloc, &Layout::small()).expect(rt, "memory of a room")
}

#[test]
fn a_sector_shows_its_own_sixteen_headers(rt: HostRuntime) {
    let layout = Layout::small();
    let mut board = Board::failing(&rt, rt.alloc(), 0, 0);
    assert!(rt; write_reserved(&rt, rt.alloc(), &mut board) == Ok(()));
    let mut room = new_room(&rt, rt.alloc());
    for sector in 0..2u32 {
        assert!(rt; read_sector(&mut board, &mut room, sector) == Ok(()));
        for slot in 16 * sector..16 * sector + 16 {
            let expected = if sector == 1 {
                Ok(reserved_header(7, slot))
            } else {
                Err(Class::Blank)
            };
            assert!(rt; shown(&layout, slot, &room) == expected, "slot {slot}");
        }
    }
}

#[test]
fn a_failed_write_is_answered(rt: HostRuntime) {
    let mut board = Board::failing(&rt, rt.alloc(), 1, u64::MAX);
    assert!(rt; write_reserved(&rt, rt.alloc(), &mut board) == Err(Failed));
    let mut room = new_room(&rt, rt.alloc());
    assert!(rt; read_sector(&mut board, &mut room, 1) == Err(Failed));
    assert!(rt; board.faults == 2);
}
