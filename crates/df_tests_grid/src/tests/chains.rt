// Trailers that are written and read again, and chains that nobody wrote. Expected values are worked out by hand from the rules of the
// text and of the chain.
ghost use Rattle.std.specs.Prelude.{length, ◌≡◌, ◌-◌, ◌%◌, Some, None, nat_le, if◌then◌else◌, replicate};
ghost use Rattle.df_base.specs.Fields.{field_at};

use crate::tests::chain_examples::{Held, begin, grid_of, read, write_any, write_one, write_two};
use crate::tests::trailers::layout_of;
use arrayvec::ArrayVec;
use df_base::{Check, Failed};
use df_checkpoint::{Capture, TrailerFault, pending, write_piece};
use df_disk::Disk;
use df_format::{Reference, decode_header};
use df_layout::{Class, Field, Layout};
use df_memdisk::{MemoryDisk, Strike};
use df_sessions::Session;
use df_trailer::{CapturedBlocks, piece};
use std::alloc::Global;

// The 232 addresses from 793 on are referenced, each with a checksum of its own number.
struct Highest;

impl CapturedBlocks for Highest {
    ghost captured = { λ s address. if nat_le 793 address then Some (field_at 16 0 (replicate 16 (address % 256))) else None };

    fn captured(&self, address: u64) -> Option<Check> {
        if address >= 793 {
            Some([(address % 256) as u8; 16])
        } else {
            None
        }
    }

    fn counted(&self, _groups: u64) -> Option<u64> {
        None
    }
}

// A text of layout small that references the block at a place, with a checksum of fours, and has no root and no session.
fn text_with(place: usize) -> [u8; 32] {
    let mut text = [4; 32];
    text[..16].fill(0);
    if place < 64 {
        text[8 + place / 8] = 1 << (place % 8);
    }
    text
}

fn broken(address: u64) -> Option<Result<Held, TrailerFault>> {
    Some(Err(TrailerFault::BadField {
        field: Field::TrailerChain,
        value: u128::from(address),
    }))
}

// A checkpoint with a root of one byte and one session is written as a trailer.
fn write_captured(
    alloc: Global,
    disk: &mut MemoryDisk,
    room: &mut [u8],
) -> Result<Option<Reference>, Failed>
    requires { length room.old ≡ 3840 }
{
    let mut grid = grid_of(alloc, layout_of(1024))?;
    let mut capture = Capture {
        root: ArrayVec::new(),
        sessions: ArrayVec::new(),
        sequence: 2,
    };
    capture.root.push(5);
    capture.sessions.push(Session {
        client: 7,
        request: 2,
        op: 9,
        reply: None,
    });
    begin(&mut grid, 1)?;
    write_piece(disk, &mut grid, &capture, room, 0)?;
    Ok(grid.trailer())
}

#[test]
fn a_checkpoint_is_written_and_read(rt: HostRuntime) {
    let layout = layout_of(1024);
    let mut disk = MemoryDisk::new(rt.alloc(), Vec::new(rt.alloc()));
    let mut room = [0; 3840];
    let Some(last) = write_captured(rt.alloc(), &mut disk, &mut room).expect(&rt, "it succeeds")
    else {
        panic!(rt; "the last block is written");
    };
    let held = Held {
        next: Some(2),
        free: 1023,
        last: None,
    };
    let answer = read(rt.alloc(), &mut disk, layout, last, 169, 9);
    assert!(rt; answer == Some(Ok(held)));
}

#[test]
fn a_chain_of_two_blocks_is_read(rt: HostRuntime) {
    let layout = layout_of(1024);
    let mut disk = MemoryDisk::new(rt.alloc(), Vec::new(rt.alloc()));
    let mut front = [0; 3840];
    let _whole = piece(&layout, &[], &[], &Highest, 0, &mut front);
    let mut back = [0; 3840];
    let _rest = piece(&layout, &[], &[], &Highest, 1, &mut back);
    let Some(last) = write_two(rt.alloc(), &mut disk, layout, &front, &back[..8]).expect(
        &rt,
        "it succeeds",
    ) else {
        panic!(rt; "the last block is written");
    };
    let held = Held {
        next: Some(3),
        free: 790,
        last: Some([0; 16]),
    };
    assert!(rt; read(rt.alloc(), &mut disk, layout, last, 3848, 0) == Some(Ok(held)));
    assert!(rt; read(rt.alloc(), &mut disk, layout, last, 3847, 0) == broken(2));
    disk.strike(22, Strike::Fill { byte: 0xa5 })
        .expect(&rt, "it succeeds");
    let damaged = TrailerFault::Damaged {
        address: 1,
        class: Class::Garbled,
    };
    assert!(rt; read(rt.alloc(), &mut disk, layout, last, 3848, 0) == Some(Err(damaged)));
}

// The front of a sector, where its header stands.
fn front_of(bytes: &[u8; 4096]) -> [u8; 256] {
    let mut front = [0; 256];
    front.copy_from_slice(&bytes[..256]);
    front
}

// The version and the boot of the header in a sector.
fn made_in(disk: &mut MemoryDisk, sector: u8) -> Option<(u16, u64)> {
    let mut bytes = [0; 4096];
    disk.read(u64::from(sector), &mut bytes).ok()?;
    decode_header(&front_of(&bytes)).map(|header| (header.version, header.boot))
}

// Three blocks of layout small, whose grid is at sector 80 and has blocks of four sectors.
fn write_three(alloc: Global, disk: &mut MemoryDisk) -> Result<(), Failed> {
    let mut grid = grid_of(alloc, Layout::small())?;
    begin(&mut grid, 3)?;
    write_any(disk, &mut grid, 0, 3, &[1])?;
    grid.set_boot(3);
    write_any(disk, &mut grid, 1, 2, &[2])?;
    grid.set_boot(1 << 62);
    write_any(disk, &mut grid, 2, 1, &[3])
}

#[test]
fn a_block_is_sealed_in_the_boot_that_was_set_last(rt: HostRuntime) {
    let mut disk = MemoryDisk::new(rt.alloc(), Vec::new(rt.alloc()));
    assert!(rt; write_three(rt.alloc(), &mut disk) == Ok(()));
    assert!(rt; made_in(&mut disk, 80) == Some((1, 0)));
    assert!(rt; made_in(&mut disk, 84) == Some((2, 3)));
    assert!(rt; made_in(&mut disk, 88) == Some((2, 1 << 62)));
}

#[test]
fn a_block_with_another_index_is_refused(rt: HostRuntime) {
    let small = Layout::small();
    let mut disk = MemoryDisk::new(rt.alloc(), Vec::new(rt.alloc()));
    let text = text_with(4);
    let Some(last) = write_two(rt.alloc(), &mut disk, small, &text, &text).expect(
        &rt,
        "it succeeds",
    ) else {
        panic!(rt; "the last block is written");
    };
    assert!(rt; read(rt.alloc(), &mut disk, small, last, 32, 0) == broken(2));
}

// The block is written by the first device call, and read by the second.
#[test]
fn a_bit_at_an_address_of_the_chain_is_refused(rt: HostRuntime) {
    let small = Layout::small();
    let failed = Some(Err(TrailerFault::DiskFault));
    for (failing, answer) in [(0, broken(1)), (2, failed)] {
        let mut disk = MemoryDisk::new(
            rt.alloc(),
            Vec::from_slice(rt.alloc(), &[failing]).expect(&rt, "it succeeds"),
        );
        let Some(last) = write_one(rt.alloc(), &mut disk, small, &text_with(0)).expect(
            &rt,
            "it succeeds",
        ) else {
            panic!(rt; "the last block is written");
        };
        assert!(rt; read(rt.alloc(), &mut disk, small, last, 32, 0) == answer);
    }
}

#[test]
fn the_least_op_without_a_session_is_pending(rt: HostRuntime) {
    let session = |op| Session {
        client: 7,
        request: 1,
        op,
        reply: None,
    };
    let sessions = [session(5), session(3), session(9)];
    assert!(rt; pending(&sessions, 2, 3) == None);
    assert!(rt; pending(&sessions, 2, 5) == Some(4));
    assert!(rt; pending(&sessions, 4, 9) == Some(6));
    assert!(rt; pending(&sessions, 8, 9) == None);
    assert!(rt; pending(&sessions, 9, 4) == None);
    assert!(rt; pending(&[], 0, 1) == Some(1));
}
