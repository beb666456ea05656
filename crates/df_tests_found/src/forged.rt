// Files of version 2 of layout small and cluster 7, byte by byte: the copies of a superblock, and units without a body.
ghost use Rattle.std.specs.Prelude.{◌+◌, ◌≤◌, length};

use df_base::{Check, Failed, SECTOR, check, put_u64};
use df_disk::Disk;
use df_memdisk::MemoryDisk;
use std::alloc::Global;
use std::process::Abort;

/// No checksum.
pub(crate) const NONE: Check = [0; 16];

/// A prepare or a reply without a body, by its numbers; its slot is that of its op, or its session's place.
#[derive(Clone, Copy)]
pub(crate) struct Unit {
    /// A reply, or else a prepare.
    pub(crate) is_reply: bool,
    pub(crate) op: u64,
    /// The checksum of the prepare before it, zeros in a reply.
    pub(crate) parent: Check,
    /// The client and the number of its request.
    pub(crate) asked: (u64, u64),
    /// In a prepare how many replies were stored, in a reply the head then.
    pub(crate) mark: u64,
    pub(crate) boot: u64,
    /// The first and the last op of its group, zeros in a reply.
    pub(crate) group: (u64, u64),
    pub(crate) slot: u32,
}

/// A prepare that is a group by itself.
pub(crate) fn prepare(
    op: u64,
    parent: Check,
    client: u64,
    request: u64,
    mark: u64,
    boot: u64,
) -> Unit {
    Unit {
        is_reply: false,
        op,
        parent,
        asked: (client, request),
        mark,
        boot,
        group: (op, op),
        slot: (op % 32) as u32,
    }
}

/// A reply in the slot of a place.
pub(crate) fn reply(slot: u32, client: u64, request: u64, op: u64, mark: u64, boot: u64) -> Unit {
    Unit {
        is_reply: true,
        op,
        parent: NONE,
        asked: (client, request),
        mark,
        boot,
        group: (0, 0),
        slot,
    }
}

// Puts numbers of eight bytes at these offsets, one after the other: what stands less than eight bytes after another is put over its
// zeros. A caller's proof is told nothing of the bytes.
fn put_numbers(bytes: &mut [u8], numbers: &[(usize, u64)]) {
    for (at, number) in numbers {
        if *at < bytes.len() && bytes.len() - *at >= 8 {
            put_u64(bytes, *at, *number);
        }
    }
}

fn put_check(bytes: &mut [u8], at: usize, sum: &Check)
    requires { at + 16 ≤ length bytes.old }
{
    bytes[at..at + 16].copy_from_slice(sum);
}

// The header with its checksum made right.
fn sealed(mut bytes: [u8; 256]) -> [u8; 256] {
    let sum = check(&bytes[16..]);
    put_check(&mut bytes, 0, &sum);
    bytes
}

/// Its 256 bytes.
pub(crate) fn bytes_of(unit: &Unit) -> [u8; 256] {
    let mut bytes = [0u8; 256];
    let numbers = [
        (32, 7),
        (64, unit.asked.0),
        (80, unit.op),
        (88, unit.asked.1),
        (96, unit.mark),
        (104, 1),
        (112, 256),
        (116, u64::from(unit.slot)),
        (120, if unit.is_reply { 3 } else { 2 }),
        (122, 2),
        (124, unit.boot),
        (132, unit.group.0),
        (140, unit.group.1),
    ];
    put_numbers(&mut bytes, &numbers);
    put_check(&mut bytes, 16, &check(b""));
    put_check(&mut bytes, 48, &unit.parent);
    sealed(bytes)
}

pub(crate) fn sum_of(unit: &Unit) -> Check {
    let mut sum = NONE;
    sum.copy_from_slice(&bytes_of(unit)[..16]);
    sum
}

/// A superblock: the op of its checkpoint, its boot, head and number of replies, and the checksum of the reply at place 1. Of op 0 it is the first one, of sequence 1.
#[derive(Clone, Copy)]
pub(crate) struct Named {
    pub(crate) op: u64,
    pub(crate) boot: u64,
    /// With the checksum of its prepare.
    pub(crate) head: (u64, Check),
    pub(crate) replies: u64,
    pub(crate) second: Check,
}

// Puts the checkpoint of an op, whose trailer is said to be one block, at address 1.
fn put_checkpoint(bytes: &mut [u8; SECTOR], op: u64) {
    put_numbers(bytes, &[(72, 2), (80, op), (104, 1), (144, 100)]);
    put_check(bytes, 112, &[1; 16]);
    put_check(bytes, 128, &[2; 16]);
}

// Version 2, the five numbers of layout small, cluster 7 and sequence 1.
const FRONT: [(usize, u64); 8] = [
    (32, 2),
    (36, 32),
    (40, 8192),
    (44, 4),
    (48, 7),
    (64, 16384),
    (68, 64),
    (72, 1),
];

fn copy_of(named: &Named, number: u8) -> [u8; SECTOR] {
    let mut bytes = [0u8; SECTOR];
    bytes[16] = number;
    put_numbers(&mut bytes, &FRONT);
    if named.op > 0 {
        put_checkpoint(&mut bytes, named.op);
    }
    put_numbers(
        &mut bytes,
        &[(88, named.head.0), (96, named.replies), (152, named.boot)],
    );
    put_check(&mut bytes, 160, &named.head.1);
    put_check(&mut bytes, 208, &named.second);
    let sum = check(&bytes[32..]);
    put_check(&mut bytes, 0, &sum);
    bytes
}

// The reserved header of a slot.
fn reserved(slot: u32) -> [u8; 256] {
    let mut bytes = [0u8; 256];
    let numbers = [
        (32, 7),
        (112, 256),
        (116, u64::from(slot)),
        (120, 1),
        (122, 2),
    ];
    put_numbers(&mut bytes, &numbers);
    put_check(&mut bytes, 16, &check(b""));
    sealed(bytes)
}

// A header sector of reserved headers, of which the first is that of this slot.
fn reserved_from(first: u32) -> [u8; SECTOR] {
    let mut sector = [0u8; SECTOR];
    for place in 0..16u32 {
        let bytes = reserved(first.saturating_add(place));
        put_bytes(&mut sector, 256 * place as usize, &bytes);
    }
    sector
}

/// What is put on the disk, one after the other.
#[derive(Clone, Copy)]
pub(crate) enum Put {
    /// A prepare with its header.
    Both(Unit),
    Prepare(Unit),
    Header(Unit),
    Reply(Unit),
    /// A sector whose bytes are all 0xa5.
    Hurt(u64),
}

// Puts a header into a sector from this byte on.
fn put_bytes(sector: &mut [u8], at: usize, bytes: &[u8; 256])
    requires { at + 256 ≤ length sector.old }
{
    sector[at..at + 256].copy_from_slice(bytes);
}

fn put_unit(disk: &mut MemoryDisk, sector: u64, unit: &Unit) -> Result<(), Failed>
    requires { sector ≤ 336 }
{
    let mut bytes = [0u8; SECTOR];
    put_bytes(&mut bytes, 0, &bytes_of(unit));
    disk.write(sector, &bytes)
}

// The header ring begins at sector 4 with sixteen headers a sector.
fn put_header(disk: &mut MemoryDisk, unit: &Unit) -> Result<(), Failed> {
    let slot = unit.slot % 32;
    let sector = u64::from(4 + slot / 16);
    let at = 256 * (slot % 16) as usize;
    let mut bytes = [0u8; SECTOR];
    disk.read(sector, &mut bytes)?;
    put_bytes(&mut bytes, at, &bytes_of(unit));
    disk.write(sector, &bytes)
}

// The ring of prepares begins at sector 6 and the reply slots at 70, with two sectors a slot.
fn put_one(disk: &mut MemoryDisk, put: &Put) -> Result<(), Failed> {
    match put {
        Put::Both(unit) => {
            put_header(disk, unit)?;
            put_unit(disk, 6 + 2 * u64::from(unit.slot % 32), unit)
        }
        Put::Prepare(unit) => put_unit(disk, 6 + 2 * u64::from(unit.slot % 32), unit),
        Put::Header(unit) => put_header(disk, unit),
        Put::Reply(unit) => put_unit(disk, 70 + 2 * u64::from(unit.slot % 4), unit),
        Put::Hurt(sector) => { disk.write(*sector % 336, &[0xa5; SECTOR]) }
    }
}

// Writes such a file over a blank disk.
fn write_file(disk: &mut MemoryDisk, named: &Named, puts: &[Put]) -> Result<(), Failed> {
    for number in 0..4u8 {
        disk.write(u64::from(number), &copy_of(named, number))?;
    }
    disk.write(4, &reserved_from(0))?;
    disk.write(5, &reserved_from(16))?;
    for put in puts {
        put_one(disk, put)?;
    }
    Ok(())
}

/// A disk with such a file.
pub(crate) fn forge(rt: &impl Abort, alloc: Global, named: &Named, puts: &[Put]) -> MemoryDisk {
    let mut disk = MemoryDisk::new(alloc, Vec::new(alloc));
    write_file(&mut disk, named, puts).expect(rt, "a write");
    disk
}
