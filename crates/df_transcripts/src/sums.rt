// Checksums of forged sectors: those of a superblock copy, and of a header with the body after it.
ghost use Rattle.std.specs.Prelude.{◌≤◌};

use crate::numbers::number;
use crate::sectors::{overlay, shown, write};
use crate::trouble::Trouble;
use df_base::{HEADER, SECTOR, check, u32_at};
use df_memdisk::MemoryDisk;

// Where a superblock copy's content begins, after its checksum and its number.
const CONTENT: usize = 32;

// The checksum of the body after a header at this place, of which the header says the size.
fn seal_body(bytes: &mut [u8; SECTOR], at: usize)
    requires { at ≤ 3840 }
{
    let size = u32_at(bytes, at + 112) as usize;
    let behind = &bytes[at + HEADER..];
    let sum = check(&behind[..size.saturating_sub(HEADER).min(behind.len())]);
    overlay(bytes, at + 16, &sum);
}

fn seal_header(bytes: &mut [u8; SECTOR], at: usize)
    requires { at ≤ 3840 }
{
    let sum = check(&bytes[at + 16..at + HEADER]);
    overlay(bytes, at, &sum);
}

// The checksum of a header at a place, and before it that of its body where that is asked for.
fn seal_unit(bytes: &mut [u8; SECTOR], at: u64, is_whole: bool) -> Result<(), Trouble> {
    if at > (SECTOR - HEADER) as u64 {
        return Err(Trouble::NoMeaning("no header has room there"));
    }
    let at = at as usize;
    if is_whole {
        seal_body(bytes, at);
    }
    seal_header(bytes, at);
    Ok(())
}

// The checksum of a copy.
fn seal_copy(bytes: &mut [u8; SECTOR]) {
    let sum = check(&bytes[CONTENT..]);
    overlay(bytes, 0, &sum);
}

/// Writes a sector with the right checksum: of a copy, of the unit at a place, or of the header there alone.
pub(crate) fn seal(disk: &mut MemoryDisk, words: &[String]) -> Result<(), Trouble> {
    let [sector, kind, rest @ ..] = words else {
        return Err(Trouble::NoMeaning("a sector and a kind are wanted"));
    };
    let sector = number(sector.as_str())?;
    let mut bytes = shown(disk, sector)?;
    match (kind.as_str(), rest) {
        ("copy", []) => seal_copy(&mut bytes),
        ("unit", [at]) => seal_unit(&mut bytes, number(at.as_str())?, true)?,
        ("header", [at]) => seal_unit(&mut bytes, number(at.as_str())?, false)?,
        _ => return Err(Trouble::NoMeaning("no such checksum")),
    }
    write(disk, sector, &bytes)
}
