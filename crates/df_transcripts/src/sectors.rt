// What becomes of the sectors of a disk between two runs: strikes, stops and writes of their own.
ghost use Rattle.std.specs.Prelude.{◌+◌, ◌≤◌, length};
ghost use Rattle.df_base.specs.declared.TheConstants.{SECTOR};

use crate::disks::Named;
use crate::numbers::{bytes, number, span};
use crate::trouble::Trouble;
use df_base::SECTOR;
use df_disk::Disk;
use df_memdisk::{Change, MemoryDisk, Strike};
use std::alloc::Global;
use std::mem;

// A read of one sector, and a write, of which a caller's proof is told nothing.
fn read_in(disk: &mut MemoryDisk, sector: u32, bytes: &mut [u8; SECTOR]) -> bool {
    disk.read(u64::from(sector), bytes).is_ok()
}

fn write_in(disk: &mut MemoryDisk, sector: u32, bytes: &[u8; SECTOR]) -> bool {
    disk.write(u64::from(sector), bytes).is_ok()
}

const PAST_END: Trouble = Trouble::NoMeaning("the bytes run past the sector's end");

const FAILS: Trouble = Trouble::NoMeaning("the disk fails, or has no such sector");

/// What a sector shows.
pub(crate) fn shown(disk: &mut MemoryDisk, sector: u64) -> Result<[u8; SECTOR], Trouble> {
    let mut bytes = [0u8; SECTOR];
    match u32::try_from(sector) {
        Ok(sector) if read_in(disk, sector, &mut bytes) => Ok(bytes),
        _ => Err(FAILS),
    }
}

/// Writes a sector, and doesn't sync it.
pub(crate) fn write(
    disk: &mut MemoryDisk,
    sector: u64,
    bytes: &[u8; SECTOR],
) -> Result<(), Trouble> {
    match u32::try_from(sector) {
        Ok(sector) if write_in(disk, sector, bytes) => Ok(()),
        _ => Err(FAILS),
    }
}

// The strike that two words say; events of `settled` are counted from the mark.
fn strike_by(how: &str, what: u64, mark: u64) -> Result<Strike, Trouble> {
    match how {
        "earlier" => Ok(Strike::Earlier { events: what }),
        "settled" => Ok(Strike::Earlier {
            events: mark.saturating_add(what),
        }),
        "like" => Ok(Strike::Like { sector: what }),
        _ => Err(Trouble::NoMeaning("no such strike")),
    }
}

// The strike that the words say.
fn strike_of(alloc: Global, words: &[String], mark: u64) -> Result<Strike, Trouble> {
    match words {
        [how] if how.as_str() == "heal" => Ok(Strike::Earlier { events: u64::MAX }),
        [how, digits] if how.as_str() == "fill" => {
            match bytes(alloc, std::slice::from_ref(digits))?.as_slice() {
                [byte] => Ok(Strike::Fill { byte: *byte }),
                _ => Err(Trouble::NoMeaning("one byte is wanted")),
            }
        }
        [how, what] => strike_by(how.as_str(), number(what.as_str())?, mark),
        _ => Err(Trouble::NoMeaning("no such strike")),
    }
}

fn strike_in(disk: &mut MemoryDisk, sector: u64, strike: Strike) -> Result<(), Trouble> {
    Ok(disk.strike(sector, strike)?)
}

/// Strikes the sectors of the first word as the others say.
pub(crate) fn strike(alloc: Global, named: &mut Named, words: &[String]) -> Result<(), Trouble> {
    let [sectors, how @ ..] = words else {
        return Err(Trouble::NoMeaning("no sector is named"));
    };
    let (first, last) = span(sectors.as_str())?;
    let strike = strike_of(alloc, how, named.mark)?;
    for sector in first..last.saturating_add(1) {
        strike_in(&mut named.disk, sector, strike)?;
    }
    Ok(())
}

// The first bytes of a sector are as written, and the others as before.
fn torn(now: &[u8; SECTOR], before: &[u8; SECTOR], at: usize) -> [u8; SECTOR]
    requires { at ≤ SECTOR }
{
    let mut bytes = *before;
    bytes[..at].copy_from_slice(&now[..at]);
    bytes
}

// What a stop leaves in a sector by this fate.
fn fated(disk: &mut MemoryDisk, sector: u64, fate: &str) -> Result<[u8; SECTOR], Trouble> {
    let now = shown(disk, sector)?;
    let events = disk.durable();
    strike_in(disk, sector, Strike::Earlier { events })?;
    let before = shown(disk, sector)?;
    match fate {
        "written" => Ok(now),
        "before" => Ok(before),
        "filled" => Ok([0xa5; SECTOR]),
        "torn" => Ok(torn(&now, &before, 512)),
        "halved" => Ok(torn(&now, &before, SECTOR / 2)),
        _ => Err(Trouble::NoMeaning("no such fate")),
    }
}

// Adds the changes of these sectors.
fn add_changes(
    disk: &mut MemoryDisk,
    changes: &mut Vec<Change>,
    sectors: &str,
    fate: &str,
) -> Result<(), Trouble> {
    let (first, last) = span(sectors)?;
    for sector in first..last.saturating_add(1) {
        let bytes = fated(disk, sector, fate)?;
        changes.push(Change { sector, bytes })?;
    }
    Ok(())
}

// The changes that the words say: sectors and their fate, in turn.
fn changes_of(
    alloc: Global,
    disk: &mut MemoryDisk,
    words: &[String],
) -> Result<Vec<Change>, Trouble> {
    let mut changes = Vec::new(alloc);
    let mut sectors = None;
    for word in words {
        match sectors {
            None => sectors = Some(word),
            Some(span) => {
                add_changes(disk, &mut changes, String::as_str(span), word.as_str())?;
                sectors = None;
            }
        }
    }
    match sectors {
        None => Ok(changes),
        Some(_) => Err(Trouble::NoMeaning("the sectors have no fate")),
    }
}

/// Stops a disk, whose loose sectors are left as the words say.
pub(crate) fn stop(alloc: Global, named: &mut Named, words: &[String]) -> Result<(), Trouble> {
    let changes = changes_of(alloc, &mut named.disk, words)?;
    let disk = mem::replace(&mut named.disk, MemoryDisk::new(alloc, Vec::new(alloc)));
    match disk.stop(changes) {
        Ok(disk) => {
            named.disk = disk;
            Ok(())
        }
        Err(_) => Err(Trouble::NoMeaning("a sector of the stop isn't loose")),
    }
}

/// Puts bytes into a sector from a place on.
pub(crate) fn overlay(bytes: &mut [u8; SECTOR], at: usize, over: &[u8])
    requires { at + length over.now ≤ SECTOR }
{
    bytes[at..at + over.len()].copy_from_slice(over);
}

/// Writes a sector with some of its bytes changed: the words are the sector, the first byte's place and the bytes.
pub(crate) fn put(
    disk: &mut MemoryDisk,
    sector: &str,
    at: &str,
    over: &[u8],
) -> Result<(), Trouble> {
    let sector = number(sector)?;
    let at = number(at)?;
    let mut bytes = shown(disk, sector)?;
    if at > SECTOR as u64 || over.len() > SECTOR - at as usize {
        return Err(PAST_END);
    }
    overlay(&mut bytes, at as usize, over);
    write(disk, sector, &bytes)
}

/// Some bytes of a sector: its number, the first byte's place and how many they are.
pub(crate) fn part(
    alloc: Global,
    disk: &mut MemoryDisk,
    sector: &str,
    at: &str,
    size: u64,
) -> Result<Vec<u8>, Trouble> {
    let bytes = shown(disk, number(sector)?)?;
    let at = number(at)?;
    if at > SECTOR as u64 || size > SECTOR as u64 - at {
        return Err(PAST_END);
    }
    let from = at as usize;
    Ok(Vec::from_slice(alloc, &bytes[from..from + size as usize])?)
}

// Copies this many sectors of one disk to a new one.
fn transfer(from: &mut MemoryDisk, to: &mut MemoryDisk, count: u64) -> Result<(), Trouble> {
    for sector in 0..count {
        let bytes = shown(from, sector)?;
        write(to, sector, &bytes)?;
    }
    match to.sync() {
        Ok(()) => Ok(()),
        Err(_) => Err(FAILS),
    }
}

/// A new disk with the first sectors of another one.
pub(crate) fn copy(
    alloc: Global,
    from: &mut MemoryDisk,
    count: u64,
) -> Result<MemoryDisk, Trouble> {
    let mut to = MemoryDisk::new(alloc, Vec::new(alloc));
    transfer(from, &mut to, count)?;
    to.fail_at(Vec::new(alloc));
    Ok(to)
}
