// A case: its disks, and the lines that act on them or say what they show.
use crate::disks::{Disks, Named};
use crate::numbers::{bytes, number, span};
use crate::sectors::{copy, part, put, shown, stop, strike};
use crate::sums::seal;
use crate::trouble::Trouble;
use df_memdisk::MemoryDisk;
use std::alloc::Global;

// As many sectors as a case that asks which of them are loose may have.
const MOST_SECTORS: u64 = 4096;

/// These numbers.
pub(crate) fn numbers(alloc: Global, words: &[String]) -> Result<Vec<u64>, Trouble> {
    let mut numbers = Vec::new(alloc);
    for word in words {
        numbers.push(number(word.as_str())?)?;
    }
    Ok(numbers)
}

// A new disk that holds the first sectors of another one.
fn copy_disk(alloc: Global, disks: &mut Disks, words: &[String]) -> Result<(), Trouble> {
    let [name, of, count] = words else {
        return Err(Trouble::NoMeaning("a name, a disk and a number of sectors are wanted"));
    };
    let count = number(count.as_str())?;
    let made = copy(alloc, &mut disks.get(of.as_str())?.disk, count)?;
    disks.put(Named::new(alloc, name.as_str(), made)?)
}

// Writes a part of one sector into another one.
fn paste(alloc: Global, disk: &mut MemoryDisk, words: &[String]) -> Result<(), Trouble> {
    let [sector, at, size, from, place] = words else {
        return Err(Trouble::NoMeaning("five numbers are wanted"));
    };
    let size = number(size.as_str())?;
    let over = part(alloc, disk, from.as_str(), place.as_str(), size)?;
    put(disk, sector.as_str(), at.as_str(), &over)
}

// Writes bytes into a sector.
fn put_bytes(alloc: Global, disk: &mut MemoryDisk, words: &[String]) -> Result<(), Trouble> {
    let [sector, at, digits @ ..] = words else {
        return Err(Trouble::NoMeaning("a sector and a place are wanted"));
    };
    let over = bytes(alloc, digits)?;
    put(disk, sector.as_str(), at.as_str(), &over)
}

// What a line does to the disk that it names.
fn act_on(alloc: Global, named: &mut Named, act: &str, words: &[String]) -> Result<(), Trouble> {
    match act {
        "fail" => {
            named.disk.fail_at(numbers(alloc, words)?);
            Ok(())
        }
        "lose" => {
            named.lost = numbers(alloc, words)?;
            Ok(())
        }
        "mark" => {
            named.mark = named.disk.events();
            Ok(())
        }
        "stop" => stop(alloc, named, words),
        "strike" => strike(alloc, named, words),
        "put" => put_bytes(alloc, &mut named.disk, words),
        "paste" => paste(alloc, &mut named.disk, words),
        "seal" => seal(&mut named.disk, words),
        _ => Err(Trouble::NoMeaning("no such line")),
    }
}

/// Does what a line says that begins with this word.
pub(crate) fn act(
    alloc: Global,
    disks: &mut Disks,
    act: &str,
    words: &[String],
) -> Result<(), Trouble> {
    let [name, rest @ ..] = words else {
        return Err(Trouble::NoMeaning("no disk is named"));
    };
    match act {
        "disk" => {
            let blank = MemoryDisk::new(alloc, Vec::new(alloc));
            disks.put(Named::new(alloc, name.as_str(), blank)?)
        }
        "copy" => copy_disk(alloc, disks, words),
        _ => act_on(alloc, disks.get(name.as_str())?, act, rest),
    }
}

// Whether two disks show the same in their first sectors.
fn are_same(disks: &mut Disks, one: &str, other: &str, count: &str) -> Result<bool, Trouble> {
    for sector in 0..number(count)? {
        let left = shown(&mut disks.get(one)?.disk, sector)?;
        let right = shown(&mut disks.get(other)?.disk, sector)?;
        if left != right {
            return Ok(false);
        }
    }
    Ok(true)
}

// Whether a sector shows these bytes from a place on.
fn shows(alloc: Global, named: &mut Named, words: &[String]) -> Result<bool, Trouble> {
    let [sector, at, digits @ ..] = words else {
        return Err(Trouble::NoMeaning("a sector and a place are wanted"));
    };
    let wanted = bytes(alloc, digits)?;
    let size = wanted.len() as u64;
    let came = part(alloc, &mut named.disk, sector.as_str(), at.as_str(), size)?;
    Ok(came.as_slice() == wanted.as_slice())
}

// Whether one of these words names this sector.
fn names(words: &[String], sector: u64) -> Result<bool, Trouble> {
    for word in words {
        let (first, last) = span(word.as_str())?;
        if first <= sector && sector <= last {
            return Ok(true);
        }
    }
    Ok(false)
}

// Whether a disk's loose sectors, of the first ones, this many, are exactly these.
fn are_loose(named: &Named, words: &[String]) -> Result<bool, Trouble> {
    for sector in 0..MOST_SECTORS {
        if named.disk.is_loose(sector) != names(words, sector)? {
            return Ok(false);
        }
    }
    Ok(true)
}

/// Whether a line begins with a word that says what a disk was asked or shows.
pub(crate) fn is_said(word: &str) -> bool {
    matches!(word, "calls" | "events" | "bytes" | "same" | "loose")
}

/// Whether what a line says that begins with this word is so.
pub(crate) fn holds(
    alloc: Global,
    disks: &mut Disks,
    what: &str,
    words: &[String],
) -> Result<bool, Trouble> {
    match (what, words) {
        ("calls", [name, count]) => {
            let named = disks.get(name.as_str())?;
            let calls = named.disk.calls().saturating_sub(named.before.0);
            Ok(calls == number(count.as_str())?)
        }
        ("events", [name, count]) => {
            let named = disks.get(name.as_str())?;
            let events = named.disk.events().saturating_sub(named.before.1);
            Ok(events == number(count.as_str())?)
        }
        ("same", [one, other, count]) => {
            are_same(disks, one.as_str(), other.as_str(), count.as_str())
        }
        ("loose", [name, rest @ ..]) => are_loose(disks.get(name.as_str())?, rest),
        ("bytes", [name, rest @ ..]) => shows(alloc, disks.get(name.as_str())?, rest),
        _ => Err(Trouble::NoMeaning("other words are wanted")),
    }
}
