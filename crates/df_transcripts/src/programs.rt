// The programs, each over disks in memory, and of which a caller's proof is told nothing.
use crate::disks::{Disks, Named};
use crate::running::{Ended, Run};
use crate::trouble::Trouble;
use df_base::{MemorySink, MemorySource};
use df_disk::Disk;
use df_layout::Layout;
use df_lines::LineRoom;
use df_memdisk::{DroppingDisk, MemoryDisk};
use df_top::{Mode, Rooms, mode_of, serve};
use std::alloc::Global;
use std::mem;

fn datafile<D: Disk>(
    alloc: Global,
    words: &[String],
    source: &mut MemorySource,
    sink: &mut MemorySink,
    disk: &mut D,
) -> df_top::Status {
    df_top::run(alloc, words, source, sink, disk)
}

// The word `run` in rooms that are taken before.
fn served(
    alloc: Global,
    layout: &Layout,
    words: &[String],
    source: &mut MemorySource,
    sink: &mut MemorySink,
    disk: &mut MemoryDisk,
) -> Result<df_top::Status, Trouble> {
    let Some(Mode::Run) = mode_of(words) else {
        return Err(Trouble::NoMeaning("the word `run` is wanted"));
    };
    let lines = LineRoom::reserve(alloc, layout)?;
    let rooms = Rooms::reserve(alloc, layout)?;
    Ok(serve(rooms, lines, words, source, sink, disk))
}

fn objecttable<D: Disk>(
    alloc: Global,
    words: &[String],
    source: &mut MemorySource,
    sink: &mut MemorySink,
    disk: &mut D,
) -> df_table::Status {
    df_table::run_table(alloc, words, source, sink, disk)
}

fn filecopy(
    alloc: Global,
    words: &[String],
    from: &mut MemoryDisk,
    to: &mut MemoryDisk,
    sink: &mut MemorySink,
) -> df_copy::Status {
    df_copy::copy(alloc, words, from, to, sink)
}

fn filemirror(
    alloc: Global,
    words: &[String],
    first: &mut MemoryDisk,
    second: &mut MemoryDisk,
    sink: &mut MemorySink,
) -> df_mirror::Status {
    df_mirror::mirror(alloc, words, first, second, sink)
}

// A program that reads a script, over one disk; the name of its status.
fn run_reading<D: Disk>(
    alloc: Global,
    is_table: bool,
    words: &[String],
    source: &mut MemorySource,
    sink: &mut MemorySink,
    disk: &mut D,
) -> Result<String, Trouble> {
    if is_table {
        let status = objecttable(alloc, words, source, sink, disk);
        return Ok(format!(in alloc; "{status:?}")?);
    }
    let status = datafile(alloc, words, source, sink, disk);
    Ok(format!(in alloc; "{status:?}")?)
}

// The same over a disk of which some writes are lost.
fn run_losing(
    alloc: Global,
    is_table: bool,
    words: &[String],
    source: &mut MemorySource,
    sink: &mut MemorySink,
    named: &mut Named,
) -> Result<String, Trouble> {
    if named.lost.is_empty() {
        return run_reading(alloc, is_table, words, source, sink, &mut named.disk);
    }
    let lost = mem::replace(&mut named.lost, Vec::new(alloc));
    let disk = mem::replace(&mut named.disk, MemoryDisk::new(alloc, Vec::new(alloc)));
    let mut losing = DroppingDisk::new(disk, lost);
    let status = run_reading(alloc, is_table, words, source, sink, &mut losing)?;
    named.disk = losing.into_disk();
    Ok(status)
}

// A program over two disks; the name of its status.
fn transfer(
    alloc: Global,
    is_mirror: bool,
    words: &[String],
    one: &mut MemoryDisk,
    other: &mut MemoryDisk,
    sink: &mut MemorySink,
) -> Result<String, Trouble> {
    if is_mirror {
        let status = filemirror(alloc, words, one, other, sink);
        return Ok(format!(in alloc; "{status:?}")?);
    }
    let status = filecopy(alloc, words, one, other, sink);
    Ok(format!(in alloc; "{status:?}")?)
}

// A run over one disk, which is the first of the words.
fn run_one(
    alloc: Global,
    disks: &mut Disks,
    run: &Run,
    is_table: bool,
    words: &[String],
    sink: &mut MemorySink,
) -> Result<String, Trouble> {
    let [disk, words @ ..] = words else {
        return Err(Trouble::NoMeaning("no disk is named"));
    };
    let mut source = run.source(alloc)?;
    let named = disks.get(disk.as_str())?;
    run_losing(alloc, is_table, words, &mut source, sink, named)
}

// The layout of this name.
fn layout_of(name: &str) -> Result<Layout, Trouble> {
    match name {
        "small" => Ok(Layout::small()),
        "large" => Ok(Layout::large()),
        _ => Err(Trouble::NoMeaning("no such layout")),
    }
}

// A run over one disk in rooms for a layout; both stand before the word.
fn run_served(
    alloc: Global,
    disks: &mut Disks,
    run: &Run,
    words: &[String],
    sink: &mut MemorySink,
) -> Result<String, Trouble> {
    let [disk, layout, words @ ..] = words else {
        return Err(Trouble::NoMeaning("a disk and a layout are wanted"));
    };
    let layout = layout_of(layout.as_str())?;
    let mut source = run.source(alloc)?;
    let named = disks.get(disk.as_str())?;
    let status = served(alloc, &layout, words, &mut source, sink, &mut named.disk)?;
    Ok(format!(in alloc; "{status:?}")?)
}

// A run over two disks, which are the first of the words.
fn run_two(
    alloc: Global,
    disks: &mut Disks,
    is_mirror: bool,
    words: &[String],
    sink: &mut MemorySink,
) -> Result<String, Trouble> {
    let [one, other, words @ ..] = words else {
        return Err(Trouble::NoMeaning("two disks are wanted"));
    };
    let mut one = disks.take(one.as_str())?;
    let mut other = disks.take(other.as_str())?;
    let status = transfer(
        alloc,
        is_mirror,
        words,
        &mut one.disk,
        &mut other.disk,
        sink,
    )?;
    disks.put(one)?;
    disks.put(other)?;
    Ok(status)
}

/// Whether a line of this first word is a run.
pub(crate) fn is_program(word: &str) -> bool {
    matches!(
        word,
        "datafile" | "serve" | "objecttable" | "filecopy" | "filemirror"
    )
}

/// Runs it.
pub(crate) fn run_program(alloc: Global, disks: &mut Disks, run: &Run) -> Result<Ended, Trouble> {
    let [program, words @ ..] = run.words.as_slice() else {
        return Err(Trouble::NoMeaning("no program is named"));
    };
    disks.begin_run();
    let mut sink = MemorySink::new(alloc, Vec::from_slice(alloc, &run.sink_fails)?);
    let status = match program.as_str() {
        "datafile" => run_one(alloc, disks, run, false, words, &mut sink)?,
        "serve" => run_served(alloc, disks, run, words, &mut sink)?,
        "objecttable" => run_one(alloc, disks, run, true, words, &mut sink)?,
        "filecopy" => run_two(alloc, disks, false, words, &mut sink)?,
        _ => run_two(alloc, disks, true, words, &mut sink)?,
    };
    if sink.refused() != 0 || disks.are_refused() {
        return Err(Trouble::OutOfMemory);
    }
    Ok(Ended {
        text: Vec::from_slice(alloc, sink.bytes())?,
        status,
    })
}
