// The word `format`: a file is made, and what became of it is printed.
ghost use Rattle.std.specs.Prelude.{◌≡◌};
ghost use Rattle.df_layout.specs.Zones.{file_sectors};
ghost use Rattle.df_inspect.specs.Opening.{formatted_text};
ghost use Rattle.df_units.specs.Within.{AddsWithin};
ghost use Rattle.df_top.specs.{Formats.{Formats, MakesFile}, Outside.{Blames, PrintsLine}, Refusing.{PrintsFormatError}};

use crate::status::Status;
use df_base::Sink;
use df_disk::Disk;
use df_inspect::{print_format_refusal, print_formatted};
use df_layout::Layout;
use df_program::ended;
use df_session::{FormatError, Rooms, format};
use std::alloc::Global;

// Prints why no file is made; a failing disk has no line.
fn refuse_format<W: Sink>(sink: &mut W, error: &FormatError) -> Status
    ensures prints { PrintsFormatError error.now (W.written sink.old) (W.written sink.new) result }
    ensures sink { Blames Status.WriteFault (W.faults sink.old) (W.faults sink.new) result }
{
    if *error == FormatError::DiskFault {
        return Status::DiskFault;
    }
    ended(print_format_refusal(sink, *error), Status::Refused)
}

// Prints how many sectors the file has that was made.
fn tell_formatted<W: Sink>(sink: &mut W, layout: &Layout) -> Status
    ensures line { PrintsLine (formatted_text (file_sectors layout.now)) Status.Done (W.written sink.old) (W.written sink.new) result }
    ensures sink { Blames Status.WriteFault (W.faults sink.old) (W.faults sink.new) result }
{
    ended(print_formatted(sink, layout.sectors()), Status::Done)
}

// Writes the file, and the line that says what became of it.
fn make<D: Disk, W: Sink>(disk: &mut D, sink: &mut W, rooms: &mut Rooms, cluster: u128) -> Status
    ensures formats { Formats rooms.old.layout cluster (D.told disk.old) (D.told disk.new) (W.written sink.old) (W.written sink.new) result }
    ensures makes { MakesFile rooms.old.layout cluster (D.told disk.old) (D.told disk.new) result }
    ensures within { AddsWithin rooms.old.layout (D.told disk.old) (D.told disk.new) }
    ensures disk { Blames Status.DiskFault (D.faults disk.old) (D.faults disk.new) result }
    ensures sink { Blames Status.WriteFault (W.faults sink.old) (W.faults sink.new) result }
    ensures memory { result ≡ Status.Memory → ⊥ }
{
    match format(disk, rooms, cluster) {
        Ok(()) => tell_formatted(sink, &rooms.layout()),
        Err(error) => refuse_format(sink, &error),
    }
}

/// Makes a file of a layout and a cluster on a disk whose superblock is blank.
pub fn make_file<D: Disk, W: Sink>(
    alloc: Global,
    disk: &mut D,
    sink: &mut W,
    layout: &Layout,
    cluster: u128,
) -> Status
    ensures formats { Formats layout.now cluster (D.told disk.old) (D.told disk.new) (W.written sink.old) (W.written sink.new) result }
    ensures makes { MakesFile layout.now cluster (D.told disk.old) (D.told disk.new) result }
    ensures within { AddsWithin layout.now (D.told disk.old) (D.told disk.new) }
    ensures disk { Blames Status.DiskFault (D.faults disk.old) (D.faults disk.new) result }
    ensures sink { Blames Status.WriteFault (W.faults sink.old) (W.faults sink.new) result }
{
    match Rooms::reserve(alloc, layout) {
        Ok(mut rooms) => make(disk, sink, &mut rooms, cluster),
        Err(_) => Status::Memory,
    }
}
