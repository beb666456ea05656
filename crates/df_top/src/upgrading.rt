// The word `upgrade`: a file of version 1 becomes one of version 2, and its sequence is printed.
ghost use Rattle.std.specs.Prelude.{◌≡◌, ℕ, List, Option};
ghost use Rattle.df_inspect.specs.Opening.{upgraded_text};
ghost use Rattle.df_top.specs.{Outside.{Blames, EndsWithFile, HasCauses, PrintsLine, around, counts}, Run.{IsWithout}, Upgrading.{RunsUpgrade, UpgradesIn}};

use crate::status::Status;
use df_base::Sink;
use df_buffers::ProbeRoom;
use df_disk::Disk;
use df_inspect::print_upgraded;
use df_program::{ended, refuse_file};
use df_upgrade::{Rooms, probe_version, upgrade_file};
use std::alloc::Global;

// The version that is asked for.
const VERSION: u32 = 1;

// Prints the sequence of a file that was upgraded.
fn tell_upgraded<W: Sink>(sink: &mut W, sequence: u64) -> Status
    ensures line { PrintsLine (upgraded_text sequence) Status.Done (W.written sink.old) (W.written sink.new) result }
    ensures sink { Blames Status.WriteFault (W.faults sink.old) (W.faults sink.new) result }
{
    ended(print_upgraded(sink, sequence), Status::Done)
}

// Upgrades the file that the disk shows, over rooms of its layout, and prints its sequence, or why it is refused. It takes no memory.
fn upgrade_there<D: Disk, W: Sink>(rooms: Rooms, sink: &mut W, disk: &mut D) -> Status
    ensures upgrades { (left : Option (List ℕ)) → UpgradesIn rooms.layout (around (D.told disk.old) left (W.written sink.old)) (around (D.told disk.new) left (W.written sink.new)) result }
    ensures causes { (source : ℕ) → HasCauses (counts (D.faults disk.old) source (W.faults sink.old)) (counts (D.faults disk.new) source (W.faults sink.new)) result }
    ensures ends { EndsWithFile result }
{
    match upgrade_file(disk, rooms) {
        Ok(upgraded) => tell_upgraded(sink, upgraded.sequence),
        Err((_, error)) => refuse_file(sink, &error),
    }
}

/// Finds the layout of the file of version 1 that the disk shows, takes the memory for it, and makes it one of version 2.
pub fn upgrade_old<D: Disk, W: Sink>(alloc: Global, sink: &mut W, disk: &mut D) -> Status
    ensures upgrades { (left : Option (List ℕ)) → RunsUpgrade (around (D.told disk.old) left (W.written sink.old)) (around (D.told disk.new) left (W.written sink.new)) result }
    ensures causes { (source : ℕ) → HasCauses (counts (D.faults disk.old) source (W.faults sink.old)) (counts (D.faults disk.new) source (W.faults sink.new)) result }
    ensures memory { (left : Option (List ℕ)) → result ≡ Status.Memory → IsWithout (around (D.told disk.old) left (W.written sink.old)) (around (D.told disk.new) left (W.written sink.new)) }
    ensures usage { result ≡ Status.Words → ⊥ }
{
    let Ok(mut room) = ProbeRoom::reserve(alloc) else {
        return Status::Memory;
    };
    match probe_version(disk, &mut room, VERSION) {
        Ok(layout) => match Rooms::reserve(alloc, &layout) {
            Ok(rooms) => upgrade_there(rooms, sink, disk),
            Err(_) => Status::Memory,
        },
        Err(error) => refuse_file(sink, &error),
    }
}
