// The program: its words, the memory that it takes, and the file that it makes or serves.
ghost use Rattle.std.specs.Prelude.{◌≡◌, ℕ, [], ◌∷◌, map, string_bytes, IfOk};
ghost use Rattle.df_base.specs.Log.{Sync};
ghost use Rattle.df_disk.specs.Adds.{AddsPart};
ghost use Rattle.df_layout.specs.declared.layout.Layout.{Layout};
ghost use Rattle.df_lines.specs.Room.{IsFresh, line_bound};
ghost use Rattle.df_units.specs.Within.{AddsWithin};
ghost use Rattle.df_top.specs.{declared.mode.Mode.{Mode}, Mode.{AsksForFile, AsksScript, IsRunnable, Means, MeansNothing, ReadsScript}, Formats.{Formats, MakesFile}, Hurting.{RunsOverHurt}};
ghost use Rattle.df_top.specs.{Outside.{HasCauses, around, back, counts, failed, seen}, Reopening.{RunsOverHistory}, Run.{IsWithout, PrintsUsage, Runs}, Upgrading.{RunsUpgrade, UpgradesOverHurt}};
ghost use Rattle.df_top.specs.Within.{WritesOwn, WritesOwnAs};

use crate::making::make_file;
use crate::mode::{Mode, Task, mode_of, task_of};
use crate::serving::carry_out;
use crate::status::Status;
use crate::upgrading::upgrade_old;
use df_base::{OutOfMemory, Sink, Source};
use df_buffers::ProbeRoom;
use df_disk::Disk;
use df_layout::Layout;
use df_lines::LineRoom;
use df_program::{Outside, print_usage, refuse_file};
use df_session::{Rooms, probe};
use std::alloc::Global;

/// The line that says which words have a meaning.
pub const USAGE: &[u8] =
    b"usage: format LAYOUT CLUSTER | run | recover | inspect | scrub | workload SEED COUNT | upgrade | paced SCRUB EVERY STEPS\n";

// The memory of a session over a file.
#[derive(Drop)]
struct Reserved {
    rooms: Rooms,
    lines: LineRoom,
}

// Takes all the memory of a session over a file of a layout.
fn reserve(alloc: Global, layout: &Layout) -> Result<Reserved, OutOfMemory>
    ensures layout { IfOk result (λ reserved. reserved.rooms.layout ≡ layout.now) }
    ensures lines { IfOk result (λ reserved. IsFresh (line_bound layout.now) reserved.lines) }
{
    let lines = LineRoom::reserve(alloc, layout)?;
    let rooms = Rooms::reserve(alloc, layout)?;
    Ok(Reserved { rooms, lines })
}

// Finds the layout of the file that the disk shows, takes the memory for it, and carries out a word on it.
fn run_file<D: Disk, S: Source, W: Sink>(
    alloc: Global,
    mode: Mode,
    outside: Outside<D, S, W>,
) -> Status
    requires runnable { IsRunnable mode }
    ensures runs { Runs mode (seen D.told S.left W.written outside.entry) (seen D.told S.left W.written (back outside.exit)) result }
    ensures inspects { mode ≡ Mode.Inspect → AddsPart (Sync ∷ []) (D.told outside.entry.disk.now) (D.told (back outside.exit).disk.now) }
    ensures unread { (ReadsScript mode → ⊥) → S.left (back outside.exit).source.now ≡ S.left outside.entry.source.now }
    ensures causes { HasCauses (failed D.faults S.faults W.faults outside.entry) (failed D.faults S.faults W.faults (back outside.exit)) result }
    ensures memory { result ≡ Status.Memory → IsWithout (seen D.told S.left W.written outside.entry) (seen D.told S.left W.written (back outside.exit)) }
    ensures usage { result ≡ Status.Words → ⊥ }
{
    let Ok(mut room) = ProbeRoom::reserve(alloc) else {
        return Status::Memory;
    };
    match probe(outside.disk, &mut room) {
        Ok(layout) => match reserve(alloc, &layout) {
            Ok(reserved) => carry_out(mode, reserved.rooms, reserved.lines, outside),
            Err(_) => Status::Memory,
        },
        Err(error) => refuse_file(outside.sink, &error),
    }
}

/// Does what the words say, over a disk, a source and a sink. All memory is taken before the first write to the disk or to the
/// sink, but for the usage line and a refusal that come before any is taken.
pub fn run<D: Disk, S: Source, W: Sink>(
    alloc: Global,
    words: &[String],
    source: &mut S,
    sink: &mut W,
    disk: &mut D,
) -> Status
    // Words without a meaning print the usage line, and touch neither the disk nor the source. `run` and `paced` alone read a script.
    ensures usage { MeansNothing (map string_bytes words.now) → PrintsUsage (W.written sink.old) (W.written sink.new) result }
    ensures untouched { MeansNothing (map string_bytes words.now) → D.told disk.new ≡ D.told disk.old }
    ensures unread { (AsksScript (map string_bytes words.now) → ⊥) → S.left source.new ≡ S.left source.old }
    ensures words { result ≡ Status.Words → MeansNothing (map string_bytes words.now) }

    // `format` makes the file or refuses it; over a disk that was never written the log is safe at every moment.
    ensures formats { (layout : Layout) (cluster : ℕ) → Means (map string_bytes words.now) (Mode.Format layout cluster)
        → Formats layout cluster (D.told disk.old) (D.told disk.new) (W.written sink.old) (W.written sink.new) result }
    ensures makes { (layout : Layout) (cluster : ℕ) → Means (map string_bytes words.now) (Mode.Format layout cluster)
        → MakesFile layout cluster (D.told disk.old) (D.told disk.new) result }

    // The words that open a file or survey it refuse it by the first reason of the order of open. `run` serves the script as the machine does, and
    // keeps what it answered at every moment and at its end; `paced` does so too, with the work that is due after each line; `recover` prints the summary of a file that is mended and
    // whose boot is raised, as each word does it but `inspect`, which prints the report of what it finds, and adds nothing but the sync of its barrier; `scrub` prints
    // the referenced blocks that fail; `workload` carries out a generated run as the machine does, keeps what was answered, and
    // prints what it did.
    ensures runs { (mode : Mode) → AsksForFile mode → Means (map string_bytes words.now) mode
        → Runs mode (around (D.told disk.old) (S.left source.old) (W.written sink.old)) (around (D.told disk.new) (S.left source.new) (W.written sink.new)) result }
    ensures inspects { Means (map string_bytes words.now) Mode.Inspect → AddsPart (Sync ∷ []) (D.told disk.old) (D.told disk.new) }

    // `upgrade` asks for version 1: it refuses a file by the first reason of the order of open, or makes it one of version 2 and prints its
    // sequence. At each moment whatever is left has the state that was found, by the version of its own superblock.
    ensures upgrades { Means (map string_bytes words.now) Mode.Upgrade
        → RunsUpgrade (around (D.told disk.old) (S.left source.old) (W.written sink.old)) (around (D.told disk.new) (S.left source.new) (W.written sink.new)) result }

    // Every write lies within the zones of the file: of the one that is made, or of the one whose superblock is shown.
    ensures made_within { (layout : Layout) (cluster : ℕ) → Means (map string_bytes words.now) (Mode.Format layout cluster) → AddsWithin layout (D.told disk.old) (D.told disk.new) }
    ensures within { (mode : Mode) → AsksForFile mode → Means (map string_bytes words.now) mode → WritesOwn (D.told disk.old) (D.told disk.new) }
    ensures upgraded_within { Means (map string_bytes words.now) Mode.Upgrade → WritesOwnAs 1 (D.told disk.old) (D.told disk.new) }

    // Where sectors of the file were damaged, lost or swapped before, they find a state that the file really had, or refuse it
    // because of a sector that is hurt; and a read of a script gives what is the state's own, as it was written.
    ensures hurt { (mode : Mode) → AsksForFile mode → Means (map string_bytes words.now) mode
        → RunsOverHurt mode (around (D.told disk.old) (S.left source.old) (W.written sink.old)) (around (D.told disk.new) (S.left source.new) (W.written sink.new)) result }

    // Where they were before other opens, too, while two superblock copies were spared before each, the state is one that the file had
    // since the last open that raised its boot; and from the barrier on the history stays such a one at each moment.
    ensures lived { (mode : Mode) → AsksForFile mode → Means (map string_bytes words.now) mode
        → RunsOverHistory mode (around (D.told disk.old) (S.left source.old) (W.written sink.old)) (around (D.told disk.new) (S.left source.new) (W.written sink.new)) result }

    ensures upgraded_hurt { Means (map string_bytes words.now) Mode.Upgrade
        → UpgradesOverHurt (around (D.told disk.old) (S.left source.old) (W.written sink.old)) (around (D.told disk.new) (S.left source.new) (W.written sink.new)) result }

    // A call ends at its first fault: of the three counts one at most rises, once, that of what the status blames; want of memory
    // comes before anything was read or written.
    ensures causes { HasCauses (counts (D.faults disk.old) (S.faults source.old) (W.faults sink.old)) (counts (D.faults disk.new) (S.faults source.new) (W.faults sink.new)) result }
    ensures memory { result ≡ Status.Memory → IsWithout (around (D.told disk.old) (S.left source.old) (W.written sink.old)) (around (D.told disk.new) (S.left source.new) (W.written sink.new)) }
{
    match mode_of(words) {
        Some(mode) => match task_of(mode) {
            Task::Make { file } => make_file(alloc, disk, sink, &file.layout, file.cluster),
            Task::Upgrade => upgrade_old(alloc, sink, disk),
            Task::Open => run_file(alloc, mode, Outside { disk, source, sink }),
        },
        None => print_usage(sink, USAGE, Status::Words),
    }
}
