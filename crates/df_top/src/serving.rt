// A file is opened and its script is served, or another word is carried out, in rooms that were taken before.
ghost use Rattle.std.specs.Prelude.{◌≡◌, ℕ, List, [], ◌∷◌, Option, map, string_bytes};
ghost use Rattle.df_base.specs.Log.{Sync};
ghost use Rattle.df_disk.specs.Adds.{AddsPart};
ghost use Rattle.df_lines.specs.Room.{IsFresh, line_bound};
ghost use Rattle.df_top.specs.{Hurting.{ServesOverHurt}, Reopening.{ServesOverHistory}, declared.mode.Mode.{Mode}, Mode.{AsksOfFile, AsksScript, Executes, IsRunnable, Means, ReadsScript}};
ghost use Rattle.df_top.specs.{Outside.{EndsWithFile, HasCauses, around, back, counts, failed, seen}, Run.{ServesIn}, Within.{WritesIn}};

use crate::mode::{Mode, mode_of};
use crate::reporting::{inspect_file, recover_file};
use crate::scrubbing::scrub_file;
use crate::session::Session;
use crate::status::Status;
use crate::turns::serve_script;
use crate::working::workload_file;
use df_base::{Sink, Source};
use df_disk::Disk;
use df_lines::LineRoom;
use df_pace::{Beat, Pace};
use df_program::{Outside, refuse_file};
use df_session::{Replica, Rooms};

// Opens the file and serves the script, with this work beside it.
fn serve_file<D: Disk, S: Source, W: Sink>(
    rooms: Rooms,
    lines: LineRoom,
    pace: Pace,
    outside: Outside<D, S, W>,
) -> Status
    requires lines { IsFresh (line_bound rooms.layout) lines }
    ensures serves { (mode : Mode) → Executes mode pace
        → ServesIn mode rooms.layout (seen D.told S.left W.written outside.entry) (seen D.told S.left W.written (back outside.exit)) result }
    ensures causes { HasCauses (failed D.faults S.faults W.faults outside.entry) (failed D.faults S.faults W.faults (back outside.exit)) result }
    ensures ends { EndsWithFile result }
{
    match Replica::open(outside.disk, rooms) {
        Ok(replica) => {
            let beat = Beat::start(replica.summary().head);
            let mut session = Session {
                replica,
                lines,
                count: 0,
                pace,
                beat,
            };
            serve_script(outside, &mut session)
        }
        Err((_, error)) => refuse_file(outside.sink, &error),
    }
}

// Carries out a word on the file that the disk shows that reads no script.
fn work_on<D: Disk, W: Sink>(mode: Mode, rooms: Rooms, sink: &mut W, disk: &mut D) -> Status
    requires runnable { IsRunnable mode }
    requires unread { ReadsScript mode → ⊥ }
    ensures serves { (left : Option (List ℕ)) → ServesIn mode rooms.layout (around (D.told disk.old) left (W.written sink.old)) (around (D.told disk.new) left (W.written sink.new)) result }
    ensures inspects { mode ≡ Mode.Inspect → AddsPart (Sync ∷ []) (D.told disk.old) (D.told disk.new) }
    ensures causes { (source : ℕ) → HasCauses (counts (D.faults disk.old) source (W.faults sink.old)) (counts (D.faults disk.new) source (W.faults sink.new)) result }
    ensures ends { EndsWithFile result }
{
    match mode {
        Mode::Recover => recover_file(rooms, sink, disk),
        Mode::Inspect => inspect_file(rooms, sink, disk),
        Mode::Scrub => scrub_file(rooms, sink, disk),
        Mode::Workload { seed, count } => workload_file(rooms, seed, count, sink, disk),
        _ => unreachable!(),
    }
}

/// Carries out a word on the file that the disk shows, over rooms of one layout; takes no memory.
pub(crate) fn carry_out<D: Disk, S: Source, W: Sink>(
    mode: Mode,
    rooms: Rooms,
    lines: LineRoom,
    outside: Outside<D, S, W>,
) -> Status
    requires runnable { IsRunnable mode }
    requires lines { IsFresh (line_bound rooms.layout) lines }
    ensures serves { ServesIn mode rooms.layout (seen D.told S.left W.written outside.entry) (seen D.told S.left W.written (back outside.exit)) result }
    ensures inspects { mode ≡ Mode.Inspect → AddsPart (Sync ∷ []) (D.told outside.entry.disk.now) (D.told (back outside.exit).disk.now) }
    ensures unread { (ReadsScript mode → ⊥) → S.left (back outside.exit).source.now ≡ S.left outside.entry.source.now }
    ensures causes { HasCauses (failed D.faults S.faults W.faults outside.entry) (failed D.faults S.faults W.faults (back outside.exit)) result }
    ensures ends { EndsWithFile result }
{
    match mode {
        Mode::Run => serve_file(rooms, lines, Pace::idle(), outside),
        Mode::Paced { pace } => serve_file(rooms, lines, pace, outside),
        _ => {
            let Outside {
                disk,
                source: _,
                sink,
            } = outside;
            work_on(mode, rooms, sink, disk)
        }
    }
}

/// Carries out what the words ask for with the file that the disk shows, over rooms of one layout; takes no memory. A file of
/// another layout is refused.
pub fn serve<D: Disk, S: Source, W: Sink>(
    rooms: Rooms,
    lines: LineRoom,
    words: &[String],
    source: &mut S,
    sink: &mut W,
    disk: &mut D,
) -> Status
    requires words { AsksOfFile (map string_bytes words.now) }
    requires lines { IsFresh (line_bound rooms.layout) lines }
    ensures serves { (mode : Mode) → Means (map string_bytes words.now) mode
        → ServesIn mode rooms.layout (around (D.told disk.old) (S.left source.old) (W.written sink.old)) (around (D.told disk.new) (S.left source.new) (W.written sink.new)) result }
    ensures inspects { Means (map string_bytes words.now) Mode.Inspect → AddsPart (Sync ∷ []) (D.told disk.old) (D.told disk.new) }
    ensures hurt { (mode : Mode) → Means (map string_bytes words.now) mode
        → ServesOverHurt mode rooms.layout (around (D.told disk.old) (S.left source.old) (W.written sink.old)) (around (D.told disk.new) (S.left source.new) (W.written sink.new)) result }
    ensures lived { (mode : Mode) → Means (map string_bytes words.now) mode
        → ServesOverHistory mode rooms.layout (around (D.told disk.old) (S.left source.old) (W.written sink.old)) (around (D.told disk.new) (S.left source.new) (W.written sink.new)) result }
    ensures within { WritesIn rooms.layout (D.told disk.old) (D.told disk.new) }
    ensures unread { (AsksScript (map string_bytes words.now) → ⊥) → S.left source.new ≡ S.left source.old }
    ensures causes { HasCauses (counts (D.faults disk.old) (S.faults source.old) (W.faults sink.old)) (counts (D.faults disk.new) (S.faults source.new) (W.faults sink.new)) result }
    ensures memory { result ≡ Status.Memory → ⊥ }
    ensures usage { result ≡ Status.Words → ⊥ }
{
    match mode_of(words) {
        Some(mode) => carry_out(mode, rooms, lines, Outside { disk, source, sink }),
        None => unreachable!(),
    }
}
