// The words that print a report of a file: `inspect` surveys it and writes nothing to it, `recover` opens it, which mends it and raises its boot.
ghost use Rattle.std.specs.Prelude.{◌≡◌, ℕ, [], ◌∷◌, List, Option};
ghost use Rattle.df_base.specs.Log.{Sync};
ghost use Rattle.df_disk.specs.Adds.{AddsPart};
ghost use Rattle.df_inspect.specs.Reports.{summary_text};
ghost use Rattle.df_session.specs.Replica.{summary_of};
ghost use Rattle.df_top.specs.{declared.mode.Mode.{Mode}, Outside.{Blames, EndsWithFile, HasCauses, PrintsLine, around, counts}, Reporting.{OneReport, report_of, status_of}, Run.{ServesIn}};

use crate::status::Status;
use df_base::Sink;
use df_disk::Disk;
use df_inspect::{print_inspection, print_summary};
use df_layout::Mend;
use df_program::{ended, refuse_file};
use df_session::{Replica, Rooms, Surveyed, survey};

// Whether something is to be mended.
fn found(mends: &[Mend]) -> Status
    ensures is { result ≡ status_of mends.now }
    ensures told { result ≡ Status.WriteFault → ⊥ }
{
    if mends.is_empty() {
        Status::Done
    } else {
        Status::Found
    }
}

// Prints what a survey found.
fn report<W: Sink>(sink: &mut W, surveyed: &Surveyed) -> Status
    ensures prints { PrintsLine (report_of surveyed.now) (status_of surveyed.now.mends) (W.written sink.old) (W.written sink.new) result }
    ensures sink { Blames Status.WriteFault (W.faults sink.old) (W.faults sink.new) result }
{
    let mends = surveyed.to_mend();
    let summary = surveyed.summary();
    let done = print_inspection(sink, &summary, surveyed.root(), surveyed.sessions(), mends);
    ended(done, found(mends))
}

// Prints the numbers of an open file.
fn summarise<W: Sink>(sink: &mut W, replica: &Replica) -> Status
    ensures prints { PrintsLine (summary_text (summary_of replica.now)) Status.Done (W.written sink.old) (W.written sink.new) result }
    ensures sink { Blames Status.WriteFault (W.faults sink.old) (W.faults sink.new) result }
{
    ended(print_summary(sink, &replica.summary()), Status::Done)
}

/// Surveys the file and prints the report of what is found, or why the file is refused. Nothing is written to the disk, and no boot is raised.
pub fn inspect_file<D: Disk, W: Sink>(rooms: Rooms, sink: &mut W, disk: &mut D) -> Status
    ensures inspects { (left : Option (List ℕ)) → ServesIn Mode.Inspect rooms.layout (around (D.told disk.old) left (W.written sink.old))
        (around (D.told disk.new) left (W.written sink.new)) result }
    ensures syncs { AddsPart (Sync ∷ []) (D.told disk.old) (D.told disk.new) }
    ensures causes { (source : ℕ) → HasCauses (counts (D.faults disk.old) source (W.faults sink.old)) (counts (D.faults disk.new) source (W.faults sink.new)) result }
    ensures ends { EndsWithFile result }
{
    match survey(disk, rooms) {
        Ok(surveyed) => report(sink, &surveyed),
        Err((_, error)) => refuse_file(sink, &error),
    }
}

/// Opens the file, which mends it and raises its boot, and prints its summary, or why the file is refused.
pub fn recover_file<D: Disk, W: Sink>(rooms: Rooms, sink: &mut W, disk: &mut D) -> Status
    ensures recovers { (left : Option (List ℕ)) → ServesIn Mode.Recover rooms.layout (around (D.told disk.old) left (W.written sink.old))
        (around (D.told disk.new) left (W.written sink.new)) result }
    ensures causes { (source : ℕ) → HasCauses (counts (D.faults disk.old) source (W.faults sink.old)) (counts (D.faults disk.new) source (W.faults sink.new)) result }
    ensures ends { EndsWithFile result }
{
    match Replica::open(disk, rooms) {
        Ok(replica) => summarise(sink, &replica),
        Err((_, error)) => refuse_file(sink, &error),
    }
}

/// An image has one report: its text and its status are functions of what the disk shows and of the layout of the rooms.
pub fn an_image_has_one_report()
    ensures { OneReport }
{}
