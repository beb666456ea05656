// The word `scrub`: a file is opened, which mends it and raises its boot, and one tour of the scrubber is made over it. Each block that fails is printed
// before the next one is read.
ghost use Rattle.std.specs.Prelude.{◌≡◌, ℕ, List, Option, Some, true};
ghost use Rattle.df_disk.specs.Told.{Told};
ghost use Rattle.df_model.specs.Work.{first_tour};
ghost use Rattle.df_model.specs.declared.answers.Scrubbed.TheVariants as scrubs;
ghost use Rattle.df_script_model.specs.Texts.{scrubbed_text};
ghost use Rattle.df_top.specs.{declared.mode.Mode.{Mode}, Outside.{Blames, EndsWithFile, HasCauses, PrintsLine, around, counts}, Run.{ServesIn}, Scrubs.{PrintsTour, tour_status}};
ghost use Rattle.df_top.specs.{Touring.{EndsTour, TakesStep, TellsStep, TellsTourFound}, Turning.{BlamesIfEnds}};

use crate::status::Status;
use df_base::Sink;
use df_disk::Disk;
use df_inspect::{print_failing, print_tour};
use df_layout::Finding;
use df_model::{Answer, Command};
use df_program::{Turn, ended, printed, refuse_file};
use df_session::{Replica, Rooms, Scrubbed, Verdict, make};

// How a tour ends that listed this many blocks.
fn listed(failing: u64) -> Status
    ensures is { result ≡ tour_status failing }
    ensures told { result ≡ Status.WriteFault → ⊥ }
{
    if failing == 0 {
        Status::Done
    } else {
        Status::Found
    }
}

// Prints how many blocks a tour checked, and how many of them fail.
fn end_tour<W: Sink>(sink: &mut W, checked: u64, failing: u64) -> Status
    ensures prints { PrintsLine (scrubbed_text (scrubs.TourEnd checked failing)) (tour_status failing) (W.written sink.old) (W.written sink.new) result }
    ensures sink { Blames Status.WriteFault (W.faults sink.old) (W.faults sink.new) result }
{
    ended(print_tour(sink, checked, failing), listed(failing))
}

// Prints what a step found: a block that fails, or the end of the tour.
fn tell<W: Sink>(sink: &mut W, scrubbed: Scrubbed) -> Turn<Status>
    ensures tells { TellsStep scrubbed (W.written sink.old) (W.written sink.new) result }
    ensures sink { BlamesIfEnds Status.WriteFault (W.faults sink.old) (W.faults sink.new) result }
{
    match scrubbed {
        Scrubbed::Checked {
            address: _,
            verdict: Verdict::Sound,
        } => Turn::GoesOn,
        Scrubbed::Checked {
            address,
            verdict: Verdict::Failing(class),
        } => printed(print_failing(sink, Finding { address, class })),
        Scrubbed::TourEnd { checked, failing } => Turn::Ends(end_tour(sink, checked, failing)),
    }
}

// Takes a step of the tour, and prints what it found.
fn check_next<D: Disk, W: Sink>(disk: &mut D, sink: &mut W, replica: &mut Replica) -> Turn<Status>
    requires live { replica.old.live ≡ true }
    ensures steps { TakesStep replica.old replica.new (D.told disk.old) (W.written sink.old) (W.written sink.new) result }
    ensures same { D.told disk.new ≡ D.told disk.old }
    ensures disk { BlamesIfEnds Status.DiskFault (D.faults disk.old) (D.faults disk.new) result }
    ensures sink { BlamesIfEnds Status.WriteFault (W.faults sink.old) (W.faults sink.new) result }
{
    match make(disk, replica, Command::Scrub) {
        Ok(Answer::Scrub(scrubbed)) => tell(sink, scrubbed),
        Ok(_) => unreachable!(),
        Err(_) => Turn::Ends(Status::DiskFault),
    }
}

// Takes steps up to the end of the tour, and prints what they find. Where the disk fails in one, what was found before is printed.
fn tour<D: Disk, W: Sink>(disk: &mut D, sink: &mut W, replica: &mut Replica) -> Status
    requires live { replica.old.live ≡ true }
    ensures tours { (t : Told) → D.told disk.old ≡ Some t → replica.old.tour ≡ first_tour
        → PrintsTour replica.old t.shown (W.written sink.old) (W.written sink.new) result }
    ensures found { (t : Told) → D.told disk.old ≡ Some t → replica.old.tour ≡ first_tour → result ≡ Status.DiskFault
        → TellsTourFound replica.new.tour.failing (W.written sink.old) (W.written sink.new) }
    ensures ends { EndsTour result }
    ensures same { D.told disk.new ≡ D.told disk.old }
    ensures disk { Blames Status.DiskFault (D.faults disk.old) (D.faults disk.new) result }
    ensures sink { Blames Status.WriteFault (W.faults sink.old) (W.faults sink.new) result }
{
    loop {
        match check_next(disk, sink, replica) {
            Turn::GoesOn => {}
            Turn::Ends(status) => return status,
        }
    }
}

/// Opens the file, which mends it and raises its boot, and prints the referenced blocks that fail, or why the file is refused.
pub fn scrub_file<D: Disk, W: Sink>(rooms: Rooms, sink: &mut W, disk: &mut D) -> Status
    ensures scrubs { (left : Option (List ℕ)) → ServesIn Mode.Scrub rooms.layout (around (D.told disk.old) left (W.written sink.old)) (around (D.told disk.new) left (W.written sink.new)) result }
    ensures causes { (source : ℕ) → HasCauses (counts (D.faults disk.old) source (W.faults sink.old)) (counts (D.faults disk.new) source (W.faults sink.new)) result }
    ensures ends { EndsWithFile result }
{
    match Replica::open(disk, rooms) {
        Ok(mut replica) => tour(disk, sink, &mut replica),
        Err((_, error)) => refuse_file(sink, &error),
    }
}
