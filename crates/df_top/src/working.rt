// The word `workload`: a file is opened, a generated run is carried out on it, and what it did is printed.
ghost use Rattle.std.specs.Prelude.{◌≡◌, ◌≤◌, ◌<◌, ℕ, List, None, Option, false, true, OnOk};
ghost use Rattle.df_base.specs.Causes.{IsBlamed};
ghost use Rattle.df_workload.specs.{Asking.{asks}, Sound.{is_at_end, left}, declared.state.Point.{Point}};
ghost use Rattle.df_session.specs.Endings.{is_disk_fault};
ghost use Rattle.df_top.specs.{declared.mode.Mode.{Mode}, Outside.{Blames, EndsWithFile, HasCauses, around, counts}, Run.{ServesIn}, Works.{CanGoOn, Comes, PrintsRun, steps_left, workload_of}};

use crate::status::Status;
use crate::telling::tell_fault;
use crate::works::{make_call, make_next};
use df_base::Sink;
use df_disk::Disk;
use df_inspect::{Workload, print_workload};
use df_model::Command;
use df_program::{ended, refuse_file};
use df_session::{Fault, Replica, Rooms};
use df_workload::Generator;

// A generated run, and the replica that it works on.
#[derive(Drop)]
struct Running {
    replica: Replica,
    generator: Generator,
}

// Makes the next call of a run, and lets the run hear of its answer.
fn go_on<D: Disk>(disk: &mut D, run: &mut Running) -> Result<(), Fault>
    requires ready { CanGoOn run.old.generator run.old.replica }
    requires going { is_at_end run.old.generator.point ≡ false }
    ensures comes { Comes run.old.generator run.old.replica (D.told disk.old) run.new.generator run.new.replica (D.told disk.new) result }
    ensures ready { OnOk result (CanGoOn run.new.generator run.new.replica) }
    ensures less { OnOk result (left run.new.generator < left run.old.generator) }
    ensures disk { IsBlamed is_disk_fault (D.faults disk.old) (D.faults disk.new) result }
{
    let outcome = make_next(disk, &mut run.replica, &run.generator)?;
    run.generator.hear(outcome);
    Ok(())
}

// Carries out all rounds of a run.
fn go_through<D: Disk>(disk: &mut D, run: &mut Running) -> Result<(), Fault>
    requires ready { CanGoOn run.old.generator run.old.replica }
    ensures comes { Comes run.old.generator run.old.replica (D.told disk.old) run.new.generator run.new.replica (D.told disk.new) result }
    ensures ready { OnOk result (CanGoOn run.new.generator run.new.replica) }
    ensures ending { OnOk result (run.new.generator.point ≡ Point.Ending) }
    ensures disk { IsBlamed is_disk_fault (D.faults disk.old) (D.faults disk.new) result }
{
    while !run.generator.is_ending() {
        go_on(disk, run)?;
    }
    Ok(())
}

// Takes one step of the checkpoint that runs when all rounds are over.
fn end_step<D: Disk>(disk: &mut D, run: &mut Running) -> Result<(), Fault>
    requires ready { CanGoOn run.old.generator run.old.replica }
    requires ending { run.old.generator.point ≡ Point.Ending }
    requires running { run.old.generator.running ≡ true }
    ensures comes { Comes run.old.generator run.old.replica (D.told disk.old) run.new.generator run.new.replica (D.told disk.new) result }
    ensures ending { OnOk result (run.new.generator.point ≡ Point.Ending) }
    ensures less { OnOk result (steps_left run.new.generator run.new.replica < steps_left run.old.generator run.old.replica) }
    ensures ready { OnOk result (CanGoOn run.new.generator run.new.replica) }
    ensures disk { IsBlamed is_disk_fault (D.faults disk.old) (D.faults disk.new) result }
{
    let outcome = make_call(disk, &mut run.replica, Command::Advance)?;
    run.generator.hear(outcome);
    Ok(())
}

// Ends the checkpoint that runs when all rounds are over.
fn end_checkpoint<D: Disk>(disk: &mut D, run: &mut Running) -> Result<(), Fault>
    requires ready { CanGoOn run.old.generator run.old.replica }
    requires ending { run.old.generator.point ≡ Point.Ending }
    ensures comes { Comes run.old.generator run.old.replica (D.told disk.old) run.new.generator run.new.replica (D.told disk.new) result }
    ensures over { OnOk result (asks run.new.generator ≡ None) }
    ensures disk { IsBlamed is_disk_fault (D.faults disk.old) (D.faults disk.new) result }
{
    while run.generator.is_running() {
        end_step(disk, run)?;
    }
    Ok(())
}

// Carries out a run to its end.
fn work<D: Disk>(disk: &mut D, run: &mut Running) -> Result<(), Fault>
    requires ready { CanGoOn run.old.generator run.old.replica }
    ensures comes { Comes run.old.generator run.old.replica (D.told disk.old) run.new.generator run.new.replica (D.told disk.new) result }
    ensures over { OnOk result (asks run.new.generator ≡ None) }
    ensures disk { IsBlamed is_disk_fault (D.faults disk.old) (D.faults disk.new) result }
{
    go_through(disk, run)?;
    end_checkpoint(disk, run)
}

// What a run did, and the file after it.
fn report_of(run: &Running) -> Workload
    ensures { result ≡ workload_of run.now.generator run.now.replica }
{
    let counts = run.generator.counts();
    let summary = run.replica.summary();
    Workload {
        appended: counts.appended,
        replied: counts.replied,
        wrote: counts.wrote,
        released: counts.released,
        checkpoints: counts.checkpoints,
        refused: counts.refused,
        bytes: counts.bytes,
        head: summary.head,
        replies: summary.replies,
        sequence: summary.sequence,
    }
}

// Prints what a run did, or why it ended before.
fn tell<W: Sink>(sink: &mut W, run: &Running, worked: Result<(), Fault>) -> Status
    ensures prints { PrintsRun run.now.generator run.now.replica worked (W.written sink.old) (W.written sink.new) result }
    ensures sink { Blames Status.WriteFault (W.faults sink.old) (W.faults sink.new) result }
{
    match worked {
        Ok(()) => ended(print_workload(sink, &report_of(run)), Status::Done),
        Err(fault) => tell_fault(sink, fault),
    }
}

/// Opens the file, carries out the run of `count` rounds that begins with `seed`, and prints what it did, or why the file is
/// refused. It takes no memory.
pub fn workload_file<D: Disk, W: Sink>(
    rooms: Rooms,
    seed: u64,
    count: u64,
    sink: &mut W,
    disk: &mut D,
) -> Status
    requires some { 1 ≤ count }
    requires million { count ≤ 1000000 }
    ensures works { (left : Option (List ℕ))
        → ServesIn (Mode.Workload seed count) rooms.layout (around (D.told disk.old) left (W.written sink.old)) (around (D.told disk.new) left (W.written sink.new)) result }
    ensures causes { (source : ℕ) → HasCauses (counts (D.faults disk.old) source (W.faults sink.old)) (counts (D.faults disk.new) source (W.faults sink.new)) result }
    ensures ends { EndsWithFile result }
{
    match Replica::open(disk, rooms) {
        Ok(replica) => {
            let layout = replica.summary().layout;
            let generator = Generator::new(seed, count, layout.clients);
            let mut run = Running { replica, generator };
            let worked = work(disk, &mut run);
            tell(sink, &run, worked)
        }
        Err((_, error)) => refuse_file(sink, &error),
    }
}
