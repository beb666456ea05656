// What stands in the file: the notes that the ring keeps, read one by one and printed.
ghost use Rattle.std.specs.Prelude.{◌≡◌, true};
ghost use Rattle.df_base.specs.Causes.{HasCause, IsBlamed};
ghost use Rattle.df_inspect.specs.Prints.{Prints};
ghost use Rattle.df_script_model.specs.Texts.{line_of};
ghost use Rattle.df_notes.specs.{Ending.{is_disk_at_fault, is_sink}, Showing.{ShowsNote, ShowsNotes}};

use crate::ended::{Ended, why_ended};
use df_base::{Failed, Sink};
use df_disk::Disk;
use df_session::Replica;

// Prints a note as a line.
fn print_line<W: Sink>(sink: &mut W, note: &[u8]) -> Result<(), Failed>
    ensures prints { Prints (line_of note.now) (W.written sink.old) (W.written sink.new) result }
    ensures cause { HasCause (W.faults sink.old) (W.faults sink.new) result }
{
    match sink.write(note) {
        Ok(()) => sink.write(b"\n"),
        Err(failed) => Err(failed),
    }
}

// Reads a note, and prints it as a line.
fn print_note<D: Disk, W: Sink>(
    disk: &mut D,
    sink: &mut W,
    replica: &mut Replica,
    op: u64,
) -> Result<(), Ended>
    requires live { replica.old.live ≡ true }
    ensures shows { ShowsNote op replica.old replica.new (D.told disk.old) (W.written sink.old) (W.written sink.new) result }
    ensures same { D.told disk.new ≡ D.told disk.old }
    ensures disk { IsBlamed is_disk_at_fault (D.faults disk.old) (D.faults disk.new) result }
    ensures sink { IsBlamed is_sink (W.faults sink.old) (W.faults sink.new) result }
{
    match replica.read_prepare(disk, op) {
        Ok(unit) => match print_line(sink, unit.body()) {
            Ok(()) => Ok(()),
            Err(_) => Err(Ended::WriteFault),
        },
        Err(error) => Err(why_ended(&error)),
    }
}

/// Prints the notes after the last checkpoint, which the ring keeps, in order of op. Nothing is written to the file.
pub(crate) fn print_notes<D: Disk, W: Sink>(
    disk: &mut D,
    sink: &mut W,
    replica: &mut Replica,
) -> Result<(), Ended>
    requires live { replica.old.live ≡ true }
    ensures shows { ShowsNotes replica.old replica.new (D.told disk.old) (W.written sink.old) (W.written sink.new) result }
    ensures same { D.told disk.new ≡ D.told disk.old }
    ensures disk { IsBlamed is_disk_at_fault (D.faults disk.old) (D.faults disk.new) result }
    ensures sink { IsBlamed is_sink (W.faults sink.old) (W.faults sink.new) result }
{
    let summary = replica.summary();
    for before in summary.checkpoint_op..summary.head {
        print_note(disk, sink, replica, before + 1)?;
    }
    Ok(())
}
