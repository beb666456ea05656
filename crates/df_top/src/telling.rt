// What becomes of a session by what was heard of an answer: its line is printed, or the session ends.
ghost use Rattle.std.specs.Prelude.{◌≡◌, true};
ghost use Rattle.df_inspect.specs.Answers.{command_of};
ghost use Rattle.df_session.specs.Calls.{HasAnswer};
ghost use Rattle.df_top.specs.{Outside.{Blames}, Refusing.{PrintsFault}, Step.{AnswersCommand}, Turning.{BlamesIfEnds, TellsAnswer}};

use crate::status::Status;
use df_base::Sink;
use df_disk::Disk;
use df_inspect::print_answer;
use df_model::{Answer, Command};
use df_program::{Turn, printed, refuse_damaged};
use df_session::{Fault, Replica, make};

/// Prints why calls ended before the last one was answered; a failing disk has no line.
pub fn tell_fault<W: Sink>(sink: &mut W, fault: Fault) -> Status
    ensures prints { PrintsFault fault (W.written sink.old) (W.written sink.new) result }
    ensures sink { Blames Status.WriteFault (W.faults sink.old) (W.faults sink.new) result }
{
    match fault {
        Fault::Damaged { place, class } => refuse_damaged(sink, place, class),
        Fault::Disk => Status::DiskFault,
    }
}

/// Prints what was heard of an answer: its line, or why the session ends with it.
pub fn tell<W: Sink>(sink: &mut W, command: &Command, heard: Result<Answer, Fault>) -> Turn<Status>
    ensures told { TellsAnswer (command_of command.now) heard (W.written sink.old) (W.written sink.new) result }
    ensures sink { BlamesIfEnds Status.WriteFault (W.faults sink.old) (W.faults sink.new) result }
{
    match heard {
        Ok(answer) => printed(print_answer(sink, command, &answer)),
        Err(fault) => Turn::Ends(tell_fault(sink, fault)),
    }
}

/// Makes the call that a command asks for, and prints what it answers.
pub fn serve<D: Disk, W: Sink>(
    disk: &mut D,
    sink: &mut W,
    replica: &mut Replica,
    command: Command,
) -> Turn<Status>
    requires live { replica.old.live ≡ true }
    requires answer { HasAnswer (command_of command) }
    ensures answers { AnswersCommand (command_of command.entry) replica.old replica.new (D.told disk.old) (D.told disk.new) (W.written sink.old) (W.written sink.new) result }
    ensures disk { BlamesIfEnds Status.DiskFault (D.faults disk.old) (D.faults disk.new) result }
    ensures sink { BlamesIfEnds Status.WriteFault (W.faults sink.old) (W.faults sink.new) result }
{
    let heard = make(disk, replica, command);
    tell(sink, &command, heard)
}
