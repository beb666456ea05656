// Why a session ends before its script does, and the line that says so.
ghost use Rattle.std.specs.Prelude.{◌≡◌};
ghost use Rattle.df_base.specs.Causes.{HasCause};
ghost use Rattle.df_inspect.specs.Prints.{Prints};
ghost use Rattle.df_table.specs.{Outside.{Blames, WritesTableText}, Statuses.{ending_text, status_of}};

use crate::status::Status;
use df_base::{Failed, Sink};
use df_inspect::{text_line, write_line};
use df_layout::{Class, Place};
use df_program::print_damaged;
use df_rows::print_not_table;

/// Why a session ends.
#[derive(Clone, Copy, Debug, PartialEq, Eq)]
pub enum Ending {
    /// The disk failed.
    Disk,
    /// What stands at a place isn't what is known of it: a block or a prepare that is read, or a copy of the superblock after its write.
    Damaged { place: Place, class: Class },
    /// What stands at a place shows that the file is no table's.
    NotTable { place: Place },
    /// No op is left, or no request.
    OpsSpent,
    /// No checkpoint is left.
    SequenceSpent,
}

// The status of an ending.
fn status_of(ending: Ending) -> Status
    ensures { result ≡ status_of ending }
{
    match ending {
        Ending::Disk => Status::DiskFault,
        Ending::Damaged { place: _, class: _ }
        | Ending::NotTable { place: _ }
        | Ending::OpsSpent
        | Ending::SequenceSpent => Status::Refused,
    }
}

// The line of an ending; a failing disk has none.
fn print_ending<W: Sink>(sink: &mut W, ending: Ending) -> Result<(), Failed>
    ensures prints { Prints (ending_text ending) (W.written sink.old) (W.written sink.new) result }
    ensures cause { HasCause (W.faults sink.old) (W.faults sink.new) result }
{
    match ending {
        Ending::Disk => Ok(()),
        Ending::Damaged { place, class } => print_damaged(sink, place, class),
        Ending::NotTable { place } => print_not_table(sink, place),
        Ending::OpsSpent => write_line(sink, &text_line("refused OpsSpent\n")),
        Ending::SequenceSpent => write_line(sink, &text_line("refused SequenceSpent\n")),
    }
}

/// Prints why a session ends; a failing disk has no line.
pub(crate) fn tell_ending<W: Sink>(sink: &mut W, ending: Ending) -> Status
    ensures writes { WritesTableText (ending_text ending) (status_of ending) (W.written sink.old) (W.written sink.new) result }
    ensures disk { ending ≡ Ending.Disk → result ≡ Status.DiskFault }
    ensures sink { Blames Status.WriteFault (W.faults sink.old) (W.faults sink.new) result }
{
    if ending == Ending::Disk {
        return Status::DiskFault;
    }
    match print_ending(sink, ending) {
        Ok(()) => status_of(ending),
        Err(_) => Status::WriteFault,
    }
}
