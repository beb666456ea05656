// The lines of a script that read: each call lends the unit that it read, and its line is printed from there.
ghost use Rattle.std.specs.Prelude.{◌≡◌, true};
ghost use Rattle.df_inspect.specs.Answers.{command_of};
ghost use Rattle.df_top.specs.{Step.{AnswersCommand}, Turning.{BlamesIfEnds, LendsUnit}};

use crate::status::Status;
use crate::telling::tell;
use df_base::Sink;
use df_disk::Disk;
use df_inspect::{print_block, print_prepare, print_reply};
use df_model::{Answer, Command};
use df_program::{Turn, printed};
use df_session::{Replica, hear};

/// Reads a prepare, a client's stored reply or a live block, and prints it or why it isn't read.
pub fn read<D: Disk, W: Sink>(
    disk: &mut D,
    sink: &mut W,
    replica: &mut Replica,
    command: Command,
) -> Turn<Status>
    requires live { replica.old.live ≡ true }
    requires lends { LendsUnit (command_of command) }
    ensures answers { AnswersCommand (command_of command.entry) replica.old replica.new (D.told disk.old) (D.told disk.new) (W.written sink.old) (W.written sink.new) result }
    ensures disk { BlamesIfEnds Status.DiskFault (D.faults disk.old) (D.faults disk.new) result }
    ensures sink { BlamesIfEnds Status.WriteFault (W.faults sink.old) (W.faults sink.new) result }
{
    match command {
        Command::ReadPrepare { op } => match replica.read_prepare(disk, op) {
            Ok(unit) => printed(print_prepare(sink, unit.header(), unit.body())),
            Err(error) => tell(sink, &command, hear(Answer::ReadPrepare(Err(error)))),
        },
        Command::ReadReply { client } => match replica.read_reply(disk, client) {
            Ok(unit) => printed(print_reply(sink, unit.header(), unit.body())),
            Err(error) => tell(sink, &command, hear(Answer::ReadReply(Err(error)))),
        },
        Command::ReadBlock { address } => match replica.read_block(disk, address) {
            Ok(unit) => printed(print_block(sink, address, unit.header(), unit.body())),
            Err(error) => tell(sink, &command, hear(Answer::ReadBlock(Err(error)))),
        },
        _ => unreachable!(),
    }
}
