// The one call that a command asks for, and what is heard of it.
ghost use Rattle.std.specs.Prelude.{◌≡◌, true, OnOk};
ghost use Rattle.df_base.specs.Causes.{IsBlamed};
ghost use Rattle.df_model.specs.{Called.{command_of}, Commands.{Scrub}};
ghost use Rattle.df_session.specs.{Calls.{HasAnswer}, Endings.{KeepsTour, MakesTo, is_disk_fault}};

use crate::hearing::{Fault, hear};
use df_disk::Disk;
use df_model::{Answer, Command};
use df_replica::Replica;

// Takes a step of the scrubber. What it finds says nothing of a disk that failed, so nothing else is heard of that.
fn check<D: Disk>(disk: &mut D, replica: &mut Replica) -> Result<Answer, Fault>
    requires live { replica.old.live ≡ true }
    ensures makes { MakesTo Scrub replica.old replica.new (D.told disk.old) (D.told disk.new) result }
    ensures tour { KeepsTour Scrub replica.old replica.new result }
    ensures live { OnOk result (replica.new.live ≡ true) }
    ensures disk { IsBlamed is_disk_fault (D.faults disk.old) (D.faults disk.new) result }
{
    match replica.scrub_step(disk) {
        Ok(scrubbed) => Ok(Answer::Scrub(scrubbed)),
        Err(_) => Err(Fault::Disk),
    }
}

/// Makes the call that a command asks for, and answers what is heard of it. What a read reads is lent by the call itself, so no
/// read is made here.
pub fn make<D: Disk>(disk: &mut D, replica: &mut Replica, command: Command) -> Result<Answer, Fault>
    requires live { replica.old.live ≡ true }
    requires answer { HasAnswer (command_of command) }
    ensures makes { MakesTo (command_of command.entry) replica.old replica.new (D.told disk.old) (D.told disk.new) result }
    ensures tour { KeepsTour (command_of command.entry) replica.old replica.new result }
    ensures live { OnOk result (replica.new.live ≡ true) }
    ensures disk { IsBlamed is_disk_fault (D.faults disk.old) (D.faults disk.new) result }
{
    match command {
        Command::Append {
            client,
            request,
            body,
        } => hear(Answer::Append(replica.append(disk, client, request, body))),
        Command::Stage {
            client,
            request,
            body,
        } => hear(Answer::Stage(replica.stage(client, request, body))),
        Command::Flush => hear(Answer::Flush(replica.flush(disk))),
        Command::Reply { op, body } => hear(Answer::Reply(replica.reply(disk, op, body))),
        Command::WriteBlock { kind, body } => {
            hear(Answer::WriteBlock(replica.write_block(disk, kind, body)))
        }
        Command::Release { address } => hear(Answer::Release(replica.release(address))),
        Command::Begin { root } => hear(Answer::Begin(replica.checkpoint_begin(root))),
        Command::Advance => hear(Answer::Advance(replica.checkpoint_step(disk))),
        Command::Scrub => check(disk, replica),
        Command::ReadPrepare { op: _ }
        | Command::ReadReply { client: _ }
        | Command::ReadBlock { address: _ }
        | Command::Recent => unreachable!(),
    }
}
