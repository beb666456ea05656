// The commands of a generated run: each is one call of the replica, and what the run hears of its answer.
ghost use Rattle.std.specs.Prelude.{◌≡◌, true, None, Some};
ghost use Rattle.df_base.specs.Causes.{IsBlamed};
ghost use Rattle.df_model.specs.Commands.{Advance, Command as Asks};
ghost use Rattle.df_inspect.specs.Answers.{command_of};
ghost use Rattle.df_workload.specs.Asking.{asks};
ghost use Rattle.df_session.specs.{Calls.{HasAnswer}, Endings.{is_disk_fault}};
ghost use Rattle.df_top.specs.Works.{HearsOf, StepsOn, StillRuns};

use df_disk::Disk;
use df_model::Command;
use df_session::{Fault, Replica, make};
use df_workload::{Asked, Generator, Outcome, number_body, outcome_in};

/// Makes the call that a command asks for, and says what a run hears of its answer.
pub(crate) fn make_call<D: Disk>(
    disk: &mut D,
    replica: &mut Replica,
    command: Command,
) -> Result<Outcome, Fault>
    requires live { replica.old.live ≡ true }
    requires answer { HasAnswer (command_of command) }
    ensures makes { HearsOf (command_of command.entry) replica.old replica.new (D.told disk.old) (D.told disk.new) result }
    ensures runs { StillRuns (command_of command.entry) replica.old replica.new result }
    ensures steps { command_of command.entry ≡ Advance → StepsOn replica.old replica.new result }
    ensures disk { IsBlamed is_disk_fault (D.faults disk.old) (D.faults disk.new) result }
{
    match make(disk, replica, command) {
        Ok(answer) => Ok(outcome_in(&answer)),
        Err(fault) => Err(fault),
    }
}

/// Makes the call that a run asks for.
pub(crate) fn make_next<D: Disk>(
    disk: &mut D,
    replica: &mut Replica,
    generator: &Generator,
) -> Result<Outcome, Fault>
    requires live { replica.old.live ≡ true }
    requires asks { asks generator.now ≡ None → ⊥ }
    ensures makes { (c : Asks) → asks generator.now ≡ Some c → HearsOf c replica.old replica.new (D.told disk.old) (D.told disk.new) result }
    ensures runs { (c : Asks) → asks generator.now ≡ Some c → StillRuns c replica.old replica.new result }
    ensures disk { IsBlamed is_disk_fault (D.faults disk.old) (D.faults disk.new) result }
{
    match generator.asks() {
        Some(Asked::Append { client, request }) => {
            let body = generator.body();
            make_call(
                disk,
                replica,
                Command::Append {
                    client,
                    request,
                    body,
                },
            )
        }
        Some(Asked::Reply { op }) => {
            let body = &number_body(op);
            make_call(disk, replica, Command::Reply { op, body })
        }
        Some(Asked::Step) => make_call(disk, replica, Command::Advance),
        Some(Asked::Block) => {
            let body = generator.body();
            make_call(disk, replica, Command::WriteBlock { kind: 1, body })
        }
        Some(Asked::Release { address }) => {
            make_call(disk, replica, Command::Release { address })
        }
        Some(Asked::Begin { root }) => {
            let root = &number_body(root);
            make_call(disk, replica, Command::Begin { root })
        }
        None => unreachable!(),
    }
}
