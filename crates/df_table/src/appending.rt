// A put or a drop: room in the ring, the append, the empty reply to it, and then the table.
ghost use Rattle.std.specs.Prelude.{◌≡◌, ◌+◌, ◌*◌, ◌≤◌, true, false, vec_len, IfOk, OnOk};
ghost use Rattle.std.specs.FinMap as map;
ghost use Rattle.df_base.specs.Causes.{IsBlamed};
ghost use Rattle.df_layout.specs.declared.layout.Layout.{Layout as Shape};
ghost use Rattle.df_model.specs.Refusals.{next_request, session_of_client};
ghost use Rattle.df_rows.specs.{Commands.{IsCommand}, Tables.{CanApply}};
ghost use Rattle.df_rows.specs.Limits as limits;
ghost use Rattle.df_session.specs.Below.{memory};
ghost use Rattle.df_table.specs.{Calls.{Comes, GoesOrEnds, HasApplied, IsChanged, MakesRoom}, Policy.{is_full, request, the_client}, Ready.{HasRingRoom, IsReadyReplica, LeavesScript}};
ghost use Rattle.df_table.specs.Statuses.{is_disk};

use crate::calls::{append, reply};
use crate::checkpointing::{checkpoint, is_full};
use crate::ending::Ending;
use crate::session::Session;
use df_disk::Disk;
use df_rows::Command;
use df_session::Replica;

// The number of the client's next request, where all sessions are its own: so there is one at most.
fn next_request(replica: &Replica) -> u64
    ensures { (layout : Shape) → IsReadyReplica layout replica.now → result ≡ next_request (session_of_client the_client (memory replica.now).sessions) }
{
    match replica.session(0) {
        Some(session) => session.request.saturating_add(1),
        None => 1,
    }
}

// Makes room in the ring where it has no slot.
fn make_room<D: Disk>(disk: &mut D, session: &mut Session) -> Result<(), Ending>
    requires live { session.old.replica.live ≡ true }
    requires buffer { 64 * limits.rows_in_block session.old.layout ≤ vec_len session.old.block }
    ensures makes { IsReadyReplica session.old.layout session.old.replica → map.len session.old.table.rows ≤ limits.most_rows session.old.layout
        → MakesRoom session.old.layout session.old.table.rows session.old.replica session.new.replica (D.told disk.old) (D.told disk.new) result }
    ensures room { IsReadyReplica session.old.layout session.old.replica → map.len session.old.table.rows ≤ limits.most_rows session.old.layout
        → OnOk result (HasRingRoom session.old.layout session.old.replica session.new.replica) }
    ensures goes { GoesOrEnds result session.new.replica (D.told disk.new) }
    ensures table { session.new.table ≡ session.old.table }
    ensures leaves { LeavesScript session.old session.new }
    ensures disk { IsBlamed is_disk (D.faults disk.old) (D.faults disk.new) result }
{
    if is_full(&session.replica) {
        checkpoint(
            disk,
            &mut session.replica,
            &session.table,
            &session.layout,
            &mut session.block,
        )
    } else {
        Ok(())
    }
}

// Appends a command's body as the client's next request, and stores an empty reply to it.
fn store<D: Disk>(disk: &mut D, replica: &mut Replica, command: &Command) -> Result<u64, Ending>
    requires live { replica.old.live ≡ true }
    requires fits { IsCommand command.now }
    ensures makes { (layout : Shape) → IsReadyReplica layout replica.old → is_full (memory replica.old) ≡ false
        → Comes (request (memory replica.old) command.now) replica.old replica.new (D.told disk.old) (D.told disk.new) result }
    ensures op { IfOk result (λ op. op ≡ replica.old.head + 1) }
    ensures head { OnOk result (replica.new.head ≡ replica.old.head + 1) }
    ensures ready { (layout : Shape) → IsReadyReplica layout replica.old → is_full (memory replica.old) ≡ false → OnOk result (IsReadyReplica layout replica.new) }
    ensures goes { GoesOrEnds result replica.new (D.told disk.new) }
    ensures disk { IsBlamed is_disk (D.faults disk.old) (D.faults disk.new) result }
{
    let number = next_request(replica);
    let body = command.encode();
    match append(disk, replica, number, body.as_slice()) {
        Ok(op) => match reply(disk, replica, op) {
            Ok(()) => Ok(op),
            Err(ending) => Err(ending),
        },
        Err(ending) => Err(ending),
    }
}

/// Does what a command says that isn't refused, and answers its op: it is durable then.
pub(crate) fn change<D: Disk>(
    disk: &mut D,
    session: &mut Session,
    command: Command,
) -> Result<u64, Ending>
    requires live { session.old.replica.live ≡ true }
    requires buffer { 64 * limits.rows_in_block session.old.layout ≤ vec_len session.old.block }
    requires fits { IsCommand command }
    requires room { CanApply session.old.table command }
    ensures changed { IsReadyReplica session.old.layout session.old.replica → map.len session.old.table.rows ≤ limits.most_rows session.old.layout
        → IsChanged session.old.layout session.old.table.rows command session.old.replica session.new.replica (D.told disk.old) (D.told disk.new) result }
    ensures applied { OnOk result (HasApplied command session.old session.new) }
    ensures leaves { LeavesScript session.old session.new }
    ensures disk { IsBlamed is_disk (D.faults disk.old) (D.faults disk.new) result }
{
    match make_room(disk, session) {
        Ok(()) => match store(disk, &mut session.replica, &command) {
            Ok(op) => {
                session.table.apply(command);
                Ok(op)
            }
            Err(ending) => Err(ending),
        },
        Err(ending) => Err(ending),
    }
}
