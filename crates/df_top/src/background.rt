// The loop's work after a line: each piece is one call, whose answer isn't printed, until nothing is due or something fails.
ghost use Rattle.std.specs.Prelude.{◌≡◌, Option, List, ℕ, Some, true};
ghost use Rattle.df_base.specs.Causes.{IsBlamed};
ghost use Rattle.df_inspect.specs.Answers.{command_of as call_of};
ghost use Rattle.df_model.specs.Commands.{Begin};
ghost use Rattle.df_pace.specs.Beats.{command_of_piece, is_begun, next_piece};
ghost use Rattle.df_session.specs.{Calls.{HasAnswer}, Endings.{is_disk_fault}};
ghost use Rattle.df_top.specs.{Outside.{around}, Pacing.{IsIdleBeat, runs}, Session.{state}, Step.{Passes, Turns}, Turning.{BlamesIfEnds, DoesNext, DoesPiece, LeavesReader, OnGoing, has_begun_in}};

use crate::session::Session;
use crate::status::Status;
use crate::telling::tell_fault;
use df_base::Sink;
use df_checkpoint::root_of;
use df_disk::Disk;
use df_model::{Answer, Command};
use df_pace::Piece;
use df_program::Turn;
use df_session::{Fault, Replica, make};

// Makes the call of a piece, and says whether a checkpoint was begun by it.
fn make_piece<D: Disk>(disk: &mut D, replica: &mut Replica, command: Command) -> Result<bool, Fault>
    requires live { replica.old.live ≡ true }
    requires answer { HasAnswer (call_of command) }
    ensures does { DoesPiece (call_of command.entry) replica.old replica.new (D.told disk.old) (D.told disk.new) result }
    ensures disk { IsBlamed is_disk_fault (D.faults disk.old) (D.faults disk.new) result }
{
    match make(disk, replica, command) {
        Ok(answer) => Ok(is_begun(&answer)),
        Err(fault) => Err(fault),
    }
}

// Whether a checkpoint was begun by a call that answered so.
fn is_begun(answer: &Answer) -> bool
    ensures { result ≡ has_begun_in answer.now }
{
    matches!(answer, Answer::Begin(Ok(_)))
}

// Begins a checkpoint with the durable root, and says whether it was begun.
fn begin<D: Disk>(disk: &mut D, replica: &mut Replica) -> Result<bool, Fault>
    requires live { replica.old.live ≡ true }
    ensures does { DoesPiece (Begin replica.old.root) replica.old replica.new (D.told disk.old) (D.told disk.new) result }
    ensures disk { IsBlamed is_disk_fault (D.faults disk.old) (D.faults disk.new) result }
{
    // In a list of its own: a call that changes the replica can't be lent what the replica has.
    let root = root_of(replica.root());
    let root = root.as_slice();
    make_piece(disk, replica, Command::Begin { root })
}

// Makes the call of a piece, and says whether a checkpoint was begun by it.
fn do_piece<D: Disk>(disk: &mut D, replica: &mut Replica, piece: Piece) -> Result<bool, Fault>
    requires live { replica.old.live ≡ true }
    ensures does { DoesPiece (command_of_piece piece replica.old.root) replica.old replica.new (D.told disk.old) (D.told disk.new) result }
    ensures disk { IsBlamed is_disk_fault (D.faults disk.old) (D.faults disk.new) result }
{
    match piece {
        Piece::Begin => begin(disk, replica),
        Piece::Step => make_piece(disk, replica, Command::Advance),
        Piece::Scrub => make_piece(disk, replica, Command::Scrub),
    }
}

// Does a piece: the session goes on, or ends with the call, by the line of a step that is damaged or by none.
fn pass<D: Disk, W: Sink>(
    disk: &mut D,
    sink: &mut W,
    session: &mut Session,
    piece: Piece,
) -> Turn<Status>
    requires live { session.old.replica.live ≡ true }
    ensures passes { Passes piece (command_of_piece piece session.old.replica.root) session.old.replica session.new.replica
        (D.told disk.old) (D.told disk.new) (W.written sink.old) (W.written sink.new) session.old.beat session.new.beat result }
    ensures live { OnGoing result (session.new.replica.live ≡ true) }
    ensures leaves { LeavesReader session.old session.new }
    ensures disk { BlamesIfEnds Status.DiskFault (D.faults disk.old) (D.faults disk.new) result }
    ensures source { (faults : ℕ) → BlamesIfEnds Status.ReadFault faults faults result }
    ensures sink { BlamesIfEnds Status.WriteFault (W.faults sink.old) (W.faults sink.new) result }
{
    match do_piece(disk, &mut session.replica, piece) {
        Ok(begun) => {
            let head = session.replica.summary().head;
            session.beat = session.beat.behind_piece(piece, begun, head);
            Turn::GoesOn
        }
        Err(fault) => Turn::Ends(tell_fault(sink, fault)),
    }
}

// Does the piece that is next.
fn do_next<D: Disk, W: Sink>(
    disk: &mut D,
    sink: &mut W,
    session: &mut Session,
    piece: Piece,
) -> Turn<Status>
    requires live { session.old.replica.live ≡ true }
    requires next { next_piece session.old.beat.due (runs session.old.replica) ≡ Some piece }
    ensures turns { (left : Option (List ℕ)) (bound : ℕ) → Turns session.old.pace bound
        (state (around (D.told disk.old) left (W.written sink.old)) session.old)
        (state (around (D.told disk.new) left (W.written sink.new)) session.new) result }
    ensures does { DoesNext session.old session.new result }
    ensures disk { BlamesIfEnds Status.DiskFault (D.faults disk.old) (D.faults disk.new) result }
    ensures source { (faults : ℕ) → BlamesIfEnds Status.ReadFault faults faults result }
    ensures sink { BlamesIfEnds Status.WriteFault (W.faults sink.old) (W.faults sink.new) result }
{
    pass(disk, sink, session, piece)
}

// The piece that is next, None where nothing is due.
fn next(session: &Session) -> Option<Piece>
    ensures { result ≡ next_piece session.now.beat.due (runs session.now.replica) }
{
    session.beat.next(session.replica.is_running())
}

/// Does all the work that is due after a line, piece by piece.
pub fn work<D: Disk, W: Sink>(disk: &mut D, sink: &mut W, session: &mut Session) -> Turn<Status>
    requires live { session.old.replica.live ≡ true }
    ensures turns { (left : Option (List ℕ)) (bound : ℕ) → Turns session.old.pace bound
        (state (around (D.told disk.old) left (W.written sink.old)) session.old)
        (state (around (D.told disk.new) left (W.written sink.new)) session.new) result }
    ensures idle { OnGoing result (IsIdleBeat session.new.beat session.new.replica) }
    ensures leaves { LeavesReader session.old session.new }
    ensures live { OnGoing result (session.new.replica.live ≡ true) }
    ensures disk { BlamesIfEnds Status.DiskFault (D.faults disk.old) (D.faults disk.new) result }
    ensures source { (faults : ℕ) → BlamesIfEnds Status.ReadFault faults faults result }
    ensures sink { BlamesIfEnds Status.WriteFault (W.faults sink.old) (W.faults sink.new) result }
{
    while let Some(piece) = next(session) {
        match do_next(disk, sink, session, piece) {
            Turn::GoesOn => {}
            Turn::Ends(status) => return Turn::Ends(status),
        }
    }
    Turn::GoesOn
}
