// The notes are kept one after the other: the append of a note, the reply to it, and then the line with its op.
ghost use Rattle.std.specs.Prelude.{◌≡◌, true, map, string_bytes, OnOk};
ghost use Rattle.df_base.specs.Causes.{HasCause, IsBlamed};
ghost use Rattle.df_inspect.specs.Prints.{Prints};
ghost use Rattle.df_notes.specs.{Ending.{is_disk_at_fault, is_sink}, Keeping.{AppendsNote, CatchesUp, KeepsNote, KeepsNotes, StoresReply, moment, op_line, receipt_in, stored_in}};

use crate::ended::{Ended, ended_at};
use df_base::{Failed, Sink};
use df_disk::Disk;
use df_inspect::print_answer;
use df_model::{Answer, Command, Receipt};
use df_session::{Replica, make};

/// The one client, whose requests the notes are.
const CLIENT: u128 = 1;

// The number of the client's next request.
fn next_request(replica: &Replica) -> u64 {
    match replica.session(0) {
        Some(session) => session.request.saturating_add(1),
        None => 1,
    }
}

// The receipt in the answer of an append.
fn receipt_in(answer: Answer) -> Result<Receipt, Ended>
    ensures { result ≡ receipt_in answer }
{
    match answer {
        Answer::Append(Ok(receipt)) => Ok(receipt),
        _ => Err(Ended::Refused),
    }
}

// Whether a reply was stored, by its answer.
fn stored_in(answer: Answer) -> Result<(), Ended>
    ensures { result ≡ stored_in answer }
{
    match answer {
        Answer::Reply(Ok(_)) => Ok(()),
        _ => Err(Ended::Refused),
    }
}

// Appends a note.
fn append_note<D: Disk>(disk: &mut D, replica: &mut Replica, note: &[u8]) -> Result<Receipt, Ended>
    requires live { replica.old.live ≡ true }
    ensures appends { AppendsNote note.now replica.old replica.new (D.told disk.old) (D.told disk.new) result }
    ensures live { OnOk result (replica.new.live ≡ true) }
    ensures disk { IsBlamed is_disk_at_fault (D.faults disk.old) (D.faults disk.new) result }
{
    let call = Command::Append {
        client: CLIENT,
        request: next_request(replica),
        body: note,
    };
    match make(disk, replica, call) {
        Ok(answer) => receipt_in(answer),
        Err(fault) => Err(ended_at(fault)),
    }
}

// Stores an empty reply to this op.
fn reply_to<D: Disk>(disk: &mut D, replica: &mut Replica, op: u64) -> Result<(), Ended>
    requires live { replica.old.live ≡ true }
    ensures stores { StoresReply op replica.old replica.new (D.told disk.old) (D.told disk.new) result }
    ensures live { OnOk result (replica.new.live ≡ true) }
    ensures disk { IsBlamed is_disk_at_fault (D.faults disk.old) (D.faults disk.new) result }
{
    match make(disk, replica, Command::Reply { op, body: &[] }) {
        Ok(answer) => stored_in(answer),
        Err(fault) => Err(ended_at(fault)),
    }
}

/// Stores the reply to a note that waits for it, since the program was ended between the two: only then may the next one be
/// appended. One note waits at most.
pub(crate) fn catch_up<D: Disk>(disk: &mut D, replica: &mut Replica) -> Result<(), Ended>
    requires live { replica.old.live ≡ true }
    ensures catches { CatchesUp replica.old replica.new (D.told disk.old) (D.told disk.new) result }
    ensures live { OnOk result (replica.new.live ≡ true) }
    ensures disk { IsBlamed is_disk_at_fault (D.faults disk.old) (D.faults disk.new) result }
{
    let summary = replica.summary();
    if summary.replies < summary.head {
        return reply_to(disk, replica, summary.replies + 1);
    }
    Ok(())
}

// Prints the op that a note got.
fn print_op<W: Sink>(sink: &mut W, receipt: Receipt) -> Result<(), Failed>
    ensures prints { Prints (op_line receipt.op) (W.written sink.old) (W.written sink.new) result }
    ensures cause { HasCause (W.faults sink.old) (W.faults sink.new) result }
{
    let op = receipt.op;
    print_answer(
        sink,
        &Command::ReadPrepare { op },
        &Answer::Append(Ok(receipt)),
    )
}

// Keeps a note.
fn keep_note<D: Disk, W: Sink>(
    disk: &mut D,
    sink: &mut W,
    replica: &mut Replica,
    note: &[u8],
) -> Result<(), Ended>
    requires live { replica.old.live ≡ true }
    ensures keeps { KeepsNote note.now (moment replica.old (D.told disk.old) (W.written sink.old)) (moment replica.new (D.told disk.new) (W.written sink.new)) result }
    ensures live { OnOk result (replica.new.live ≡ true) }
    ensures disk { IsBlamed is_disk_at_fault (D.faults disk.old) (D.faults disk.new) result }
    ensures sink { IsBlamed is_sink (W.faults sink.old) (W.faults sink.new) result }
{
    let receipt = append_note(disk, replica, note)?;
    reply_to(disk, replica, receipt.op)?;
    match print_op(sink, receipt) {
        Ok(()) => Ok(()),
        Err(_) => Err(Ended::WriteFault),
    }
}

/// Keeps the notes, in their order, up to the first that isn't kept: each is appended, its reply is stored, and then the line
/// with its op is printed. So no op is printed of a note that isn't durable.
pub(crate) fn keep<D: Disk, W: Sink>(
    disk: &mut D,
    sink: &mut W,
    replica: &mut Replica,
    notes: &[String],
) -> Result<(), Ended>
    requires live { replica.old.live ≡ true }
    ensures keeps { KeepsNotes (map string_bytes notes.now) (moment replica.old (D.told disk.old) (W.written sink.old)) (moment replica.new (D.told disk.new) (W.written sink.new)) result }
    ensures live { OnOk result (replica.new.live ≡ true) }
    ensures disk { IsBlamed is_disk_at_fault (D.faults disk.old) (D.faults disk.new) result }
    ensures sink { IsBlamed is_sink (W.faults sink.old) (W.faults sink.new) result }
{
    for note in notes {
        keep_note(disk, sink, replica, note.as_bytes())?;
    }
    Ok(())
}
