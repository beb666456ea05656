// The calls of a session: of a session that is ready none is refused but for want of ops or of sequences.
ghost use Rattle.std.specs.Prelude.{◌≡◌, ◌+◌, [], ◌∷◌, true, Option, None, IfErr, IfOk, OnOk};
ghost use Rattle.df_base.specs.Causes.{IsBlamed};
ghost use Rattle.df_disk.specs.Told.{Told};
ghost use Rattle.df_model.specs.{Blocks.{sum_at}, Commands.{Advance, Append, Begin, Release, Reply, WriteBlock}, Refusals.{block_refusals, first_refusal, reply_refusals}, Work.{is_known}};
ghost use Rattle.df_session.specs.{Appending.{next_unit, with_prepare_appended}, Beginning.{with_checkpoint_begun}, Below.{memory}, Blocks.{next_block, released, written}};
ghost use Rattle.df_session.specs.Replying.{next_reply, with_stored_reply};
ghost use Rattle.df_table.specs.{Calls.{CheckpointStepped, Comes, IsCheckpointing, MayAppendCommand, MayBegin, ended_or, stepped, taken}, Policy.{the_client}, Statuses.{is_disk}};
ghost use Rattle.df_table.specs.Turns.{IsOfCall, MakeAll};

use crate::ending::Ending;
use df_base::BlamesDisk;
use df_disk::Disk;
use df_model::{Progress, StepError};
use df_session::Replica;

/// The client whose requests the puts and drops are.
pub(crate) const CLIENT: u128 = 1;

// Why a session ends by an error of a call: the disk failed, or this.
fn ended_or<E: BlamesDisk>(error: &E, otherwise: Ending) -> Ending
    ensures { result ≡ ended_or E.is_fault otherwise error.now }
{
    if error.is_fault() {
        return Ending::Disk;
    }
    otherwise
}

// That a call was answered, or why the session ends by its error.
fn done_or<T, E: BlamesDisk>(answer: &Result<T, E>, otherwise: Ending) -> Result<(), Ending>
    ensures { result ≡ taken (λ (x : T). tt) E.is_fault otherwise answer.now }
{
    match answer {
        Ok(_) => Ok(()),
        Err(error) => Err(ended_or(error, otherwise)),
    }
}

/// Appends a body as the client's next request, and answers its op.
pub(crate) fn append<D: Disk>(
    disk: &mut D,
    replica: &mut Replica,
    request: u64,
    body: &[u8],
) -> Result<u64, Ending>
    requires live { replica.old.live ≡ true }
    ensures makes { MayAppendCommand replica.old request body.now → Comes (Append the_client request body.now ∷ []) replica.old replica.new (D.told disk.old) (D.told disk.new) result }
    ensures state { OnOk result (replica.new ≡ with_prepare_appended replica.old (next_unit replica.old the_client request body.now)) }
    ensures op { IfOk result (λ op. op ≡ replica.old.head + 1) }
    ensures live { OnOk result (replica.new.live ≡ true) }
    ensures ends { IfErr result (IsOfCall (D.told disk.new)) }
    ensures disk { IsBlamed is_disk (D.faults disk.old) (D.faults disk.new) result }
{
    match replica.append(disk, CLIENT, request, body) {
        Ok(receipt) => Ok(receipt.op),
        Err(error) => Err(ended_or(&error, Ending::OpsSpent)),
    }
}

/// Stores an empty reply to the op that waits the longest.
pub(crate) fn reply<D: Disk>(disk: &mut D, replica: &mut Replica, op: u64) -> Result<(), Ending>
    requires live { replica.old.live ≡ true }
    ensures makes { first_refusal (reply_refusals (memory replica.old) op []) ≡ None → Comes (Reply op [] ∷ []) replica.old replica.new (D.told disk.old) (D.told disk.new) result }
    ensures state { OnOk result (replica.new ≡ with_stored_reply replica.old (next_reply replica.old []).header) }
    ensures fails { first_refusal (reply_refusals (memory replica.old) op []) ≡ None → IfErr result (λ ending. ending ≡ Ending.Disk) }
    ensures live { OnOk result (replica.new.live ≡ true) }
    ensures ends { IfErr result (IsOfCall (D.told disk.new)) }
    ensures disk { IsBlamed is_disk (D.faults disk.old) (D.faults disk.new) result }
{
    let answer = replica.reply(disk, op, &[]);
    done_or(&answer, Ending::OpsSpent)
}

/// Lets a live block go. That touches no disk, and isn't refused.
pub(crate) fn release(replica: &mut Replica, address: u64)
    requires live { replica.old.live ≡ true }
    requires known { is_known (sum_at address (memory replica.old).blocks.live) ≡ true }
    ensures makes { (told : Option Told) → MakeAll (Release address ∷ []) replica.old replica.new told told }
    ensures state { replica.new ≡ released replica.old address }
    ensures live { replica.new.live ≡ true }
{
    let _ = replica.release(address);
}

/// Writes a block of the table at the least address that isn't held.
pub(crate) fn write<D: Disk>(disk: &mut D, replica: &mut Replica, body: &[u8]) -> Result<(), Ending>
    requires live { replica.old.live ≡ true }
    ensures makes { first_refusal (block_refusals (memory replica.old) 1 body.now) ≡ None
        → Comes (WriteBlock 1 body.now ∷ []) replica.old replica.new (D.told disk.old) (D.told disk.new) result }
    ensures state { OnOk result (replica.new ≡ written replica.old (next_block replica.old 1 body.now).header) }
    ensures live { OnOk result (replica.new.live ≡ true) }
    ensures ends { IfErr result (IsOfCall (D.told disk.new)) }
    ensures disk { IsBlamed is_disk (D.faults disk.old) (D.faults disk.new) result }
{
    let answer = replica.write_block(disk, 1, body);
    done_or(&answer, Ending::SequenceSpent)
}

/// Begins a checkpoint without a root. Of a session that is ready it is refused only where no sequence is left.
pub(crate) fn begin(replica: &mut Replica) -> Result<(), Ending>
    requires live { replica.old.live ≡ true }
    ensures makes { (told : Option Told) → MayBegin replica.old → Comes (Begin [] ∷ []) replica.old replica.new told told result }
    ensures state { OnOk result (replica.new ≡ with_checkpoint_begun replica.old []) }
    ensures live { OnOk result (replica.new.live ≡ true) }
    ensures spent { IfErr result (λ ending. ending ≡ Ending.SequenceSpent) }
{
    match replica.checkpoint_begin(&[]) {
        Ok(_) => Ok(()),
        Err(_) => Err(Ending::SequenceSpent),
    }
}

// Whether the checkpoint is done by a step, or why the session ends with it.
fn stepped(answer: Result<Progress, StepError>) -> Result<bool, Ending>
    ensures { result ≡ stepped answer }
{
    match answer {
        Ok(Progress::Done { sequence: _ }) => Ok(true),
        Ok(Progress::Working { left: _ }) => Ok(false),
        Err(StepError::Damaged { place, class }) => Err(Ending::Damaged { place, class }),
        Err(_) => Err(Ending::Disk),
    }
}

/// Takes a step of the checkpoint that runs, and says whether it is done.
pub(crate) fn step<D: Disk>(disk: &mut D, replica: &mut Replica) -> Result<bool, Ending>
    requires live { replica.old.live ≡ true }
    requires runs { IsCheckpointing replica.old }
    ensures makes { Comes (Advance ∷ []) replica.old replica.new (D.told disk.old) (D.told disk.new) result }
    ensures state { IfOk result (λ done. CheckpointStepped done replica.old replica.new) }
    ensures live { OnOk result (replica.new.live ≡ true) }
    ensures ends { IfErr result (IsOfCall (D.told disk.new)) }
    ensures disk { IsBlamed is_disk (D.faults disk.old) (D.faults disk.new) result }
{
    stepped(replica.checkpoint_step(disk))
}
