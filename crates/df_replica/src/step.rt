// The steps of a running checkpoint: each writes a block of its trailer, without a sync, and the last one syncs once and writes the
// superblock that makes the checkpoint durable.
ghost use Rattle.std.specs.Prelude.{◌≡◌, true, length, OnErr, OnOk};
ghost use Rattle.df_replica.specs.Below.{HasCause, IsBlamed, spelled, Adds, IsCheck, fault_of, update_events, AreStepsOfCopies, update_steps, AreSteps, block_steps};
ghost use Rattle.df_replica.specs.Below.{first_sum, format_of, block_of, number_of, put_copies, Advance, ToAdvance, is_step_fault, running_state, IsState};
ghost use Rattle.df_replica.specs.{Answering.{Serves, answer_of, is_step_unanswered}, Own.{AddsOwn}};
ghost use Rattle.df_replica.specs.Stepping.{IsMadeSuperblock, IsStepCall, MayAdvance, MayFinishCheckpoint, OfRunning, advanced, block_events};
ghost use Rattle.df_replica.specs.Stepping.{block_sum, block_to_write, finished, trailer_unit, captured_fields, next_fields, pending};

use crate::Replica;
use crate::reply::as_check;
use df_base::Failed;
use df_buffers::ProbeRoom;
use df_checkpoint::{Capture, write_piece};
use df_disk::Disk;
use df_format::{Reference, Super, SuperFields, test_fields};
use df_model::{Progress, StepError};
use df_opening::RunningCheckpoint;
use df_superblock::{UpdateError, update};

// A superblock with what a checkpoint captured whose trailer ends with a block.
fn captured_fields(
    fields: &SuperFields,
    running: &RunningCheckpoint,
    last: Reference,
) -> SuperFields
    ensures fields { result ≡ captured_fields fields.now (running_state running.now) last.address last.checksum }
    ensures check { IsCheck last.checksum }
{
    let trailer_checksum = as_check(last.checksum);
    SuperFields {
        sequence: running.capture.sequence,
        op: running.op,
        op_checksum: running.op_checksum,
        trailer_address: last.address,
        trailer_checksum,
        trailer_size: running.size,
        ..*fields
    }
}

// Makes all that was written durable, and then a superblock.
fn make_durable<D: Disk>(
    disk: &mut D,
    room: &mut ProbeRoom,
    content: &Super,
) -> Result<(), StepError>
    ensures made { IsMadeSuperblock content.now (D.told disk.old) (D.told disk.new) result }
    ensures steps { AreStepsOfCopies (update_events content.now) (update_steps (put_copies content.now)) }
    ensures cause { IsBlamed is_step_fault (D.faults disk.old) (D.faults disk.new) result }
{
    // Its fields obey their rules.
    let _fields = content.fields();
    match disk.sync() {
        Ok(()) => {}
        Err(_) => return Err(StepError::DiskFault),
    }
    match update(disk, room, content) {
        Ok(()) => Ok(()),
        Err(UpdateError::Damaged { place, class }) => Err(StepError::Damaged { place, class }),
        Err(UpdateError::DiskFault) => Err(StepError::DiskFault),
    }
}

impl Replica {
    // How many trailer blocks are to come; None where no checkpoint runs.
    fn blocks_to_come(&self) -> Option<u64>
        ensures pending { result ≡ pending self.now.running self.now.blocks.left }
        ensures state { IsState self.now }
    {
        match &self.parts.running {
            Some(running) => Some(running.blocks - running.written),
            None => None,
        }
    }

    // Writes the next block of the trailer.
    fn write_trailer_block<D: Disk>(&mut self, disk: &mut D) -> Result<(), Failed>
        requires { MayAdvance self.old }
        ensures events { OfRunning self.old.running (λ r. Adds (block_events self.old r) (D.told disk.old) (D.told disk.new) result) }
        ensures steps { OfRunning self.old.running (λ r. AreSteps (format_of self.old.file.layout self.old.file.cluster) (block_events self.old r) (block_steps (trailer_unit self.old r))) }
        ensures unit { OfRunning self.old.running (λ r. block_of (trailer_unit self.old r) ≡ block_to_write self.old r (block_sum self.old r)) }
        ensures written { OnOk result (OfRunning self.old.running (λ r. self.new ≡ advanced self.old r)) }
        ensures kept { OnErr result (self.new ≡ self.old) }
        ensures cause { HasCause (D.faults disk.old) (D.faults disk.new) result }
    {
        let Some(mut running) = self.parts.running.take() else {
            unreachable!()
        };
        let parts = &mut self.parts;
        let done = write_piece(
            disk,
            &mut parts.grid,
            &running.capture,
            &mut parts.trailer.piece,
            running.written,
        );
        match done {
            Ok(()) => {
                running.written += 1;
                self.parts.running = Some(running);
                Ok(())
            }
            Err(failed) => {
                self.parts.running = Some(running);
                Err(failed)
            }
        }
    }

    // A step that writes a trailer block.
    fn trailer_step<D: Disk>(&mut self, disk: &mut D, left: u64) -> Result<Progress, StepError>
        requires live { self.old.live ≡ true }
        requires state { IsState self.old }
        requires may { MayAdvance self.old }
        requires left { left ≡ length self.old.blocks.left }
        ensures exact { IsStepCall self.old self.new (D.told disk.old) (D.told disk.new) result }
        ensures call { Serves Advance self.old self.new (D.told disk.old) (D.told disk.new) (answer_of is_step_unanswered ToAdvance result) }
        ensures cause { IsBlamed is_step_fault (D.faults disk.old) (D.faults disk.new) result }
    {
        match self.write_trailer_block(disk) {
            Ok(()) => Ok(Progress::Working { left }),
            Err(_) => {
                self.stop();
                Err(StepError::DiskFault)
            }
        }
    }

    // What the superblock says that ends the checkpoint: it obeys the rules.
    fn next_fields(&self) -> SuperFields
        requires { MayFinishCheckpoint self.now }
        ensures fields { OfRunning self.now.running (λ r. result ≡ next_fields self.now r) }
        ensures rules { fault_of result ≡ None }
        ensures sum { number_of (spelled 16 (first_sum self.now.blocks.written)) ≡ first_sum self.now.blocks.written }
    {
        let Some(running) = &self.parts.running else {
            unreachable!()
        };
        let Some(last) = self.parts.grid.trailer() else {
            unreachable!()
        };
        // The sessions are a table of the file.
        let _count = self.parts.sessions.len();
        let fields = captured_fields(self.parts.content.fields(), running, last);
        self.parts.recorded(fields)
    }

    // The superblock that ends the checkpoint.
    fn next_superblock(&self) -> Super
        requires { MayFinishCheckpoint self.now }
        ensures fields { OfRunning self.now.running (λ r. result ≡ next_fields self.now r) }
        ensures sum { number_of (spelled 16 (first_sum self.now.blocks.written)) ≡ first_sum self.now.blocks.written }
    {
        match test_fields(&self.next_fields()) {
            Ok(content) => content,
            Err(_) => unreachable!(),
        }
    }

    // Makes it durable.
    fn write_superblock<D: Disk>(&mut self, disk: &mut D, content: &Super) -> Result<(), StepError>
        ensures made { IsMadeSuperblock content.now (D.told disk.old) (D.told disk.new) result }
        ensures steps { AreStepsOfCopies (update_events content.now) (update_steps (put_copies content.now)) }
        ensures kept { self.new ≡ self.old }
        ensures cause { IsBlamed is_step_fault (D.faults disk.old) (D.faults disk.new) result }
    {
        make_durable(disk, &mut self.parts.rooms.superblock, content)
    }

    // The checkpoint is the durable one.
    fn finish(&mut self, content: Super)
        requires may { MayFinishCheckpoint self.old }
        requires content { OfRunning self.old.running (λ r. content ≡ next_fields self.old r) }
        ensures { OfRunning self.old.running (λ r. self.new ≡ finished self.old r) }
    {
        let Some(running) = self.parts.running.take() else {
            unreachable!()
        };
        let RunningCheckpoint { capture, .. } = running;
        let Capture { root, .. } = capture;
        // Its fields obey their rules.
        let _fields = content.fields();
        self.parts.root = root;
        self.parts.content = content;
        self.parts.grid.finish();
    }

    // The step that ends the checkpoint.
    fn last_step<D: Disk>(&mut self, disk: &mut D) -> Result<Progress, StepError>
        requires live { self.old.live ≡ true }
        requires state { IsState self.old }
        requires may { MayFinishCheckpoint self.old }
        ensures exact { IsStepCall self.old self.new (D.told disk.old) (D.told disk.new) result }
        ensures call { Serves Advance self.old self.new (D.told disk.old) (D.told disk.new) (answer_of is_step_unanswered ToAdvance result) }
        ensures cause { IsBlamed is_step_fault (D.faults disk.old) (D.faults disk.new) result }
    {
        let content = self.next_superblock();
        match self.write_superblock(disk, &content) {
            Ok(()) => {
                self.finish(content);
                Ok(Progress::Done {
                    sequence: content.fields().sequence,
                })
            }
            Err(error) => {
                self.stop();
                Err(error)
            }
        }
    }

    /// Does the next step of the running checkpoint. While blocks of its trailer are to come, it writes the next one, without a
    /// sync, and answers how many steps are left. The last step syncs once, writes the superblock's four copies, each durable
    /// before the next, and answers the new sequence: the checkpoint is durable then. Without a running checkpoint nothing is
    /// done. Where fewer than three copies were read back as they were written it is refused with the first that wasn't, and the class
    /// of what was seen there. After that, and after a fault, no call may follow.
    pub fn checkpoint_step<D: Disk>(&mut self, disk: &mut D) -> Result<Progress, StepError>
        requires live { self.old.live ≡ true }
        ensures exact { IsStepCall self.old self.new (D.told disk.old) (D.told disk.new) result }
        ensures call { Serves Advance self.old self.new (D.told disk.old) (D.told disk.new) (answer_of is_step_unanswered ToAdvance result) }
        ensures own { AddsOwn Advance self.old (D.told disk.old) (D.told disk.new) (answer_of is_step_unanswered ToAdvance result) }
        ensures cause { IsBlamed is_step_fault (D.faults disk.old) (D.faults disk.new) result }
    {
        match self.blocks_to_come() {
            None => Err(StepError::NotRunning),
            Some(0) => self.last_step(disk),
            Some(left) => self.trailer_step(disk, left),
        }
    }
}
