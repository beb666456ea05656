// The trailer: what the source's says, with the new addresses and checksums, in blocks after the copied ones.
ghost use Rattle.std.specs.Prelude.{◌≡◌, ◌<◌, ◌≤◌, ◌-◌, List, length, IfErr, OnOk};
ghost use Rattle.df_base.specs.{declared.TheConstants.{GREATEST, HEADER}, Causes.{HasCause, IsBlamed}};
ghost use Rattle.df_disk.specs.Adds.{Adds};
ghost use Rattle.df_format.specs.Message.{Message};
ghost use Rattle.df_grid.specs.Writes.{made_events};
ghost use Rattle.df_opening.specs.Below.{memory};
ghost use Rattle.df_copy.specs.{Acts.{IsReadySource}, Planning.{IsCopyPlan}, Statuses.{is_target}, Targets.{IsTarget, grid_behind, pieces_from, sequence_of}, Tests.{needed, references}};
ghost use Rattle.df_copy.specs.{Units.{all_events}, Trailers.{IsBegunGrid, text_in, AddsTrailer}};

use crate::ending::Ending;
use crate::plan::Plan;
use crate::target::Target;
use df_base::Failed;
use df_checkpoint::{Capture, write_piece};
use df_disk::Disk;
use df_grid::{Grid, chains_have_room};
use df_replica::Replica;

// The least sequence of a checkpoint. A superblock that names a trailer has no lower one, since its trailer's blocks have the same.
const FIRST_CHECKPOINT: u64 = 2;

// What the copy's checkpoint captures beside its blocks: the source's root, sessions and sequence.
fn capture_of(replica: &Replica) -> Capture
    requires { length replica.now.table.sessions ≤ 64 }
    ensures root { result.root.items ≡ replica.now.root }
    ensures sessions { result.sessions.items ≡ replica.now.table.sessions }
    ensures sequence { result.sequence ≡ sequence_of replica.now }
    ensures bounds { (2 ≤ result.sequence) × (result.sequence ≤ GREATEST) }
{
    let sequence = replica.fields().sequence.max(FIRST_CHECKPOINT);
    Capture::of(replica.root(), replica.sessions(), sequence)
}

// Writes each block of a trailer that was begun, in order and without a sync.
fn write_pieces<B: Disk>(
    to: &mut B,
    grid: &mut Grid,
    capture: &Capture,
    room: &mut [u8],
    blocks: u64,
) -> Result<(), Failed>
    requires begun { IsBegunGrid blocks grid.old }
    requires sequence { (2 ≤ capture.now.sequence) × (capture.now.sequence ≤ GREATEST) }
    requires room { grid.old.layout.block_size - HEADER ≤ length room.old }
    ensures events { Adds (all_events (made_events grid.old.layout) (pieces_from grid.old capture.now.sequence (text_in grid.old capture.now) blocks)) (B.told to.old) (B.told to.new) result }
    ensures grid { OnOk result (grid.new ≡ grid_behind grid.old capture.now.sequence (text_in grid.old capture.now) blocks) }
    ensures layout { grid.new.layout ≡ grid.old.layout }
    ensures room { length room.new ≡ length room.old }
    ensures cause { HasCause (B.faults to.old) (B.faults to.new) result }
{
    for index in 0..blocks {
        match write_piece(to, grid, capture, room, index) {
            Ok(()) => {}
            Err(failed) => return Err(failed),
        }
    }
    Ok(())
}

/// Writes the copy's trailer, without a sync: nothing where the source has none. Its blocks are of the source's boot.
pub(crate) fn write_trailer<B: Disk>(
    to: &mut B,
    replica: &Replica,
    target: &mut Target,
    plan: Plan,
) -> Result<(), Ending>
    requires ready { IsReadySource target.old.layout replica.now }
    requires plan { IsCopyPlan target.old.layout replica.now plan }
    requires room { needed target.old.layout (memory replica.now) ≤ target.old.layout.blocks }
    requires begun { (rs : List Message) × (bs : List Message) × IsTarget target.old.layout replica.now.file.cluster rs bs target.old × (length bs ≡ length (references (memory replica.now))) }
    ensures trailer { (rs bs : List Message) → IsTarget target.old.layout replica.now.file.cluster rs bs target.old
        → AddsTrailer replica.now rs bs target.old target.new (B.told to.old) (B.told to.new) result }
    ensures layout { target.new.layout ≡ target.old.layout }
    ensures disk { IsBlamed is_target (B.faults to.old) (B.faults to.new) result }
    ensures target { IfErr result (λ ending. ending ≡ Ending.Target) }
{
    if plan.blocks == 0 {
        return Ok(());
    }
    let capture = capture_of(replica);
    chains_have_room();
    target.grid.set_boot(replica.fields().boot);
    target.grid.capture(plan.blocks);
    match write_pieces(
        to,
        &mut target.grid,
        &capture,
        &mut target.trailer.piece,
        plan.blocks,
    ) {
        Ok(()) => Ok(()),
        Err(_) => Err(Ending::Target),
    }
}
