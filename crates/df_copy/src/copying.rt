// The copy itself, after the open of the source: the tests, the header ring, replies, blocks and trailer, and the superblock once all of that is durable.
ghost use Rattle.std.specs.Prelude.{◌≡◌, ◌<◌, ◌≤◌, List, [], true, length, IfErr, OnOk};
ghost use Rattle.df_base.specs.Causes.{HasCause, IsBlamed};
ghost use Rattle.df_disk.specs.Adds.{Adds};
ghost use Rattle.df_format.specs.Message.{Message};
ghost use Rattle.df_sessions.specs.Table.{AreDistinctClients};
ghost use Rattle.df_opening.specs.Below.{memory};
ghost use Rattle.df_copy.specs.{Acts.{IsCopied, IsReadySource, LeavesSource, beside}, Copying.{BeginsTarget, CopiesInto, CopiesPlanned, CopiesUnits, Finishes}, Planning.{IsCopyPlan}};
ghost use Rattle.df_copy.specs.{Statuses.{blank_ending, is_target}, Targets.{IsTarget, KeepsGrid, ring_events}, Tests.{needed, references}};

use crate::blocks::copy_blocks;
use crate::ending::Ending;
use crate::plan::{Plan, plan_copy};
use crate::replies::copy_replies;
use crate::superblock::copied_superblock;
use crate::target::Target;
use crate::trailer::write_trailer;
use df_base::Failed;
use df_disk::Disk;
use df_opening::{FormatError, LogRooms, test_blank, write_headers, write_synced};
use df_replica::Replica;

// Why the target isn't begun.
fn unbegun(error: FormatError) -> Ending
    requires { error ≡ FormatError.ClusterZero → ⊥ }
    ensures { result ≡ blank_ending error }
{
    match error {
        FormatError::NotBlank { copy } => Ending::NotBlank { copy },
        FormatError::DiskFault => Ending::Target,
        FormatError::ClusterZero => unreachable!(),
    }
}

// Writes a reserved header into each slot of the header ring, without a sync.
fn write_ring<B: Disk>(to: &mut B, rooms: &mut LogRooms, cluster: u128) -> Result<(), Failed>
    requires cluster { 0 < cluster }
    ensures events { Adds (ring_events rooms.old.layout cluster) (B.told to.old) (B.told to.new) result }
    ensures layout { rooms.new.layout ≡ rooms.old.layout }
    ensures cause { HasCause (B.faults to.old) (B.faults to.new) result }
{
    let layout = rooms.layout;
    rooms.headers.clear(cluster);
    write_headers(to, &layout, &rooms.headers, &mut rooms.sector)
}

// Begins the target, where the sectors of its superblock show zeros alone.
fn begin<B: Disk>(to: &mut B, target: &mut Target, cluster: u128) -> Result<(), Ending>
    requires cluster { 0 < cluster }
    ensures begins { BeginsTarget target.old.layout cluster (B.told to.old) (B.told to.new) result }
    ensures grid { KeepsGrid target.old target.new }
    ensures checks { target.new.checks ≡ target.old.checks }
    ensures disk { IsBlamed is_target (B.faults to.old) (B.faults to.new) result }
{
    match test_blank(to, &mut target.log.superblock) {
        Ok(()) => {}
        Err(error) => return Err(unbegun(error)),
    }
    match write_ring(to, &mut target.log, cluster) {
        Ok(()) => Ok(()),
        Err(_) => Err(Ending::Target),
    }
}

// Copies the replies and then the blocks.
fn copy_units<A: Disk, B: Disk>(
    from: &mut A,
    to: &mut B,
    replica: &mut Replica,
    target: &mut Target,
) -> Result<(), Ending>
    requires ready { IsReadySource target.old.layout replica.old }
    requires room { length (references (memory replica.old)) ≤ target.old.layout.blocks }
    requires begun { IsTarget target.old.layout replica.old.file.cluster [] [] target.old }
    ensures copies { AreDistinctClients replica.old.table.sessions → CopiesUnits replica.old target.old target.new (A.told from.old) (B.told to.old) (B.told to.new) result }
    ensures begun { OnOk result (IsCopied target.old.layout replica.old target.new) }
    ensures layout { target.new.layout ≡ target.old.layout }
    ensures leaves { LeavesSource (beside replica.old (A.told from.old) (A.faults from.old) (B.faults to.old)) (beside replica.new (A.told from.new) (A.faults from.new) (B.faults to.new)) result }
{
    match copy_replies(from, to, replica, target) {
        Ok(()) => copy_blocks(from, to, replica, target),
        Err(ending) => Err(ending),
    }
}

// Writes the trailer, makes all durable, and then writes the superblock.
fn finish<B: Disk>(
    to: &mut B,
    replica: &Replica,
    target: &mut Target,
    plan: Plan,
) -> Result<(), Ending>
    requires ready { IsReadySource target.old.layout replica.now }
    requires plan { IsCopyPlan target.old.layout replica.now plan }
    requires room { needed target.old.layout (memory replica.now) ≤ target.old.layout.blocks }
    requires begun { IsCopied target.old.layout replica.now target.old }
    ensures finishes { (rs bs : List Message) → IsTarget target.old.layout replica.now.file.cluster rs bs target.old
        → length bs ≡ length (references (memory replica.now)) → Finishes target.old.layout replica.now rs bs (B.told to.old) (B.told to.new) result }
    ensures disk { IsBlamed is_target (B.faults to.old) (B.faults to.new) result }
    ensures target { IfErr result (λ ending. ending ≡ Ending.Target) }
{
    match write_trailer(to, replica, target, plan) {
        Ok(()) => {}
        Err(ending) => return Err(ending),
    }
    let content = copied_superblock(replica, target, plan);
    match write_synced(to, &mut target.log.superblock, &content) {
        Ok(()) => Ok(()),
        Err(_) => Err(Ending::Target),
    }
}

// Copies what passed the tests.
fn copy_planned<A: Disk, B: Disk>(
    plan: Plan,
    from: &mut A,
    to: &mut B,
    replica: &mut Replica,
    target: &mut Target,
) -> Result<(), Ending>
    requires plan { IsCopyPlan target.old.layout replica.old plan }
    requires ready { IsReadySource target.old.layout replica.old }
    requires room { needed target.old.layout (memory replica.old) ≤ target.old.layout.blocks }
    requires begun { IsTarget target.old.layout replica.old.file.cluster [] [] target.old }
    ensures copies { AreDistinctClients replica.old.table.sessions → CopiesPlanned target.old.layout replica.old (A.told from.old) (B.told to.old) (B.told to.new) result }
    ensures leaves { LeavesSource (beside replica.old (A.told from.old) (A.faults from.old) (B.faults to.old)) (beside replica.new (A.told from.new) (A.faults from.new) (B.faults to.new)) result }
{
    let cluster = replica.summary().cluster;
    match begin(to, target, cluster) {
        Ok(()) => {}
        Err(ending) => return Err(ending),
    }
    match copy_units(from, to, replica, target) {
        Ok(()) => finish(to, replica, target, plan),
        Err(ending) => Err(ending),
    }
}

/// Copies a source that was opened into a target of which nothing is written. Each refusal comes before the target's superblock is
/// touched, and the superblock is written only once all else is durable.
pub(crate) fn copy_into<A: Disk, B: Disk>(
    from: &mut A,
    to: &mut B,
    replica: &mut Replica,
    target: &mut Target,
) -> Result<(), Ending>
    requires live { replica.old.live ≡ true }
    requires begun { IsTarget target.old.layout replica.old.file.cluster [] [] target.old }
    ensures copies { AreDistinctClients replica.old.table.sessions → CopiesInto target.old.layout replica.old (A.told from.old) (B.told to.old) (B.told to.new) result }
    ensures leaves { LeavesSource (beside replica.old (A.told from.old) (A.faults from.old) (B.faults to.old)) (beside replica.new (A.told from.new) (A.faults from.new) (B.faults to.new)) result }
{
    match plan_copy(replica, &target.layout) {
        Ok(plan) => copy_planned(plan, from, to, replica, target),
        Err(ending) => Err(ending),
    }
}
