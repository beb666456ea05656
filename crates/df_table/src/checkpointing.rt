// A checkpoint of the table: its blocks are written while the live ones, and so those that the durable checkpoint references, are let go; the checkpoint refers to the new ones alone.
ghost use Rattle.std.specs.Prelude.{◌≡◌, ◌<◌, ◌≤◌, ◌*◌, [], ◌∷◌, true, length, Option, Some, IfErr, OnOk};
ghost use Rattle.std.specs.FinMap as map;
ghost use Rattle.df_base.specs.Causes.{IsBlamed};
ghost use Rattle.df_disk.specs.Told.{Told};
ghost use Rattle.df_layout.specs.declared.layout.Layout.{Layout as Shape};
ghost use Rattle.df_model.specs.Commands.{WriteBlock};
ghost use Rattle.df_rows.specs.Limits as limits;
ghost use Rattle.df_session.specs.{Beginning.{captured, with_checkpoint_begun}, Below.{RunningState, State as Standing, memory}, Blocks.{released}};
ghost use Rattle.df_table.specs.{Calls.{Advances, Checkpoints, Comes, Concludes, Fills, GoesOrEnds, IsCheckpointing, MayBegin}, Policy.{body_at, is_full, releases, releases_at, writes}};
ghost use Rattle.df_table.specs.{Ready.{HasFree, HasRingRoom, IsEmptied, IsFinished, IsReadyReplica, WroteBlocks, without_live}, Statuses.{is_disk}, Turns.{IsOfCall, MakeAll}};

use crate::calls::{begin, release, step, write};
use crate::ending::Ending;
use df_disk::Disk;
use df_layout::Layout;
use df_rows::ObjectTable;
use df_session::Replica;

/// Whether the ring has no slot for the next op.
pub(crate) fn is_full(replica: &Replica) -> bool
    ensures { (layout : Shape) → IsReadyReplica layout replica.now → result ≡ is_full (memory replica.now) }
{
    let summary = replica.summary();
    let last = summary
        .checkpoint_op
        .saturating_add(u64::from(summary.layout.slots));
    let next = summary.head.saturating_add(1);
    last < next
}

// Lets the block at an address go, if it is live.
fn release_at(replica: &mut Replica, address: u64)
    requires live { replica.old.live ≡ true }
    ensures makes { (told : Option Told) → MakeAll (releases_at address (memory replica.old)) replica.old replica.new told told }
    ensures state { replica.new ≡ released replica.old address }
    ensures live { replica.new.live ≡ true }
{
    match replica.reference(address) {
        Some(_) => release(replica, address),
        None => {}
    }
}

// Lets all live blocks go. Those of the durable checkpoint aren't written over before the next one is done.
fn release_all(replica: &mut Replica, layout: &Layout)
    requires live { replica.old.live ≡ true }
    ensures makes { (told : Option Told) → IsReadyReplica layout.now replica.old → MakeAll (releases (memory replica.old)) replica.old replica.new told told }
    ensures state { IsReadyReplica layout.now replica.old → replica.new ≡ without_live replica.old }
    ensures live { replica.new.live ≡ true }
{
    for before in 0..u64::from(layout.blocks) {
        release_at(replica, before + 1);
    }
}

// Writes a block of the table, counted from 0, through this buffer.
fn write_rows<D: Disk>(
    disk: &mut D,
    replica: &mut Replica,
    table: &ObjectTable,
    layout: &Layout,
    block: u64,
    buffer: &mut [u8],
) -> Result<(), Ending>
    requires live { replica.old.live ≡ true }
    requires block { block < limits.block_count (limits.rows_in_block layout.now) (map.len table.now.rows) }
    requires buffer { 64 * limits.rows_in_block layout.now ≤ length buffer.old }
    ensures makes { replica.old.file.layout ≡ layout.now → HasFree layout.now replica.old.blocks 1
        → Comes (WriteBlock 1 (body_at layout.now table.now.rows block) ∷ []) replica.old replica.new (D.told disk.old) (D.told disk.new) result }
    ensures wrote { OnOk result (WroteBlocks 1 replica.old replica.new) }
    ensures goes { GoesOrEnds result replica.new (D.told disk.new) }
    ensures buffer { length buffer.new ≡ length buffer.old }
    ensures disk { IsBlamed is_disk (D.faults disk.old) (D.faults disk.new) result }
{
    let size = table.put_block(layout, block, buffer);
    write(disk, replica, &buffer[..size])
}

// Writes all blocks of the table, in order of its rows.
fn write_table<D: Disk>(
    disk: &mut D,
    replica: &mut Replica,
    table: &ObjectTable,
    layout: &Layout,
    buffer: &mut [u8],
) -> Result<(), Ending>
    requires live { replica.old.live ≡ true }
    requires buffer { 64 * limits.rows_in_block layout.now ≤ length buffer.old }
    ensures makes { replica.old.file.layout ≡ layout.now → HasFree layout.now replica.old.blocks (limits.block_count (limits.rows_in_block layout.now) (map.len table.now.rows))
        → Comes (writes layout.now table.now.rows) replica.old replica.new (D.told disk.old) (D.told disk.new) result }
    ensures wrote { OnOk result (WroteBlocks (limits.block_count (limits.rows_in_block layout.now) (map.len table.now.rows)) replica.old replica.new) }
    ensures goes { GoesOrEnds result replica.new (D.told disk.new) }
    ensures disk { IsBlamed is_disk (D.faults disk.old) (D.faults disk.new) result }
{
    for block in 0..table.blocks(layout) {
        match write_rows(disk, replica, table, layout, block, buffer) {
            Ok(()) => {}
            Err(ending) => return Err(ending),
        }
    }
    Ok(())
}

// Takes all steps of the checkpoint that runs.
fn finish<D: Disk>(disk: &mut D, replica: &mut Replica) -> Result<(), Ending>
    requires live { replica.old.live ≡ true }
    requires runs { IsCheckpointing replica.old }
    ensures makes { Advances replica.old replica.new (D.told disk.old) (D.told disk.new) result }
    ensures finished { (r : RunningState) → replica.old.running ≡ Some r → OnOk result (IsFinished r replica.old replica.new) }
    ensures goes { GoesOrEnds result replica.new (D.told disk.new) }
    ensures disk { IsBlamed is_disk (D.faults disk.old) (D.faults disk.new) result }
{
    loop {
        match step(disk, replica) {
            Ok(done) => {
                if done {
                    return Ok(());
                }
            }
            Err(ending) => return Err(ending),
        }
    }
}

// Begins a checkpoint without a root, and takes all of its steps.
fn conclude<D: Disk>(disk: &mut D, replica: &mut Replica) -> Result<(), Ending>
    requires live { replica.old.live ≡ true }
    ensures makes { MayBegin replica.old → Concludes replica.old replica.new (D.told disk.old) (D.told disk.new) result }
    ensures finished { OnOk result (IsFinished (captured replica.old []) (with_checkpoint_begun replica.old []) replica.new) }
    ensures goes { GoesOrEnds result replica.new (D.told disk.new) }
    ensures disk { IsBlamed is_disk (D.faults disk.old) (D.faults disk.new) result }
{
    match begin(replica) {
        Ok(()) => finish(disk, replica),
        Err(ending) => Err(ending),
    }
}

// Writes the blocks of the table into a grid without live blocks, and makes them durable.
fn fill<D: Disk>(
    disk: &mut D,
    replica: &mut Replica,
    table: &ObjectTable,
    layout: &Layout,
    buffer: &mut [u8],
) -> Result<(), Ending>
    requires live { replica.old.live ≡ true }
    requires buffer { 64 * limits.rows_in_block layout.now ≤ length buffer.old }
    ensures makes { (s : Standing) → IsEmptied layout.now s replica.old → map.len table.now.rows ≤ limits.most_rows layout.now
        → Fills layout.now table.now.rows replica.old replica.new (D.told disk.old) (D.told disk.new) result }
    ensures room { (s : Standing) → IsEmptied layout.now s replica.old → map.len table.now.rows ≤ limits.most_rows layout.now → OnOk result (HasRingRoom layout.now s replica.new) }
    ensures goes { GoesOrEnds result replica.new (D.told disk.new) }
    ensures disk { IsBlamed is_disk (D.faults disk.old) (D.faults disk.new) result }
{
    match write_table(disk, replica, table, layout, buffer) {
        Ok(()) => conclude(disk, replica),
        Err(ending) => Err(ending),
    }
}

/// Makes the table durable as the blocks of a checkpoint, so that the ring has slots again.
pub(crate) fn checkpoint<D: Disk>(
    disk: &mut D,
    replica: &mut Replica,
    table: &ObjectTable,
    layout: &Layout,
    buffer: &mut [u8],
) -> Result<(), Ending>
    requires live { replica.old.live ≡ true }
    requires buffer { 64 * limits.rows_in_block layout.now ≤ length buffer.old }
    ensures makes { IsReadyReplica layout.now replica.old → map.len table.now.rows ≤ limits.most_rows layout.now
        → Checkpoints layout.now table.now.rows replica.old replica.new (D.told disk.old) (D.told disk.new) result }
    ensures room { IsReadyReplica layout.now replica.old → map.len table.now.rows ≤ limits.most_rows layout.now → OnOk result (HasRingRoom layout.now replica.old replica.new) }
    ensures goes { GoesOrEnds result replica.new (D.told disk.new) }
    ensures disk { IsBlamed is_disk (D.faults disk.old) (D.faults disk.new) result }
{
    release_all(replica, layout);
    fill(disk, replica, table, layout, buffer)
}
