// The opening of a table's file: whether it is one, its table, and the replies to what waits.
ghost use Rattle.std.specs.Prelude.{◌≡◌, ◌≤◌, ◌<◌, ◌↔◌, ◌+◌, ◌^◌, ℕ, [], ◌∷◌, ◌++◌, true, length, Some, Ok, IfErr, IfOk, IfSome, IfNone, IsTrue, OnOk};
ghost use Rattle.df_base.specs.Causes.{IsBlamed};
ghost use Rattle.df_disk.specs.Told.{Told};
ghost use Rattle.df_model.specs.{Blocks.{sum_at}, Commands.{ReadBlock, ReadPrepare}, Work.{Work, is_known}};
ghost use Rattle.df_session.specs.{Below.{memory}, Reading.{shown_of}};
ghost use Rattle.df_table.specs.{Calls.{Comes, OpensTable}, Opening.{FindsOf, IsOtherClient, NoneIsOther, ReadsNext, ReadsPrepare, ReadsTableBlock}};
ghost use Rattle.df_table.specs.{Opening.{TakesBlocks, TakesCommand, TakesRows, TakesTail, block_ending, place_at, prepare_ending}, Policy.{block_reads, prepare_reads, reads_at, replies}};
ghost use Rattle.df_table.specs.{Ready.{HasCaughtUp, IsBegun, IsReadyReplica}, Statuses.{is_disk}, Table.{empty_table}};

use crate::calls::{CLIENT, reply};
use crate::ending::Ending;
use df_disk::Disk;
use df_layout::{Layout, Place, Zone};
use df_model::{PrepareError, ReadError};
use df_rows::{Command, ObjectTable, blocks_of_table};
use df_session::Replica;

// Whether the session at a place is another client's.
fn is_other(replica: &Replica, place: u64) -> bool
    ensures { IsTrue result ↔ IsOtherClient (memory replica.now) place }
{
    match replica.session(place) {
        Some(session) => session.client != CLIENT,
        None => false,
    }
}

// The least place of another client's session.
fn other_client(replica: &Replica) -> Option<u64>
    ensures found { IfSome result (λ place. IsOtherClient (memory replica.now) place × NoneIsOther (memory replica.now) place) }
    ensures none { IfNone result (NoneIsOther (memory replica.now) (length replica.now.table.sessions)) }
{
    for place in 0..replica.summary().sessions {
        if is_other(replica, place) {
            return Some(place);
        }
    }
    None
}

// What stands at a place is no table's.
fn not_table(zone: Zone, index: u64) -> Ending
    ensures { result ≡ Ending.NotTable (place_at zone index) }
{
    Ending::NotTable {
        place: Place { zone, index },
    }
}

// ---- blocks

// Why a live block isn't read.
fn unread_block(error: ReadError) -> Ending
    requires { error ≡ ReadError.NotLive → ⊥ }
    ensures { result ≡ block_ending error }
{
    match error {
        ReadError::Damaged { place, class } => Ending::Damaged { place, class },
        ReadError::DiskFault => Ending::Disk,
        ReadError::NotLive => unreachable!(),
    }
}

// Takes the rows of the body of a block, before which this many were taken.
fn take_rows(
    table: ObjectTable,
    body: &[u8],
    address: u64,
    before: u64,
    most: u64,
) -> Result<ObjectTable, Ending>
    ensures { TakesRows address before most table body.now result }
{
    if most <= before {
        return Err(not_table(Zone::Grid, address));
    }
    match table.with_block(body) {
        Some(table) => Ok(table),
        None => Err(not_table(Zone::Grid, address)),
    }
}

// Takes the rows of a live block, before which this many were taken.
fn take_block<D: Disk>(
    disk: &mut D,
    replica: &mut Replica,
    table: ObjectTable,
    address: u64,
    before: u64,
    most: u64,
) -> Result<ObjectTable, Ending>
    requires live { replica.old.live ≡ true }
    requires known { is_known (sum_at address (memory replica.old).blocks.live) ≡ true }
    ensures makes { Comes (ReadBlock address ∷ []) replica.old replica.new (D.told disk.old) (D.told disk.new) result }
    ensures reads { (t : Told) → D.told disk.old ≡ Some t → ReadsTableBlock (shown_of replica.old.file t.shown) (memory replica.old) address before most table result }
    ensures kept { OnOk result (replica.new ≡ replica.old) }
    ensures same { D.told disk.new ≡ D.told disk.old }
    ensures disk { IsBlamed is_disk (D.faults disk.old) (D.faults disk.new) result }
{
    match replica.read_block(disk, address) {
        Ok(unit) => take_rows(table, unit.body(), address, before, most),
        Err(error) => Err(unread_block(error)),
    }
}

// The table so far, and how many blocks it is of.
#[derive(Drop)]
struct Taken {
    table: ObjectTable,
    count: u64,
}

// Takes the rows of the block at an address, if it is live.
fn take_next<D: Disk>(
    disk: &mut D,
    replica: &mut Replica,
    taken: Taken,
    address: u64,
    most: u64,
) -> Result<Taken, Ending>
    requires live { replica.old.live ≡ true }
    requires few { taken.count < 2 ^ 32 }
    ensures makes { Comes (reads_at address (memory replica.old)) replica.old replica.new (D.told disk.old) (D.told disk.new) result }
    ensures reads { (t : Told) → D.told disk.old ≡ Some t
        → ReadsNext (shown_of replica.old.file t.shown) (memory replica.old) address most taken (sum_at address replica.old.blocks.live) result }
    ensures count { IfOk result (λ next. next.count ≤ taken.count + 1) }
    ensures kept { OnOk result (replica.new ≡ replica.old) }
    ensures same { D.told disk.new ≡ D.told disk.old }
    ensures disk { IsBlamed is_disk (D.faults disk.old) (D.faults disk.new) result }
{
    match replica.reference(address) {
        Some(_) => match take_block(disk, replica, taken.table, address, taken.count, most) {
            Ok(table) => Ok(Taken {
                table,
                count: taken.count + 1,
            }),
            Err(ending) => Err(ending),
        },
        None => Ok(taken),
    }
}

// Takes the rows of all referenced blocks, in order of address.
fn take_blocks<D: Disk>(
    disk: &mut D,
    replica: &mut Replica,
    table: ObjectTable,
    layout: &Layout,
) -> Result<ObjectTable, Ending>
    requires live { replica.old.live ≡ true }
    ensures makes { (w : Work) → IsBegun layout.now w replica.old → Comes (block_reads (memory replica.old)) replica.old replica.new (D.told disk.old) (D.told disk.new) result }
    ensures takes { (w : Work) → IsBegun layout.now w replica.old → NoneIsOther (memory replica.old) (length (memory replica.old).sessions) → table ≡ empty_table layout.now
        → (t : Told) → D.told disk.old ≡ Some t → TakesBlocks layout.now (shown_of replica.old.file t.shown) (memory replica.old) result }
    ensures kept { OnOk result (replica.new ≡ replica.old) }
    ensures same { D.told disk.new ≡ D.told disk.old }
    ensures disk { IsBlamed is_disk (D.faults disk.old) (D.faults disk.new) result }
{
    let most = blocks_of_table(layout);
    let mut taken = Taken { table, count: 0 };
    for before in 0..u64::from(layout.blocks) {
        match take_next(disk, replica, taken, before + 1, most) {
            Ok(next) => taken = next,
            Err(ending) => return Err(ending),
        }
    }
    Ok(taken.table)
}

// ---- prepares

// Why a prepare that is kept isn't read.
fn unread_prepare(error: PrepareError) -> Ending
    requires { (first last : ℕ) → error ≡ PrepareError.NotKept first last → ⊥ }
    ensures { result ≡ prepare_ending error }
{
    match error {
        PrepareError::Damaged { place, class } => Ending::Damaged { place, class },
        PrepareError::DiskFault => Ending::Disk,
        PrepareError::NotKept { first: _, last: _ } => unreachable!(),
    }
}

// Applies the command that the body of a prepare is, which stands in this slot.
fn take_command(table: &mut ObjectTable, body: &[u8], slot: u64) -> Result<(), Ending>
    ensures { TakesCommand (place_at Zone.WalPrepares slot) table.old table.new body.now result }
{
    match Command::decode(body) {
        Some(command) => {
            if table.can_apply(&command) {
                table.apply(command);
                Ok(())
            } else {
                Err(not_table(Zone::WalPrepares, slot))
            }
        }
        None => Err(not_table(Zone::WalPrepares, slot)),
    }
}

// Applies the command of a prepare after the checkpoint.
fn take_prepare<D: Disk>(
    disk: &mut D,
    replica: &mut Replica,
    table: &mut ObjectTable,
    op: u64,
    layout: &Layout,
) -> Result<(), Ending>
    requires live { replica.old.live ≡ true }
    requires behind { replica.old.fields.op < op }
    requires within { op ≤ replica.old.head }
    ensures makes { Comes (ReadPrepare op ∷ []) replica.old replica.new (D.told disk.old) (D.told disk.new) result }
    ensures reads { replica.old.file.layout ≡ layout.now → (t : Told) → D.told disk.old ≡ Some t
        → ReadsPrepare layout.now (shown_of replica.old.file t.shown) (memory replica.old) op table.old table.new result }
    ensures kept { OnOk result (replica.new ≡ replica.old) }
    ensures same { D.told disk.new ≡ D.told disk.old }
    ensures disk { IsBlamed is_disk (D.faults disk.old) (D.faults disk.new) result }
{
    match replica.read_prepare(disk, op) {
        Ok(unit) => take_command(table, unit.body(), op % u64::from(layout.slots)),
        Err(error) => Err(unread_prepare(error)),
    }
}

// Applies the commands of all prepares after the checkpoint, in order of op.
fn take_tail<D: Disk>(
    disk: &mut D,
    replica: &mut Replica,
    table: &mut ObjectTable,
    layout: &Layout,
) -> Result<(), Ending>
    requires live { replica.old.live ≡ true }
    ensures makes { Comes (prepare_reads (memory replica.old)) replica.old replica.new (D.told disk.old) (D.told disk.new) result }
    ensures takes { (w : Work) → IsBegun layout.now w replica.old → (t : Told) → D.told disk.old ≡ Some t
        → TakesBlocks layout.now (shown_of replica.old.file t.shown) (memory replica.old) (Ok table.old)
        → TakesTail layout.now (shown_of replica.old.file t.shown) (memory replica.old) table.new result }
    ensures kept { OnOk result (replica.new ≡ replica.old) }
    ensures same { D.told disk.new ≡ D.told disk.old }
    ensures disk { IsBlamed is_disk (D.faults disk.old) (D.faults disk.new) result }
{
    let summary = replica.summary();
    for before in summary.checkpoint_op..summary.head {
        match take_prepare(disk, replica, table, before + 1, layout) {
            Ok(()) => {}
            Err(ending) => return Err(ending),
        }
    }
    Ok(())
}

// ---- replies

// Replies to each op that waits.
fn catch_up<D: Disk>(disk: &mut D, replica: &mut Replica) -> Result<(), Ending>
    requires live { replica.old.live ≡ true }
    ensures makes { Comes (replies (memory replica.old)) replica.old replica.new (D.told disk.old) (D.told disk.new) result }
    ensures fails { IfErr result (λ ending. ending ≡ Ending.Disk) }
    ensures caught { OnOk result (HasCaughtUp replica.old replica.new) }
    ensures live { OnOk result (replica.new.live ≡ true) }
    ensures disk { IsBlamed is_disk (D.faults disk.old) (D.faults disk.new) result }
{
    let summary = replica.summary();
    for before in summary.replies..summary.head {
        match reply(disk, replica, before + 1) {
            Ok(()) => {}
            Err(ending) => return Err(ending),
        }
    }
    Ok(())
}

// ---- all of it

// Applies what stands after the checkpoint, and replies to what waits.
fn follow<D: Disk>(
    disk: &mut D,
    replica: &mut Replica,
    layout: &Layout,
    table: ObjectTable,
) -> Result<ObjectTable, Ending>
    requires live { replica.old.live ≡ true }
    ensures makes { Comes (prepare_reads (memory replica.old) ++ replies (memory replica.old)) replica.old replica.new (D.told disk.old) (D.told disk.new) result }
    ensures finds { (w : Work) → IsBegun layout.now w replica.old → (t : Told) → D.told disk.old ≡ Some t
        → TakesBlocks layout.now (shown_of replica.old.file t.shown) (memory replica.old) (Ok table)
        → FindsOf layout.now (shown_of replica.old.file t.shown) (memory replica.old) result }
    ensures caught { OnOk result (HasCaughtUp replica.old replica.new) }
    ensures live { OnOk result (replica.new.live ≡ true) }
    ensures disk { IsBlamed is_disk (D.faults disk.old) (D.faults disk.new) result }
{
    let mut table = table;
    match take_tail(disk, replica, &mut table, layout) {
        Ok(()) => match catch_up(disk, replica) {
            Ok(()) => Ok(table),
            Err(ending) => Err(ending),
        },
        Err(ending) => Err(ending),
    }
}

/// Finds the table of a file that was opened, and replies to what waits. The table is given empty, and is lost where the file has none.
pub(crate) fn open_table<D: Disk>(
    disk: &mut D,
    replica: &mut Replica,
    table: ObjectTable,
    layout: &Layout,
) -> Result<ObjectTable, Ending>
    requires empty { table ≡ empty_table layout.now }
    requires live { replica.old.live ≡ true }
    ensures opens { (w : Work) → IsBegun layout.now w replica.old → OpensTable replica.old replica.new (D.told disk.old) (D.told disk.new) result }
    ensures finds { (w : Work) → IsBegun layout.now w replica.old → (t : Told) → D.told disk.old ≡ Some t
        → FindsOf layout.now (shown_of replica.old.file t.shown) (memory replica.old) result }
    ensures ready { (w : Work) → IsBegun layout.now w replica.old → (t : Told) → D.told disk.old ≡ Some t → OnOk result (IsReadyReplica layout.now replica.new) }
    ensures live { OnOk result (replica.new.live ≡ true) }
    ensures disk { IsBlamed is_disk (D.faults disk.old) (D.faults disk.new) result }
{
    match other_client(replica) {
        Some(place) => Err(not_table(Zone::ClientReplies, place)),
        None => match take_blocks(disk, replica, table, layout) {
            Ok(table) => follow(disk, replica, layout, table),
            Err(ending) => Err(ending),
        },
    }
}
