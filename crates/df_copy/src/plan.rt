// What is tested before the target is touched: the source is at rest, and the layout has room for its sessions and its blocks.
ghost use Rattle.std.specs.Prelude.{◌≡◌, ◌<◌, ◌≤◌, ◌^◌, false, true, length, IfErr, IfOk};
ghost use Rattle.df_opening.specs.Below.{memory};
ghost use Rattle.df_copy.specs.{Planning.{IsCopyPlan, IsCopyTested}, Tests.{is_at_rest, needed, references}};

use crate::ending::Ending;
use df_base::HEADER;
use df_layout::Layout;
use df_replica::Replica;
use df_trailer::trailer_size;

/// How long the copy's trailer is to be: bytes of its text, and blocks. Both are 0 where the source has none.
#[derive(Clone, Copy)]
pub struct Plan {
    pub size: u64,
    pub blocks: u64,
}

// Whether nothing stands after the source's checkpoint and nothing waits for its reply.
fn test_rest(replica: &Replica) -> Result<(), Ending>
    ensures ok { IfOk result (λ _. is_at_rest (memory replica.now) ≡ true) }
    ensures err { IfErr result (λ e. (is_at_rest (memory replica.now) ≡ false) × (e ≡ Ending.NotAtRest replica.now.fields.op replica.now.head replica.now.replies)) }
{
    let summary = replica.summary();
    if summary.checkpoint_op == summary.head && summary.head == summary.replies {
        Ok(())
    } else {
        Err(Ending::NotAtRest {
            checkpoint_op: summary.checkpoint_op,
            head: summary.head,
            replies: summary.replies,
        })
    }
}

// Whether the layout has a place for each session.
fn test_clients(replica: &Replica, layout: &Layout) -> Result<(), Ending>
    ensures ok { IfOk result (λ _. length replica.now.table.sessions ≤ layout.now.clients) }
    ensures err { IfErr result (λ e. (layout.now.clients < length replica.now.table.sessions) × (e ≡ Ending.TooFewClients (length replica.now.table.sessions) layout.now.clients)) }
{
    let sessions = replica.summary().sessions;
    let clients = u64::from(layout.clients);
    if sessions <= clients {
        Ok(())
    } else {
        Err(Ending::TooFewClients { sessions, clients })
    }
}

// How many of the source's blocks the copy is to have.
fn count_references(replica: &Replica) -> u64
    ensures count { result ≡ length (references (memory replica.now)) }
    ensures most { result ≤ 16384 }
{
    let blocks = replica.summary().layout.blocks;
    let mut count = 0;
    for before in 0..blocks {
        if replica.reference(u64::from(before) + 1).is_some() {
            count += 1;
        }
    }
    count
}

// How long the copy's trailer is to be.
fn plan_trailer(replica: &Replica, layout: &Layout, count: u64) -> Plan
    requires sessions { length replica.now.table.sessions ≤ layout.now.clients }
    requires count { count ≡ length (references (memory replica.now)) }
    requires most { count ≤ 16384 }
    ensures plan { IsCopyPlan layout.now replica.now result }
    ensures below { result.blocks ≤ 2 ^ 32 }
{
    let mut size = 0;
    if replica.fields().trailer_address != 0 {
        let root = replica.root().len() as u64;
        let sessions = replica.summary().sessions;
        size = trailer_size(layout, root, sessions, count);
    }
    let room = u64::from(layout.block_size) - HEADER as u64;
    Plan {
        size,
        blocks: size.div_ceil(room),
    }
}

// Whether the layout has room for the blocks, and how long the trailer is to be.
fn test_blocks(replica: &Replica, layout: &Layout) -> Result<Plan, Ending>
    requires sessions { length replica.now.table.sessions ≤ layout.now.clients }
    ensures ok { IfOk result (λ plan. IsCopyPlan layout.now replica.now plan × (needed layout.now (memory replica.now) ≤ layout.now.blocks)) }
    ensures err { IfErr result (λ e. (layout.now.blocks < needed layout.now (memory replica.now)) × (e ≡ Ending.TooFewBlocks (needed layout.now (memory replica.now)) layout.now.blocks)) }
{
    let count = count_references(replica);
    let plan = plan_trailer(replica, layout, count);
    let needed = count + plan.blocks;
    let blocks = u64::from(layout.blocks);
    if needed <= blocks {
        Ok(plan)
    } else {
        Err(Ending::TooFewBlocks { needed, blocks })
    }
}

/// Tests the source against the layout, in the order of the refusals, and says how long the copy's trailer is to be. No disk is touched.
pub(crate) fn plan_copy(replica: &Replica, layout: &Layout) -> Result<Plan, Ending>
    ensures tested { IsCopyTested layout.now replica.now result }
{
    test_rest(replica)?;
    test_clients(replica, layout)?;
    test_blocks(replica, layout)
}
