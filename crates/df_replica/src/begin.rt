// The begin of a checkpoint: the root, the sessions, the head and the live blocks are captured, and the addresses of the trailer's
// blocks are set aside. It touches no disk.
ghost use Rattle.std.specs.Prelude.{◌≡◌, ◌≤◌, ◌+◌, ◌-◌, true, Option, length};
ghost use Rattle.df_replica.specs.{Below.{AreBytes, Told, Begin, IsState}, Answering.{Serves, begin_answer}, Beginning.{IsBegin, IsPlan, IsTested, MayBeginCheckpoint, with_checkpoint_begun}};

use crate::Replica;
use df_base::GREATEST;
use df_checkpoint::Capture;
use df_layout::ROOT;
use df_model::BeginError;
use df_opening::RunningCheckpoint;
use df_sessions::Session;
use df_trailer::{blocks_needed, trailer_size};

/// How long a trailer is to be.
#[derive(Clone, Copy)]
pub(crate) struct Plan {
    /// Bytes of its text.
    pub(crate) size: u64,
    pub(crate) blocks: u64,
}

// How many steps of a running checkpoint are still to come: one for each block of its trailer, and the last.
pub(crate) fn steps_left(running: &RunningCheckpoint) -> u64
    requires written { running.now.written ≤ running.now.blocks }
    requires few { running.now.blocks ≤ 70 }
    ensures { result ≡ running.now.blocks - running.now.written + 1 }
{
    running.blocks - running.written + 1
}

impl Replica {
    // How long the trailer of a checkpoint is that is begun now.
    fn plan(&self, root: &[u8]) -> Plan
        requires { length root.now ≤ 1024 }
        ensures { IsPlan self.now root.now result }
    {
        let root = root.len() as u64;
        let sessions = self.parts.sessions.len();
        let blocks = self.parts.grid.live_blocks();
        Plan {
            size: trailer_size(&self.parts.file.layout, root, sessions, blocks),
            blocks: blocks_needed(&self.parts.file.layout, root, sessions, blocks),
        }
    }

    // Why a checkpoint isn't begun, or else how long its trailer is to be.
    fn test_begin(&self, root: &[u8]) -> Result<Plan, BeginError>
        ensures tested { IsTested self.now root.now result }
        ensures state { IsState self.now }
        ensures bytes { AreBytes root.now }
    {
        if let Some(running) = &self.parts.running {
            return Err(BeginError::Running {
                left: steps_left(running),
            });
        }
        if root.len() > ROOT {
            return Err(BeginError::RootTooLong { max: ROOT as u64 });
        }
        let plan = self.plan(root);
        let free = self.parts.grid.free();
        if free < plan.blocks {
            return Err(BeginError::GridFull {
                needed: plan.blocks,
                free,
            });
        }
        if self.parts.content.fields().sequence == GREATEST {
            return Err(BeginError::SequenceSpent);
        }
        Ok(plan)
    }

    /// The sessions in order of their places.
    pub fn sessions(&self) -> &[Session]
        ensures is { result.now ≡ self.now.table.sessions }
        ensures few { length result.now ≤ 64 }
    {
        // The sessions are a table of the file.
        let _count = self.parts.sessions.len();
        self.parts.sessions.as_slice()
    }

    // Captures the state, for a checkpoint with a trailer of this length.
    fn capture(&mut self, root: &[u8], plan: Plan)
        requires { MayBeginCheckpoint self.old root.now plan }
        ensures { self.new ≡ with_checkpoint_begun self.old root.now }
    {
        // The sessions are a table of the file.
        let _count = self.parts.sessions.len();
        let sequence = self.parts.content.fields().sequence + 1;
        let capture = Capture::of(root, self.parts.sessions.as_slice(), sequence);
        self.parts.grid.capture(plan.blocks);
        self.parts.running = Some(RunningCheckpoint {
            op: self.parts.head,
            op_checksum: self.parts.head_checksum,
            capture,
            size: plan.size,
            blocks: plan.blocks,
            written: 0,
        });
    }

    /// Begins a checkpoint of the state as it is now, with a root of at most 1,024 bytes, which the replica keeps as it is. The
    /// answer is how many blocks its trailer needs; that many steps and one more end it. The first reason of the order refuses
    /// it: one runs already, the root is too long, fewer addresses are free, no sequence is left; a refusal changes nothing.
    pub fn checkpoint_begin(&mut self, root: &[u8]) -> Result<u64, BeginError>
        requires live { self.old.live ≡ true }
        ensures exact { IsBegin root.now self.old self.new result }
        ensures call { (told : Option Told) → Serves (Begin root.now) self.old self.new told told (begin_answer result) }
    {
        match self.test_begin(root) {
            Ok(plan) => {
                self.capture(root, plan);
                Ok(plan.blocks)
            }
            Err(error) => Err(error),
        }
    }
}
