// A replica: what it keeps in memory of the file that it works on, and what it tells of it.
ghost use Rattle.std.specs.Prelude.{◌≡◌, ◌≤◌, false, length, slice_get};
ghost use Rattle.df_opening.specs.Below.{IsUsable};
ghost use Rattle.df_replica.specs.{Below.{IsState, is_running, memory}, Replica.{summary_of}, Stopping.{stopped}};

use crate::Rooms;
use df_format::SuperFields;
use df_model::Summary;
use df_opening::Parts;
use df_sessions::Session;
use std::marker::Model;

/// The state of a file in memory, with the rooms that serve it. Contracts see the state.
#[derive(Drop)]
pub struct Replica {
    pub(crate) parts: Parts,
}

impl Model for Replica {
    ghost use Rattle.df_opening.specs.Below.{State, AreWhole, state_in};

    ghost Value = { State };

    ghost view = { λ r. state_in r.parts };

    ghost invariant = { λ r. AreWhole r.parts };
}

// No call may follow. A call that lends from a field hands over the flag, since the whole can't be lent beside that.
pub(crate) fn end_calls(live: &mut bool)
    ensures { live.new ≡ false }
{
    *live = false;
}

impl Replica {
    /// Whether calls may go on: not after a fault.
    pub fn live(&self) -> bool
        ensures { result ≡ self.now.live }
    {
        self.parts.live
    }

    // The disk failed, or doesn't show what was written: no call may follow.
    pub(crate) fn stop(&mut self)
        ensures { self.new ≡ stopped self.old }
    {
        end_calls(&mut self.parts.live);
    }

    /// The numbers of the state.
    pub fn summary(&self) -> Summary
        ensures { result ≡ summary_of self.now }
    {
        self.parts.summary()
    }

    /// Whether a checkpoint runs.
    pub fn is_running(&self) -> bool
        ensures { result ≡ is_running (memory self.now).running }
    {
        match &self.parts.running {
            Some(_) => true,
            None => false,
        }
    }

    /// The root of the durable checkpoint; it is empty while no checkpoint has one.
    pub fn root(&self) -> &[u8]
        ensures is { result.now ≡ self.now.root }
        ensures short { length result.now ≤ 1024 }
    {
        self.parts.root.as_slice()
    }

    /// What the superblock says: the file's layout and cluster, its durable checkpoint, and what was recorded with that.
    pub fn fields(&self) -> &SuperFields
        ensures value { result.now ≡ self.now.fields }
        ensures usable { IsUsable self.now.fields }
        ensures state { IsState self.now }
    {
        self.parts.content.fields()
    }

    /// The session at a place, None exactly where the place is past the table.
    pub fn session(&self, place: u64) -> Option<Session>
        ensures { result ≡ slice_get self.now.table.sessions place }
    {
        self.parts.sessions.get(place)
    }

    /// Ends the work on the file, and gives the rooms back. It touches no disk.
    pub fn close(self) -> Rooms
        ensures { result.layout ≡ self.file.layout }
    {
        let Replica { parts } = self;
        parts.into_rooms()
    }
}
