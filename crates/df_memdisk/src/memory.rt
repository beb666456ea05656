// The disk itself: it keeps each event, so that its log is real, and shows what the log leaves, but
// for sectors that were struck.
ghost use Rattle.std.specs.Prelude.{◌≡◌, ◌≤◌, ◌⊎◌, [], ◌∷◌, length, true, is_err, Some, OnOk, OnErr};
ghost use Rattle.df_base.specs.{Causes.{HasCause, counted}, Image.{blank}, Log.{new_log, Write, Sync, AreEvents, IsLog}, Plan.{new_plan, is_listed, after_call}};
ghost use Rattle.df_disk.specs.Told.{AreSectors, IsHonest, Shows, after, did};
ghost use Rattle.df_memdisk.specs.State.{SyncsEvents, WritesEvent, log_of, told_of};

use crate::history::Happened;
use crate::shown::{Struck, show_sectors};
use crate::written::Written;
use df_base::{Failed, FaultPlan, OutOfMemory};
use df_disk::Disk;
use std::alloc::Global;
use std::marker::Model;

/// A disk in memory. A read fails exactly where its number, counted over all device calls from 1, is
/// listed; a write or a sync also where memory for its event was refused.
pub struct MemoryDisk {
    alloc: Global,
    pub(crate) past: Vec<Happened>,
    pub(crate) strikes: Vec<Struck>,
    pub(crate) plan: FaultPlan,
    refused: u64,
}

// Its owner lets go of it in one call, and not field by field.
impl Drop for MemoryDisk {
    fn drop(self) {
        let MemoryDisk {
            alloc: _,
            past: _,
            strikes: _,
            plan: _,
            refused: _,
        } = self;
    }
}

impl Model for MemoryDisk {
    ghost use Rattle.df_memdisk.specs.State.{DiskState};
    ghost use Rattle.df_memdisk.specs.History.{events_of};
    ghost use Rattle.std.specs.Prelude.{reverse};

    ghost Value = { DiskState };

    ghost view = { λ d. record {
      events = events_of d.past.items;
      strikes = reverse d.strikes.items;
      plan = d.plan;
      refused = d.refused;
    } };

    ghost use Rattle.df_memdisk.specs.State.{IsDisk};

    ghost invariant = { λ d. IsDisk d.past.items d.strikes.items };
}

impl MemoryDisk {
    /// A blank disk whose device calls of these numbers, counted from 1, fail. It takes no memory.
    pub fn new(alloc: Global, failing: Vec<u64>) -> MemoryDisk
        ensures state { result ≡ record { events = []; strikes = []; plan = new_plan failing.items; refused = 0 } }
        ensures blank { told_of result ≡ record { log = new_log; shown = blank } }
        ensures honest { IsHonest (told_of result) }
    {
        MemoryDisk {
            alloc,
            past: Vec::new(alloc),
            strikes: Vec::new(alloc),
            plan: FaultPlan::new(failing),
            refused: 0,
        }
    }

    /// How many events its log has, which is one that a disk can have.
    pub fn events(&self) -> u64
        ensures count { result ≡ length self.now.events }
        ensures log { IsLog (log_of self.now) }
        ensures unstruck_is_honest { self.now.strikes ≡ [] → IsHonest (told_of self.now) }
    {
        self.past.as_slice().len() as u64
    }

    /// How many device calls there were, reads, writes and syncs together, those that failed among them.
    /// The count stops at `u64::MAX`.
    pub fn calls(&self) -> u64
        ensures { result ≡ self.now.plan.calls }
    {
        self.plan.calls()
    }

    /// How many device calls failed because memory was refused. The count stops at `u64::MAX`.
    pub fn refused(&self) -> u64
        ensures { result ≡ self.now.refused }
    {
        self.refused
    }
}

impl MemoryDisk {
    ghost use Rattle.df_memdisk.specs.History.{event_of};

    // Keeps an event, unless memory for it is refused, which is the caller's to count.
    pub(crate) fn keep(&mut self, happened: Happened) -> Result<(), OutOfMemory>
        requires { AreEvents (event_of happened ∷ self.old.events) }
        ensures ok { OnOk result (self.new ≡ record self.old { events = event_of happened ∷ self.old.events }) }
        ensures told { OnOk result (told_of self.new ≡ did (event_of happened) (told_of self.old)) }
        ensures err { OnErr result (self.new ≡ self.old) }
        ensures honest { IsHonest (told_of self.old) → IsHonest (told_of self.new) }
    {
        match self.past.push(happened) {
            Ok(()) => Ok(()),
            Err(_) => Err(OutOfMemory),
        }
    }

    // Keeps a write, with a copy of its bytes.
    fn keep_write(&mut self, at: u64, bytes: &[u8]) -> Result<(), OutOfMemory>
        requires { AreSectors at (length bytes.now) }
        ensures ok { OnOk result (self.new ≡ record self.old { events = Write at bytes.now ∷ self.old.events }) }
        ensures told { OnOk result (told_of self.new ≡ did (Write at bytes.now) (told_of self.old)) }
        ensures err { OnErr result (self.new ≡ self.old) }
        ensures honest { IsHonest (told_of self.old) → IsHonest (told_of self.new) }
    {
        let bytes = Vec::from_slice(self.alloc, bytes)?;
        self.keep(Happened::Wrote(Written { at, bytes }))
    }

    // Counts a fault for which memory was refused.
    fn refuse(&mut self) -> Failed
        ensures counted { self.new ≡ record self.old { plan = record self.old.plan { faults = counted self.old.plan.faults }; refused = counted self.old.refused } }
        ensures later { self.old.plan.faults ≤ self.new.plan.faults }
    {
        self.refused = self.refused.saturating_add(1);
        self.plan.fail()
    }
}

impl Disk for MemoryDisk {
    ghost told = { λ d. Some (told_of d) };

    ghost faults = { λ d. d.plan.faults };

    fn read(&mut self, at: u64, into: &mut [u8]) -> Result<(), Failed>
        requires { AreSectors at (length into.old) }
        ensures bytes { OnOk result (Shows (Some (told_of self.old)) at into.new) }
        ensures same { Some (told_of self.new) ≡ Some (told_of self.old) }
        ensures cause { HasCause self.old.plan.faults self.new.plan.faults result }

        ensures fails_exactly { is_err result ≡ is_listed self.old.plan }
        ensures state { self.new ≡ record self.old { plan = after_call self.old.plan result } }
        ensures honest { IsHonest (told_of self.old) → IsHonest (told_of self.new) }
    {
        if self.plan.begin_call() {
            return Err(self.plan.fail());
        }
        show_sectors(&self.past, &self.strikes, at, into);
        Ok(())
    }

    fn write(&mut self, at: u64, bytes: &[u8]) -> Result<(), Failed>
        requires { AreSectors at (length bytes.now) }
        ensures ok { OnOk result (Some (told_of self.new) ≡ after (Write at bytes.now) (Some (told_of self.old))) }
        ensures err { OnErr result ((Some (told_of self.new) ≡ Some (told_of self.old)) ⊎ (Some (told_of self.new) ≡ after (Write at bytes.now) (Some (told_of self.old)))) }
        ensures cause { HasCause self.old.plan.faults self.new.plan.faults result }

        ensures does { WritesEvent (Write at bytes.now) self.old self.new result }
        ensures honest { IsHonest (told_of self.old) → IsHonest (told_of self.new) }
    {
        let listed = self.plan.begin_call();
        if self.keep_write(at, bytes).is_err() {
            return Err(self.refuse());
        }
        if listed {
            return Err(self.plan.fail());
        }
        Ok(())
    }

    fn sync(&mut self) -> Result<(), Failed>
        ensures ok { OnOk result (Some (told_of self.new) ≡ after Sync (Some (told_of self.old))) }
        ensures err { OnErr result (Some (told_of self.new) ≡ Some (told_of self.old)) }
        ensures cause { HasCause self.old.plan.faults self.new.plan.faults result }

        ensures does { SyncsEvents self.old self.new result }
        ensures honest { IsHonest (told_of self.old) → IsHonest (told_of self.new) }
        ensures listed_asks_for_nothing { is_listed self.old.plan ≡ true → self.new.refused ≡ self.old.refused }
    {
        if self.plan.begin_call() {
            return Err(self.plan.fail());
        }
        if self.keep(Happened::Synced).is_err() {
            return Err(self.refuse());
        }
        Ok(())
    }
}
