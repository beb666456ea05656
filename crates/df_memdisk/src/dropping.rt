// A disk that loses writes: it answers Ok to some without doing them, as a device does whose writes are misdirected or lost.
ghost use Rattle.std.specs.Prelude.{◌≡◌, ◌⊎◌, length, is_err, Some, OnOk, OnErr};
ghost use Rattle.df_base.specs.{Causes.{HasCause, counted}, Log.{Write, Sync}, Plan.{is_listed, after_call}};
ghost use Rattle.df_disk.specs.Told.{AreSectors, IsHonest, Shows, after};
ghost use Rattle.df_memdisk.specs.{State.{SyncsEvents, told_of}, Dropping.{WritesUnlessDropped, is_dropped, tells_nothing}};

use crate::MemoryDisk;
use df_base::Failed;
use df_disk::Disk;
use std::marker::Model;

/// A disk in memory that answers Ok to some writes without doing them. It hands every other call on to its memory disk,
/// so a write that is lost is no device call of that disk. The count of writes stops at `u64::MAX`.
#[derive(Drop)]
pub struct DroppingDisk {
    disk: MemoryDisk,
    dropped: Vec<u64>,
    writes: u64,
}

impl Model for DroppingDisk {
    ghost use Rattle.df_memdisk.specs.Dropping.{DroppingState};

    ghost Value = { DroppingState };

    ghost view = { λ d. record { disk = d.disk; dropped = d.dropped.items; writes = d.writes } };
}

impl DroppingDisk {
    /// A disk that loses the writes of these numbers, counted among the writes from 1.
    pub fn new(disk: MemoryDisk, dropped: Vec<u64>) -> DroppingDisk
        ensures { result ≡ record { disk = disk; dropped = dropped.items; writes = 0 } }
    {
        DroppingDisk {
            disk,
            dropped,
            writes: 0,
        }
    }

    /// The memory disk, as the calls that were handed on left it.
    pub fn into_disk(self) -> MemoryDisk
        ensures { result ≡ self.disk }
    {
        let DroppingDisk {
            disk,
            dropped: _,
            writes: _,
        } = self;
        disk
    }

    // Counts a write, and says whether it is one that is lost.
    fn begin_write(&mut self) -> bool
        ensures dropped { result ≡ is_dropped self.old }
        ensures counted { self.new ≡ record self.old { writes = counted self.old.writes } }
    {
        self.writes = self.writes.saturating_add(1);
        self.dropped.as_slice().contains(&self.writes)
    }
}

impl Disk for DroppingDisk {
    ghost told = { tells_nothing };

    ghost faults = { λ d. d.disk.plan.faults };

    fn read(&mut self, at: u64, into: &mut [u8]) -> Result<(), Failed>
        requires { AreSectors at (length into.old) }
        ensures bytes { OnOk result (Shows (tells_nothing self.old) at into.new) }
        ensures same { tells_nothing self.new ≡ tells_nothing self.old }
        ensures cause { HasCause self.old.disk.plan.faults self.new.disk.plan.faults result }

        ensures shown { OnOk result (Shows (Some (told_of self.old.disk)) at into.new) }
        ensures fails_exactly { is_err result ≡ is_listed self.old.disk.plan }
        ensures state { self.new ≡ record self.old { disk = record self.old.disk { plan = after_call self.old.disk.plan result } } }
        ensures honest { IsHonest (told_of self.old.disk) → IsHonest (told_of self.new.disk) }
    {
        self.disk.read(at, into)
    }

    fn write(&mut self, at: u64, bytes: &[u8]) -> Result<(), Failed>
        requires { AreSectors at (length bytes.now) }
        ensures ok { OnOk result (tells_nothing self.new ≡ after (Write at bytes.now) (tells_nothing self.old)) }
        ensures err { OnErr result ((tells_nothing self.new ≡ tells_nothing self.old) ⊎ (tells_nothing self.new ≡ after (Write at bytes.now) (tells_nothing self.old))) }
        ensures cause { HasCause self.old.disk.plan.faults self.new.disk.plan.faults result }

        ensures count { self.new.writes ≡ counted self.old.writes }
        ensures list { self.new.dropped ≡ self.old.dropped }
        ensures does { WritesUnlessDropped (Write at bytes.now) self.old self.new result }
        ensures honest { IsHonest (told_of self.old.disk) → IsHonest (told_of self.new.disk) }
    {
        if self.begin_write() {
            return Ok(());
        }
        self.disk.write(at, bytes)
    }

    fn sync(&mut self) -> Result<(), Failed>
        ensures ok { OnOk result (tells_nothing self.new ≡ after Sync (tells_nothing self.old)) }
        ensures err { OnErr result (tells_nothing self.new ≡ tells_nothing self.old) }
        ensures cause { HasCause self.old.disk.plan.faults self.new.disk.plan.faults result }

        ensures count { self.new.writes ≡ self.old.writes }
        ensures list { self.new.dropped ≡ self.old.dropped }
        ensures does { SyncsEvents self.old.disk self.new.disk result }
        ensures honest { IsHonest (told_of self.old.disk) → IsHonest (told_of self.new.disk) }
    {
        self.disk.sync()
    }
}
