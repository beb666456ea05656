// What a test that goes on with a disk asks of it: calls that are counted anew, and how many of its events are durable.
ghost use Rattle.std.specs.Prelude.{◌≡◌, length};
ghost use Rattle.df_base.specs.{Log.{loose_of}, Plan.{new_plan}};
ghost use Rattle.df_memdisk.specs.{History.{events_of}, Settled.{durable}};

use crate::MemoryDisk;
use crate::history::{Happened, is_loose};
use df_base::FaultPlan;

// How many events there are up to the last sync or stop, that one included.
fn durable_events(past: &[Happened]) -> usize
    ensures { result ≡ length (durable (events_of past.now)) }
{
    for index in (0..past.len()).rev() {
        if !matches!(past[index], Happened::Wrote(_)) {
            return index + 1;
        }
    }
    0
}

impl MemoryDisk {
    /// Counts the device calls anew, from 1: those of these numbers fail, and no others.
    pub fn fail_at(&mut self, failing: Vec<u64>)
        ensures { self.new ≡ record self.old { plan = new_plan failing.items } }
    {
        self.plan = FaultPlan::new(failing);
    }

    /// How many events its log had with the last sync or stop, which made durable what was written before.
    pub fn durable(&self) -> u64
        ensures { result ≡ length (durable self.now.events) }
    {
        durable_events(&self.past) as u64
    }

    /// Whether a sector was written since the last sync or stop.
    pub fn is_loose(&self, sector: u64) -> bool
        ensures { result ≡ loose_of self.now.events sector }
    {
        is_loose(&self.past, sector)
    }
}
