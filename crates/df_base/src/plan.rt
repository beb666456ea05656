// Which calls of an object in memory are to fail. Sources, sinks and disks in memory count their
// calls and faults by it, all in one way.
ghost use Rattle.std.specs.Prelude.{◌≡◌, ◌≤◌};
ghost use Rattle.df_base.specs.{Causes.{counted}, Plan.{new_plan, is_listed}};

use crate::Failed;
use std::marker::Model;

/// The numbers of the calls that fail, counted from 1, with the count of calls and of faults so
/// far. Both counts stop at `u64::MAX`.
#[derive(Drop)]
pub struct FaultPlan {
    calls: u64,
    failing: Vec<u64>,
    faults: u64,
}

impl Model for FaultPlan {
    ghost use Rattle.df_base.specs.Plan.{Plan};

    ghost Value = { Plan };

    ghost view = { λ s. record { calls = s.calls; failing = s.failing.items; faults = s.faults } };
}

impl FaultPlan {
    /// A plan by which the calls of these numbers fail.
    pub fn new(failing: Vec<u64>) -> FaultPlan
        ensures { result ≡ new_plan failing.items }
    {
        FaultPlan {
            calls: 0,
            failing,
            faults: 0,
        }
    }

    /// Counts a call, and says whether it is one that fails.
    pub fn begin_call(&mut self) -> bool
        ensures listed { result ≡ is_listed self.old }
        ensures counted { self.new ≡ record self.old { calls = counted self.old.calls } }
    {
        self.calls = self.calls.saturating_add(1);
        self.failing.as_slice().contains(&self.calls)
    }

    /// How many calls were counted. The count stops at `u64::MAX`.
    pub fn calls(&self) -> u64
        ensures { result ≡ self.now.calls }
    {
        self.calls
    }

    /// Counts a fault.
    pub fn fail(&mut self) -> Failed
        ensures counted { self.new ≡ record self.old { faults = counted self.old.faults } }
        ensures later { self.old.faults ≤ self.new.faults }
    {
        self.faults = self.faults.saturating_add(1);
        Failed
    }
}
