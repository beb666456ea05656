// The scrubber over a grid: one block after the other, each tested by one read, and a whole tour.
ghost use Rattle.std.specs.Prelude.{◌≡◌, ◌≤◌, ◌<◌, ◌+◌, ◌++◌, [], vec_len, vec_capacity, IfOk, OnOk, OnErr};
ghost use Rattle.df_scrub.specs.{Below.{HasCause, newest, with_finding, first_tour}, Machine.{IsMachines}, Scrubber.{IsStep}, Tours.{ListsFailing, ListsSoFar}};

use crate::{Finding, Scrubbed, Scrubber, Verdict};
use df_base::Failed;
use df_disk::Disk;
use df_grid::Grid;

// Lists a block whose check fails.
fn list(report: &mut Vec<Finding>, address: u64, verdict: Verdict)
    requires { vec_len report.old < vec_capacity report.old }
    ensures list { report.new.items ≡ report.old.items ++ with_finding address verdict [] }
    ensures len { vec_len report.new ≤ vec_len report.old + 1 }
    ensures room { vec_capacity report.new ≡ vec_capacity report.old }
{
    if let Verdict::Failing(class) = verdict {
        report.push_reserved(Finding { address, class });
    }
}

impl Scrubber {
    /// Checks the least referenced address above the last one of this tour, by one read: `Sound` exactly where the unit that is
    /// shown is valid there with the checksum that is known; else the finding goes last into the ring. Where there is no such
    /// address the tour ends, with the counts of what it checked and found, and the next step begins a new one.
    pub fn step<D: Disk>(&mut self, disk: &mut D, grid: &mut Grid) -> Result<Scrubbed, Failed>
        ensures step { IfOk result (IsStep grid.old self.old self.new (D.told disk.old)) }
        ensures machine { IfOk result (IsMachines grid.old self.old self.new (D.told disk.old)) }
        ensures failed { OnErr result (self.new ≡ self.old) }
        ensures grid { grid.new ≡ grid.old }
        ensures same { D.told disk.new ≡ D.told disk.old }
        ensures cause { HasCause (D.faults disk.old) (D.faults disk.new) result }
    {
        let Some(reference) = grid.next_referenced(self.last()) else {
            return Ok(self.end());
        };
        let address = reference.address;
        let wrong = grid.test(disk, reference)?;
        Ok(self.note(address, wrong))
    }

    /// A new tour, from its start to its end. The report is the list of exactly the referenced blocks that fail, in order of
    /// address, each with the class of what is shown; it has room for each block of the grid, and takes no memory. After a fault
    /// it lists those up to the last one that was checked.
    pub fn scrub<D: Disk>(
        &mut self,
        disk: &mut D,
        grid: &mut Grid,
        report: &mut Vec<Finding>,
    ) -> Result<(), Failed>
        requires room { grid.old.layout.blocks ≤ vec_capacity report.old }
        ensures failing { OnOk result (ListsFailing grid.old (D.told disk.old) report.new.items) }
        ensures so_far { OnErr result (ListsSoFar grid.old (D.told disk.old) self.new report.new.items) }
        ensures tour { OnOk result (self.new.tour ≡ first_tour) }
        ensures findings { self.new.findings ≡ newest (self.old.findings ++ report.new.items) }
        ensures room { vec_capacity report.new ≡ vec_capacity report.old }
        ensures grid { grid.new ≡ grid.old }
        ensures same { D.told disk.new ≡ D.told disk.old }
        ensures cause { HasCause (D.faults disk.old) (D.faults disk.new) result }
    {
        self.begin();
        report.clear();
        loop {
            match self.step(disk, grid)? {
                Scrubbed::Checked { address, verdict } => list(report, address, verdict),
                Scrubbed::TourEnd { .. } => return Ok(()),
            }
        }
    }
}
