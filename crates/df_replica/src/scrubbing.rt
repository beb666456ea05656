// The calls of the scrubber: a step of its tour over the referenced blocks, a whole tour, and what it found last. They write nothing.
ghost use Rattle.std.specs.{Prelude.{◌≡◌, ◌≤◌, true, Option, Some, IfOk, length, slice_get}, Borrow.{sem}, Io.BufRead.{Rests}};
ghost use Rattle.df_replica.specs.{Below.{HasCause, Told, Recent, ToRecent, referenced_of, ListsFailing, grid_with, memory}, Answering.{Serves, ServesScrub, ServesTour}};
ghost use Rattle.df_replica.specs.{Scrubbing.{IsScrub, LeavesTour}, contracts.replica.Replica.{the_row}};

use crate::Replica;
use crate::replica::end_calls;
use df_base::Failed;
use df_disk::Disk;
use df_layout::Finding;
use df_model::Scrubbed;

impl Replica {
    /// Checks the least referenced address above the last one of this tour, by one read: `Sound` exactly where the unit that is shown
    /// is valid there with the checksum that is known; else the finding goes last into the ring of the newest 64. A block is referenced
    /// where its address is held, those aside that the running trailer has yet to write. Where there is no such address the tour ends,
    /// with the counts of what it checked and found, and the next step begins a new one. After a fault no call may follow.
    pub fn scrub_step<D: Disk>(&mut self, disk: &mut D) -> Result<Scrubbed, Failed>
        requires live { self.old.live ≡ true }
        ensures exact { IsScrub self.old self.new (D.told disk.old) result }
        ensures call { ServesScrub self.old self.new (D.told disk.old) result }
        ensures same { D.told disk.new ≡ D.told disk.old }
        ensures cause { HasCause (D.faults disk.old) (D.faults disk.new) result }
    {
        let parts = &mut self.parts;
        match parts.scrub.scrubber.step(disk, &mut parts.grid) {
            Ok(scrubbed) => Ok(scrubbed),
            Err(failed) => {
                self.stop();
                Err(failed)
            }
        }
    }

    /// Makes a new tour, from its start to its end, by one read for each referenced block. The list is exactly the referenced blocks that
    /// fail, in order of address, each with the class of what is shown; they also go last into the ring. After a fault no call may follow.
    pub fn scrub<D: Disk>(&mut self, disk: &mut D) -> Result<&[Finding], Failed>
        requires live { self.old.live ≡ true }
        ensures* after { sem 𝓛 (Rests the_row self.entry (λ s. LeavesTour (λ list. list.now) self.entry.now s result)) }
        ensures exact { IfOk result (λ list. ListsFailing (grid_with self.old.file self.old.boot self.old.blocks) (D.told disk.old) list.now) }
        ensures call { IfOk result (λ list. ServesTour self.old (D.told disk.old) list.now) }
        ensures same { D.told disk.new ≡ D.told disk.old }
        ensures cause { HasCause (D.faults disk.old) (D.faults disk.new) result }
    {
        let parts = &mut self.parts;
        let scrub = &mut parts.scrub;
        let done = scrub
            .scrubber
            .scrub(disk, &mut parts.grid, &mut scrub.report);
        match done {
            Ok(()) => Ok(self.parts.scrub.report.as_slice()),
            Err(failed) => {
                end_calls(&mut self.parts.live);
                Err(failed)
            }
        }
    }

    /// The finding at a place of the ring of at most 64, the oldest at place 0; None exactly past the last one. So the machine's call, which
    /// answers the whole ring, is a look at each place in turn.
    pub fn recent(&self, place: u64) -> Option<Finding>
        ensures value { result ≡ slice_get self.now.findings place }
        ensures few { length self.now.findings ≤ 64 }
        ensures call { self.now.live ≡ true → (told : Option Told) → Serves Recent self.now self.now told told (Some (ToRecent self.now.findings)) }
    {
        self.parts.scrub.scrubber.recent(place)
    }

    /// How many blocks are referenced: a whole tour checks this many.
    pub fn referenced(&self) -> u64
        ensures { result ≡ length (referenced_of (memory self.now)) }
    {
        self.parts.grid.referenced()
    }
}
