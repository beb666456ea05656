// A stop: the power is cut, and sectors that were loose may hold any bytes afterwards.
ghost use Rattle.std.specs.Prelude.{◌≡◌, ◌∷◌, None, Some, OnOk, IfOk, IfErr, IfNone};
ghost use Rattle.df_base.specs.Log.{Stop, AreLoose};
ghost use Rattle.df_disk.specs.Told.{IsHonest, did};
ghost use Rattle.df_memdisk.specs.{History.{changes_of, events_of}, Refusals.{IsFirstFirm}, State.{first_firm, told_of}};

use crate::history::{Happened, is_loose};
use crate::{Change, MemoryDisk, StopError};

// The first named sector that isn't loose.
fn firm_sector(past: &[Happened], choice: &[Change]) -> Option<u64>
    ensures first { result ≡ first_firm (events_of past.now) (changes_of choice.now) }
    ensures loose { IfNone result (AreLoose (events_of past.now) (changes_of choice.now)) }
{
    for change in choice {
        change.is_whole();
        if !is_loose(past, change.sector) {
            return Some(change.sector);
        }
    }
    None
}

impl MemoryDisk {
    /// Stops the disk: each named sector holds the given bytes, the later ones where it is named
    /// twice, and the stop joins the log. `NotLoose` names the first sector of the list that wasn't
    /// written since the last sync or stop. After an error the disk comes back unchanged.
    pub fn stop(self, choice: Vec<Change>) -> Result<MemoryDisk, (MemoryDisk, StopError)>
        ensures stopped { IfOk result (λ disk. disk ≡ record self { events = Stop (changes_of choice.items) ∷ self.events }) }
        ensures told { IfOk result (λ disk. told_of disk ≡ did (Stop (changes_of choice.items)) (told_of self)) }
        ensures honest { IfOk result (λ disk. IsHonest (told_of self) → IsHonest (told_of disk)) }
        ensures loose { OnOk result (first_firm self.events (changes_of choice.items) ≡ None) }
        ensures unchanged { IfErr result (λ refused. refused.0 ≡ self) }
        ensures not_loose { IfErr result (λ refused. IsFirstFirm refused.1 (first_firm self.events (changes_of choice.items))) }
    {
        let mut disk = self;
        if let Some(sector) = firm_sector(&disk.past, &choice) {
            return Err((disk, StopError::NotLoose { sector }));
        }
        match disk.keep(Happened::Stopped(choice)) {
            Ok(()) => Ok(disk),
            Err(_) => Err((disk, StopError::OutOfMemory)),
        }
    }
}
