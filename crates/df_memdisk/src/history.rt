// The past of a disk, the oldest event first: what it left in a sector, and which sectors are loose.
ghost use Rattle.std.specs.Prelude.{◌≡◌, length, option_copied, IfSome};
ghost use Rattle.df_base.specs.{declared.TheConstants.{SECTOR}, Log.{loose_of, now_of}};
ghost use Rattle.df_memdisk.specs.{History.{changes_of, event_of, events_of}, Newest.{last_change, given_by, newest_of}};

use crate::change::Change;
use crate::written::Written;

/// One event in the past of a disk.
#[derive(Drop)]
pub enum Happened {
    Wrote(Written),
    Synced,
    Stopped(Vec<Change>),
}

// The bytes of the last change of a sector.
fn changed_bytes(changes: &[Change], sector: u64) -> Option<&[u8]>
    ensures bytes { option_copied result ≡ last_change (changes_of changes.now) sector }
    ensures size { IfSome result (λ b. length b.now ≡ SECTOR) }
{
    for index in (0..changes.len()).rev() {
        if changes[index].sector == sector {
            return Some(&changes[index].bytes);
        }
    }
    None
}

// The bytes that one event gave a sector.
fn bytes_of(happened: &Happened, sector: u64) -> Option<&[u8]>
    ensures bytes { option_copied result ≡ given_by (event_of happened.now) sector }
    ensures size { IfSome result (λ b. length b.now ≡ SECTOR) }
{
    match happened {
        Happened::Wrote(written) => written.bytes_for(sector),
        Happened::Synced => None,
        Happened::Stopped(changes) => changed_bytes(changes, sector),
    }
}

// The bytes that the newest event which changed a sector gave it.
fn newest_bytes(past: &[Happened], sector: u64) -> Option<&[u8]>
    ensures bytes { option_copied result ≡ newest_of (events_of past.now) sector }
    ensures size { IfSome result (λ b. length b.now ≡ SECTOR) }
{
    for index in (0..past.len()).rev() {
        if let Some(bytes) = bytes_of(&past[index], sector) {
            return Some(bytes);
        }
    }
    None
}

/// Puts what the past left in a sector that held the bytes `start` into a buffer of one sector.
pub fn left_in_sector(past: &[Happened], start: &[u8], sector: u64, into: &mut [u8])
    requires start { length start.now ≡ SECTOR }
    requires buffer { length into.old ≡ SECTOR }
    ensures bytes { into.new ≡ now_of (λ s. start.now) (events_of past.now) sector }
    ensures size { length into.new ≡ SECTOR }
{
    match newest_bytes(past, sector) {
        Some(bytes) => into.copy_from_slice(bytes),
        None => into.copy_from_slice(start),
    }
}

/// Whether a sector was written since the last sync or stop.
pub fn is_loose(past: &[Happened], sector: u64) -> bool
    ensures { result ≡ loose_of (events_of past.now) sector }
{
    for index in (0..past.len()).rev() {
        match &past[index] {
            Happened::Wrote(written) => {
                if written.covers(sector) {
                    return true;
                }
            }
            _ => return false,
        }
    }
    false
}
