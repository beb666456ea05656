// What a disk shows: what its log left, but for sectors that were struck.
ghost use Rattle.std.specs.Prelude.{◌≡◌, ◌≤◌, ◌+◌, ◌*◌, ◌/◌, length, reverse, option_copied};
ghost use Rattle.df_base.specs.{declared.TheConstants.{SECTOR}, Image.{bytes_at}};
ghost use Rattle.df_disk.specs.Told.{AreSectors};
ghost use Rattle.df_memdisk.specs.{History.{events_of}, Struck.{AreBehind, events_since, shown_after, strike_of}};

use crate::history::{Happened, left_in_sector};
use df_base::SECTOR;

/// A strike that was made: how many events the log had then, and the bytes that the sector showed.
#[derive(Drop)]
pub struct Struck {
    pub events: usize,
    pub sector: u64,
    pub bytes: [u8; SECTOR],
}

// The newest strike of a sector.
fn newest_strike(strikes: &[Struck], sector: u64) -> Option<&Struck>
    ensures { option_copied result ≡ strike_of (reverse strikes.now) sector }
{
    strikes.iter().rev().find(|s| sector == s.sector)
}

// The events since a strike.
fn since<'a>(past: &'a [Happened], struck: &Struck) -> &'a [Happened]
    requires { struck.now.events ≤ length past.now }
    ensures { events_of result.now ≡ events_since struck.now.events (events_of past.now) }
{
    &past[struck.events..]
}

/// Puts what a sector shows into a buffer of one sector.
pub fn show_sector(past: &[Happened], strikes: &[Struck], sector: u64, into: &mut [u8])
    requires buffer { length into.old ≡ SECTOR }
    requires behind { AreBehind (reverse strikes.now) (length past.now) }
    ensures bytes { into.new ≡ shown_after (reverse strikes.now) (events_of past.now) sector }
    ensures size { length into.new ≡ SECTOR }
{
    match newest_strike(strikes, sector) {
        Some(struck) => left_in_sector(since(past, struck), &struck.bytes, sector, into),
        None => left_in_sector(past, &[0u8; SECTOR], sector, into),
    }
}

/// Puts what the sectors from `at` on show into a buffer of whole sectors.
pub fn show_sectors(past: &[Happened], strikes: &[Struck], at: u64, into: &mut [u8])
    requires buffer { AreSectors at (length into.old) }
    requires behind { AreBehind (reverse strikes.now) (length past.now) }
    ensures { into.new ≡ bytes_at (shown_after (reverse strikes.now) (events_of past.now)) at (length into.new / SECTOR) }
{
    for index in 0..into.len() / SECTOR {
        let from = SECTOR * index;
        show_sector(
            past,
            strikes,
            at + index as u64,
            &mut into[from..from + SECTOR],
        );
    }
}
