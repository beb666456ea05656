// A strike: a sector shows other bytes than the log left there, as after damage, a lost write or a
// misdirected one.
ghost use Rattle.std.specs.Prelude.{◌≡◌, length, reverse, OnOk, OnErr};
ghost use Rattle.df_base.specs.Log.{now};
ghost use Rattle.df_memdisk.specs.{History.{events_of}, State.{log_of, told_of, told_by}, Strikes.{bytes_by, hit, StrikeShowsLog}, Struck.{AreBehind, first_events}};

use crate::MemoryDisk;
use crate::history::{Happened, left_in_sector};
use crate::shown::{Struck, show_sector};
use df_base::{OutOfMemory, SECTOR};

/// What a strike shows in its sector.
#[derive(Clone, Copy, Debug, PartialEq, Eq)]
pub enum Strike {
    /// This byte 4096 times, as damage would.
    Fill { byte: u8 },
    /// What the log's first `events` events left there, as after lost writes. Where the log has
    /// fewer events it is what all of them left.
    Earlier { events: u64 },
    /// What another sector shows now, as after a misdirected write.
    Like { sector: u64 },
}

// The first events of the log, this many.
fn first_of(past: &[Happened], events: u64) -> &[Happened]
    ensures { events_of result.now ≡ first_events events (events_of past.now) }
{
    if events < past.len() as u64 {
        &past[..events as usize]
    } else {
        past
    }
}

// The bytes that a strike shows in a sector.
fn bytes_of_strike(
    past: &[Happened],
    strikes: &[Struck],
    sector: u64,
    strike: Strike,
) -> [u8; SECTOR]
    requires { AreBehind (reverse strikes.now) (length past.now) }
    ensures { result ≡ bytes_by strike sector (told_by (events_of past.now) (reverse strikes.now)) }
{
    let mut bytes = [0u8; SECTOR];
    match strike {
        Strike::Fill { byte } => bytes.fill(byte),
        Strike::Earlier { events } => {
            left_in_sector(first_of(past, events), &[0u8; SECTOR], sector, &mut bytes);
        }
        Strike::Like { sector: other } => show_sector(past, strikes, other, &mut bytes),
    }
    bytes
}

impl MemoryDisk {
    /// Strikes a sector: it shows other bytes from now on, until it is written again. The log stays
    /// as it is. After `OutOfMemory` the disk is unchanged.
    pub fn strike(&mut self, sector: u64, strike: Strike) -> Result<(), OutOfMemory>
        ensures struck { OnOk result (told_of self.new ≡ hit sector strike (told_of self.old)) }
        ensures same { self.new ≡ record self.old { strikes = self.new.strikes } }
        ensures unchanged { OnErr result (self.new ≡ self.old) }
        ensures mended { OnOk result (StrikeShowsLog strike self.old.events → (told_of self.new).shown sector ≡ now (log_of self.new) sector) }
    {
        let bytes = bytes_of_strike(&self.past, &self.strikes, sector, strike);
        let struck = Struck {
            events: self.past.as_slice().len(),
            sector,
            bytes,
        };
        match self.strikes.push(struck) {
            Ok(()) => Ok(()),
            Err(_) => Err(OutOfMemory),
        }
    }
}
