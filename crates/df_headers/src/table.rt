// The table of headers, slot by slot, reserved ones for the empty slots; and the write of one of its sectors.
ghost use Rattle.std.specs.Prelude.{◌≡◌, ◌<◌, ◌≤◌, ◌+◌, ◌*◌, ℕ, Some, length, slice_get, slice_set};
ghost use Rattle.df_headers.specs.Below.{HasCause, Adds, AreSixteen, AreSteps, format_of, AreHeaders, reserved_header};
ghost use Rattle.df_headers.specs.Ring.{AreReserved, ReservedIsTable, TableIsKept, TableIsWritten, in_sector, sector_events, sector_steps};

use crate::sectors::{first_of, put_all};
use df_base::{Failed, HEADER, check};
use df_buffers::{HeaderSector, Raw};
use df_disk::Disk;
use df_format::{HEADER_VERSION, Header, Kind, seal_header};
use std::marker::Model;

/// One header for each slot of the ring: what the slot is to show. Contracts see the list of them.
#[derive(Drop)]
pub struct HeaderTable {
    slots: Vec<Header>,
}

impl Model for HeaderTable {
    ghost use Rattle.std.specs.Prelude.{List};
    ghost use Rattle.df_format.specs.declared.header.Header.{Header};

    ghost Value = { List Header };

    ghost view = { λ t. t.slots.items };
}

/// The header of an empty slot, sealed, for the header ring of a file of this cluster.
pub fn reserved_header(cluster: u128, slot: u32) -> Header
    requires { 0 < cluster }
    ensures { result ≡ reserved_header cluster slot }
{
    seal_header(Header {
        checksum_body: check(&[]),
        size: HEADER as u32,
        slot,
        version: HEADER_VERSION,
        ..Header::of(Kind::Reserved, cluster)
    })
}

// Puts a reserved header into each slot.
fn put_reserved(slots: &mut [Header], cluster: u128)
    requires cluster { 0 < cluster }
    requires few { length slots.old ≤ 1024 }
    ensures count { length slots.new ≡ length slots.old }
    ensures each { AreReserved cluster slots.new }
{
    let mut slot = 0;
    while slot < slots.len() {
        slots[slot] = reserved_header(cluster, slot as u32);
        slot += 1;
    }
}

impl HeaderTable {
    /// The table of these headers, as many as the layout has slots.
    pub fn over(room: Vec<Header>) -> HeaderTable
        ensures { result ≡ room.items }
    {
        HeaderTable { slots: room }
    }

    /// The headers, and with them the memory.
    pub fn into_room(self) -> Vec<Header>
        ensures { result.items ≡ self }
    {
        self.slots
    }

    /// The header of a slot.
    pub fn get(&self, slot: u32) -> Header
        requires { slot < length self.now }
        ensures { slice_get self.now slot ≡ Some result }
    {
        self.slots[slot as usize]
    }

    /// Replaces the header of a slot. Nothing is written.
    pub fn set(&mut self, slot: u32, header: Header)
        requires { slot < length self.old }
        ensures { self.new ≡ slice_set self.old slot header }
    {
        self.slots[slot as usize] = header;
    }

    /// Puts a reserved header, that of an empty slot, into each slot. Nothing is written.
    pub fn clear(&mut self, cluster: u128)
        requires cluster { 0 < cluster }
        requires few { length self.old ≤ 1024 }
        ensures count { length self.new ≡ length self.old }
        ensures each { AreReserved cluster self.new }
    {
        put_reserved(&mut self.slots, cluster);
    }

    /// Writes the sixteen headers of a sector, which is counted from the ring's first one. It doesn't sync: until the next
    /// sync a stop may leave anything in the sector. Where each header is valid in its slot, it is put there.
    pub fn write_sector<D: Disk>(
        &self,
        disk: &mut D,
        room: &mut Raw<HeaderSector>,
        sector: u32,
    ) -> Result<(), Failed>
        requires sector { 16 * sector + 16 ≤ length self.now }
        requires few { sector < 64 }
        requires sealed { AreSixteen (in_sector sector self.now) }
        ensures events { Adds (sector_events room.old.layout sector self.now) (D.told disk.old) (D.told disk.new) result }
        ensures steps { (cluster : ℕ) → AreHeaders room.old.layout cluster sector (in_sector sector self.now)
            → AreSteps (format_of room.old.layout cluster) (sector_events room.old.layout sector self.now) (sector_steps sector self.now) }
        ensures room { room.new.layout ≡ room.old.layout }
        ensures cause { HasCause (D.faults disk.old) (D.faults disk.new) result }
    {
        let bytes = room.bytes_mut();
        let at = 16 * sector as usize;
        put_all(&self.slots[at..at + 16], bytes);
        disk.write(first_of(sector), bytes)
    }
}

/// A table whose headers are each valid in their slots may be written, sector by sector, and stays one where such a
/// header is put into its slot; a table of reserved headers is one.
pub fn tables_are_written()
    ensures sectors { TableIsWritten }
    ensures kept { TableIsKept }
    ensures reserved { ReservedIsTable }
{}
