// The write of one slot of the ring: put alone, it is durable with the next sync; written, it is durable before its writer
// answers.
ghost use Rattle.std.specs.Prelude.{◌≡◌, take};
ghost use Rattle.df_prepares.specs.Below.{HasCause, Adds, Brings, sectors_end, AreSteps, format_of};
ghost use Rattle.df_prepares.specs.Slots.{slot_place, IsInOwnSlot, prepare_put_events, put_steps, write_events, prepare_write_steps};

use df_base::Failed;
use df_buffers::{Prepare, Sound};
use df_disk::Disk;
use df_layout::{Layout, Place, Zone};
use df_places::put_unit;

// The place of a slot.
fn slot_place(slot: u32) -> Place
    ensures { result ≡ slot_place slot }
{
    Place {
        zone: Zone::WalPrepares,
        index: u64::from(slot),
    }
}

/// A prepare in a room of the layout is valid in the slot that its header names, and its sectors bring it there.
pub fn stands_in_slot(layout: &Layout, unit: &Sound<Prepare>)
    requires layout { unit.now.layout ≡ layout.now }
    ensures own { IsInOwnSlot layout.now unit.now.unit }
    ensures brings { Brings layout.now unit.now.unit.header.cluster (slot_place unit.now.unit.header.slot) unit.now.unit (take (sectors_end unit.now.unit.header.size) unit.now.bytes) }
{
    // What they say is known of a room that is looked at.
    let _header = unit.header();
    let _sectors = unit.sectors();
}

/// Writes the sectors of a prepare into its slot, without a sync: until the next one they may hold anything once the
/// machine stops. The prepare's room is one of the layout.
pub fn put_prepare<D: Disk>(
    disk: &mut D,
    layout: &Layout,
    unit: &Sound<Prepare>,
) -> Result<(), Failed>
    requires layout { unit.now.layout ≡ layout.now }
    ensures events { Adds (prepare_put_events layout.now unit.now) (D.told disk.old) (D.told disk.new) result }
    ensures steps { AreSteps (format_of layout.now unit.now.unit.header.cluster) (prepare_put_events layout.now unit.now) (put_steps unit.now.unit) }
    ensures own { IsInOwnSlot layout.now unit.now.unit }
    ensures brings { Brings layout.now unit.now.unit.header.cluster (slot_place unit.now.unit.header.slot) unit.now.unit (take (sectors_end unit.now.unit.header.size) unit.now.bytes) }
    ensures cause { HasCause (D.faults disk.old) (D.faults disk.new) result }
{
    let slot = unit.header().slot;
    put_unit(disk, layout, slot_place(slot), unit)
}

/// Writes the sectors of a prepare into its slot, and makes them durable. After an error they may hold anything once
/// the machine stops. The prepare's room is one of the layout.
pub fn write_prepare<D: Disk>(
    disk: &mut D,
    layout: &Layout,
    unit: &Sound<Prepare>,
) -> Result<(), Failed>
    requires layout { unit.now.layout ≡ layout.now }
    ensures events { Adds (write_events layout.now unit.now) (D.told disk.old) (D.told disk.new) result }
    ensures steps { AreSteps (format_of layout.now unit.now.unit.header.cluster) (write_events layout.now unit.now) (prepare_write_steps unit.now.unit) }
    ensures own { IsInOwnSlot layout.now unit.now.unit }
    ensures brings { Brings layout.now unit.now.unit.header.cluster (slot_place unit.now.unit.header.slot) unit.now.unit (take (sectors_end unit.now.unit.header.size) unit.now.bytes) }
    ensures cause { HasCause (D.faults disk.old) (D.faults disk.new) result }
{
    put_prepare(disk, layout, unit)?;
    disk.sync()
}
