// The append of a prepare with its header: the prepare is put and its header noted in the table, and then both are settled. The
// prepare is durable before its header sector is written, so that a header never stands before its prepare.
ghost use Rattle.std.specs.Prelude.{◌≡◌, Some, take, OnErr, OnOk};
ghost use Rattle.df_journal.specs.Below.{HasCause, EachMoment, Told, Adds, Brings, sectors_end, IsInOwnSlot, prepare_put_events, put_steps, slot_place, AreSteps, format_of, IsHeaderTable};
ghost use Rattle.df_journal.specs.Append.{AppendLeaves, EndsAppended, MayAppendOn, journal_events, journal_steps, with_header};

use crate::settling::settle;
use df_base::Failed;
use df_buffers::{HeaderSector, Prepare, Raw, Sound};
use df_disk::Disk;
use df_headers::HeaderTable;
use df_layout::{Layout, SECTOR_HEADERS};
use df_prepares::put_prepare;

/// Writes a prepare into its slot and puts its header into the table, without a sync: until the prepare is settled, its slot may
/// hold anything once the machine stops. After an error the table is as before.
pub fn put<D: Disk>(
    disk: &mut D,
    layout: &Layout,
    unit: &Sound<Prepare>,
    table: &mut HeaderTable,
) -> Result<(), Failed>
    requires layout { unit.now.layout ≡ layout.now }
    requires table { IsHeaderTable layout.now unit.now.unit.header.cluster table.old }
    ensures events { Adds (prepare_put_events layout.now unit.now) (D.told disk.old) (D.told disk.new) result }
    ensures steps { AreSteps (format_of layout.now unit.now.unit.header.cluster) (prepare_put_events layout.now unit.now) (put_steps unit.now.unit) }
    ensures table { OnOk result (table.new ≡ with_header unit.now.unit table.old) }
    ensures kept { OnErr result (table.new ≡ table.old) }
    ensures valid { IsHeaderTable layout.now unit.now.unit.header.cluster table.new }
    ensures own { IsInOwnSlot layout.now unit.now.unit }
    ensures brings { Brings layout.now unit.now.unit.header.cluster (slot_place unit.now.unit.header.slot) unit.now.unit (take (sectors_end unit.now.unit.header.size) unit.now.bytes) }
    ensures cause { HasCause (D.faults disk.old) (D.faults disk.new) result }
{
    put_prepare(disk, layout, unit)?;
    let header = *unit.header();
    table.set(header.slot, header);
    Ok(())
}

/// Puts a prepare into its slot and its header into the table, and makes both durable: the prepare, a sync, the header
/// sector, a sync. The table and the rooms are ones of the layout. After an error the slot and the sector may hold anything
/// once the machine stops, and the table may have the new header or not.
pub fn append<D: Disk>(
    disk: &mut D,
    layout: &Layout,
    unit: &Sound<Prepare>,
    table: &mut HeaderTable,
    room: &mut Raw<HeaderSector>,
) -> Result<(), Failed>
    requires layout { unit.now.layout ≡ layout.now }
    requires table { IsHeaderTable layout.now unit.now.unit.header.cluster table.old }
    requires room { room.old.layout ≡ layout.now }
    ensures events { Adds (journal_events layout.now unit.now table.old) (D.told disk.old) (D.told disk.new) result }
    ensures steps { AreSteps (format_of layout.now unit.now.unit.header.cluster) (journal_events layout.now unit.now table.old) (journal_steps unit.now.unit table.old) }
    ensures moments { (before after : Told) → D.told disk.old ≡ Some before → D.told disk.new ≡ Some after
        → (may : MayAppendOn layout.now unit.now.unit table.old before) → EachMoment before.log after.log (AppendLeaves layout.now unit.now.unit table.old before may) }
    ensures appended { (before after : Told) → D.told disk.old ≡ Some before → D.told disk.new ≡ Some after
        → (may : MayAppendOn layout.now unit.now.unit table.old before) → OnOk result (EndsAppended layout.now unit.now.unit table.old before may after table.new) }
    ensures table { OnOk result (table.new ≡ with_header unit.now.unit table.old) }
    ensures valid { IsHeaderTable layout.now unit.now.unit.header.cluster table.new }
    ensures room { room.new.layout ≡ layout.now }
    ensures own { IsInOwnSlot layout.now unit.now.unit }
    ensures cause { HasCause (D.faults disk.old) (D.faults disk.new) result }
{
    put(disk, layout, unit, table)?;
    let sectors = [unit.header().slot / SECTOR_HEADERS];
    settle(disk, table, room, &sectors)
}
