// A write is one call of the device and a sync, a read is one call; the unit has its whole place to itself.
ghost use Rattle.std.specs.Prelude.{◌≡◌, OnOk, Some, take};
ghost use Rattle.df_places.specs.Below.{HasCause, Adds, Shows, HasPlace, span_of, Brings, sectors_end, IsUnit, FillsRoom, AreSteps, AnyUnit, Place as ModelPlace, format_of, place_of, unit_of};
ghost use Rattle.df_places.specs.Units.{put_events, put_steps, unit_events, unit_steps};

use df_base::Failed;
use df_buffers::{Raw, RoomKind, Sound, UnitKind};
use df_disk::Disk;
use df_layout::{Layout, Place};

/// Writes the sectors of a unit into its own place, without a sync: until the next one they may hold anything once the machine
/// stops. The unit's room is one of the layout.
pub fn put_unit<D: Disk, K: UnitKind>(
    disk: &mut D,
    layout: &Layout,
    place: Place,
    unit: &Sound<K>,
) -> Result<(), Failed>
    requires layout { unit.now.layout ≡ layout.now }
    requires zone { place.zone ≡ K.ZONE }
    requires own { IsUnit layout.now unit.now.unit.header.cluster place unit.now.unit }
    ensures events { Adds (put_events layout.now place unit.now) (D.told disk.old) (D.told disk.new) result }
    ensures steps { (at : ModelPlace) (x : AnyUnit) → place_of at ≡ place → unit_of at unit.now.unit ≡ Some x
        → AreSteps (format_of layout.now unit.now.unit.header.cluster) (put_events layout.now place unit.now) (put_steps at x) }
    ensures brings { Brings layout.now unit.now.unit.header.cluster place unit.now.unit (take (sectors_end unit.now.unit.header.size) unit.now.bytes) }
    ensures cause { HasCause (D.faults disk.old) (D.faults disk.new) result }
{
    disk.write(layout.sectors_of(place).first, unit.sectors())
}

/// Writes the sectors of a unit into its own place, and makes them durable. After an error they may hold anything once the
/// machine stops. The unit's room is one of the layout.
pub fn write_unit<D: Disk, K: UnitKind>(
    disk: &mut D,
    layout: &Layout,
    place: Place,
    unit: &Sound<K>,
) -> Result<(), Failed>
    requires layout { unit.now.layout ≡ layout.now }
    requires zone { place.zone ≡ K.ZONE }
    requires own { IsUnit layout.now unit.now.unit.header.cluster place unit.now.unit }
    ensures events { Adds (unit_events layout.now place unit.now) (D.told disk.old) (D.told disk.new) result }
    ensures steps { (at : ModelPlace) (x : AnyUnit) → place_of at ≡ place → unit_of at unit.now.unit ≡ Some x
        → AreSteps (format_of layout.now unit.now.unit.header.cluster) (unit_events layout.now place unit.now) (unit_steps at x) }
    ensures brings { Brings layout.now unit.now.unit.header.cluster place unit.now.unit (take (sectors_end unit.now.unit.header.size) unit.now.bytes) }
    ensures cause { HasCause (D.faults disk.old) (D.faults disk.new) result }
{
    put_unit(disk, layout, place, unit)?;
    disk.sync()
}

/// Reads a whole place into a room of the layout; of a header slot that is the sector of its sixteen. After an error the room
/// holds any bytes.
pub fn read_place<D: Disk, K: RoomKind>(
    disk: &mut D,
    layout: &Layout,
    place: Place,
    room: &mut Raw<K>,
) -> Result<(), Failed>
    requires place { HasPlace layout.now place }
    requires zone { place.zone ≡ K.ZONE }
    requires room { room.old.layout ≡ layout.now }
    ensures bytes { OnOk result (Shows (D.told disk.old) (span_of layout.now place).first room.new.bytes) }
    ensures room { room.new.layout ≡ layout.now }
    ensures fills { FillsRoom layout.now K.ZONE room.new.bytes }
    ensures same { D.told disk.new ≡ D.told disk.old }
    ensures cause { HasCause (D.faults disk.old) (D.faults disk.new) result }
{
    disk.read(layout.sectors_of(place).first, room.bytes_mut())
}
