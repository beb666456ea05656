// Writes and reads of one reply slot. A reply is durable before its writer answers, and no other place is written.
ghost use Rattle.std.specs.Prelude.{◌≡◌, ◌<◌, OnOk};
ghost use Rattle.df_replies.specs.{Below.{HasCause, Shows, Adds, FillsRoom, AreSteps, format_of}, Slots.{IsInReplySlot, reply_place, reply_write_steps, slot_first, write_events}};

use df_base::Failed;
use df_buffers::{Raw, Reply, Sound};
use df_disk::Disk;
use df_layout::{Layout, Place, Zone};
use df_places::{read_place, write_unit};

/// The slot of a session's place.
pub(crate) fn reply_place(place: u32) -> Place
    ensures { result ≡ reply_place place }
{
    Place {
        zone: Zone::ClientReplies,
        index: u64::from(place),
    }
}

/// Writes the sectors of a reply into the slot that its header names, and makes them durable. After an error they may hold
/// anything once the machine stops. The reply's room is one of the layout.
pub fn write_reply<D: Disk>(
    disk: &mut D,
    layout: &Layout,
    unit: &Sound<Reply>,
) -> Result<(), Failed>
    requires layout { unit.now.layout ≡ layout.now }
    ensures events { Adds (write_events layout.now unit.now) (D.told disk.old) (D.told disk.new) result }
    ensures steps { AreSteps (format_of layout.now unit.now.unit.header.cluster) (write_events layout.now unit.now) (reply_write_steps unit.now.unit) }
    ensures own { IsInReplySlot layout.now unit.now.unit }
    ensures cause { HasCause (D.faults disk.old) (D.faults disk.new) result }
{
    let slot = unit.header().slot;
    write_unit(disk, layout, reply_place(slot), unit)
}

/// Reads a whole slot into a room of the layout. After an error the room holds any bytes.
pub fn read_reply_slot<D: Disk>(
    disk: &mut D,
    layout: &Layout,
    place: u32,
    room: &mut Raw<Reply>,
) -> Result<(), Failed>
    requires place { place < layout.now.clients }
    requires room { room.old.layout ≡ layout.now }
    ensures bytes { OnOk result (Shows (D.told disk.old) (slot_first layout.now place) room.new.bytes) }
    ensures room { room.new.layout ≡ layout.now }
    ensures fills { FillsRoom layout.now Zone.ClientReplies room.new.bytes }
    ensures same { D.told disk.new ≡ D.told disk.old }
    ensures cause { HasCause (D.faults disk.old) (D.faults disk.new) result }
{
    read_place(disk, layout, reply_place(place), room)
}
