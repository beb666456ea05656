// Raw rooms: buffers of the length of a kind's place, with any bytes.
ghost use Rattle.std.specs.{Prelude.{◌≡◌, ◌++◌, length, take, drop, replicate, IfOk}, Borrow.{sem, Lends, Array, u8 as byte}};
ghost use Rattle.df_buffers.specs.{Rooms.{FillsRoom, room_size}, contracts.raw.Raw.{the_row}};

use crate::RoomKind;
use df_base::{OutOfMemory, SECTOR};
use df_layout::{Layout, Zone};
use std::alloc::Global;
use std::marker::{Model, PhantomData};

/// A buffer of the length of a kind's place in a layout, with any bytes in it. Contracts see the layout and the bytes.
#[derive(Drop)]
pub struct Raw<K: RoomKind> {
    pub(crate) layout: Layout,
    pub(crate) bytes: Vec<u8>,
    pub(crate) kind: PhantomData<K>,
}

impl<K: RoomKind> Model for Raw<K> {
    ghost use Rattle.df_buffers.specs.Rooms.{Room, FillsRoom};

    ghost Value = { Room };

    ghost view = { λ s. record { layout = s.layout; bytes = s.bytes.items } };

    ghost invariant = { λ s. FillsRoom s.layout K.ZONE s.bytes.items };
}

// How many bytes a room of a zone has: those of the sectors of a place.
#[tactic(auto, unfolding(df_layout::specs::Spans::place_sectors))]
fn room_size(layout: &Layout, zone: Zone) -> usize
    ensures { result ≡ room_size layout.now zone }
{
    match zone {
        Zone::Superblock | Zone::WalHeaders => SECTOR,
        Zone::WalPrepares | Zone::ClientReplies => layout.message_size as usize,
        Zone::Grid => layout.block_size as usize,
    }
}

impl<K: RoomKind> Raw<K> {
    /// A room of zeros for a layout, or the refusal of its memory.
    pub fn reserve(alloc: Global, layout: &Layout) -> Result<Raw<K>, OutOfMemory>
        ensures { IfOk result (λ room. room ≡ record { layout = layout.now; bytes = replicate (room_size layout.now K.ZONE) 0 }) }
    {
        let size = room_size(layout, K::ZONE);
        Ok(Raw {
            layout: *layout,
            bytes: vec![in alloc; 0u8; size]?,
            kind: PhantomData,
        })
    }

    /// The bytes of the room, which keeps its length.
    pub fn bytes_mut(&mut self) -> &mut [u8]
        ensures* writes_back { sem 𝓛 (Lends (the_row K.row K.RoomKind) (Array byte 0) self.entry result (λ w. record { layout = self.entry.now.layout; bytes = take (length self.entry.now.bytes) (w ++ drop (length w) self.entry.now.bytes) })) }
        ensures value { result.now ≡ self.old.bytes }
        ensures size { FillsRoom self.old.layout K.ZONE result.now }
    {
        self.bytes.as_mut_slice()
    }
}
