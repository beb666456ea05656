// The rooms that the superblock is read into before the layout of its file is known.
ghost use Rattle.std.specs.Prelude.{◌≡◌, ◌<◌, Some, length, replicate, slice_get, All, IfOk};
ghost use Rattle.df_base.specs.declared.TheConstants.{SECTOR};
ghost use Rattle.df_buffers.specs.{Below.{Superblock}, Rooms.{room_size}};

use crate::{Raw, SuperSector};
use df_base::OutOfMemory;
use df_layout::Layout;
use std::alloc::Global;
use std::marker::Model;

/// A room for each of the four copies of the superblock; contracts see the list of them.
pub struct ProbeRoom {
    copies: Vec<Raw<SuperSector>>,
}

// Its owner lets go of it in one call, and not field by field.
impl Drop for ProbeRoom {
    fn drop(self) {
        let ProbeRoom { copies: _ } = self;
    }
}

impl Model for ProbeRoom {
    ghost use Rattle.std.specs.Prelude.{◌≡◌, List, length};
    ghost use Rattle.df_buffers.specs.Rooms.{Room};

    ghost Value = { List Room };

    ghost view = { λ s. s.copies.items };

    ghost invariant = { λ s. length s.copies.items ≡ 4 };
}

impl ProbeRoom {
    /// Four sectors of zeros, or the refusal of their memory. A sector has the same length in every layout.
    pub fn reserve(alloc: Global) -> Result<ProbeRoom, OutOfMemory>
        ensures { IfOk result (All (λ room. room.bytes ≡ replicate (room_size room.layout Superblock) 0)) }
    {
        let layout = Layout::small();
        let copies = [
            Raw::reserve(alloc, &layout)?,
            Raw::reserve(alloc, &layout)?,
            Raw::reserve(alloc, &layout)?,
            Raw::reserve(alloc, &layout)?,
        ];
        match Vec::from_array(alloc, copies) {
            Ok(copies) => Ok(ProbeRoom { copies }),
            Err(_) => Err(OutOfMemory),
        }
    }

    /// The room of the copy with this number, 0 to 3.
    pub fn sector(&self, number: u8) -> &Raw<SuperSector>
        requires { number < 4 }
        ensures value { slice_get self.now number ≡ Some result.now }
        ensures size { length result.now.bytes ≡ SECTOR }
    {
        let sector = &self.copies[usize::from(number)];
        let _ = &sector.bytes;
        sector
    }

    /// The room of the copy with this number, 0 to 3, to be read into or written in.
    pub fn sector_mut(&mut self, number: u8) -> &mut Raw<SuperSector>
        requires { number < 4 }
        ensures value { slice_get self.old number ≡ Some result.now }
        ensures size { length result.now.bytes ≡ SECTOR }
    {
        let sector = &mut self.copies[usize::from(number)];
        let _ = &sector.bytes;
        sector
    }

    /// The rooms of the four copies in order of number, to be read into one beside another.
    pub fn sectors_mut(&mut self) -> &mut [Raw<SuperSector>]
        ensures value { result.now ≡ self.old }
        ensures size { length result.now ≡ 4 }
    {
        self.copies.as_mut_slice()
    }
}
