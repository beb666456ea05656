// Sound rooms: their bytes are a unit that is valid at its own place. They lend its parts without copying.
ghost use Rattle.std.specs.Prelude.{◌≡◌, ◌≤◌, ◌-◌, ◌++◌, length, replicate, take, drop};
ghost use Rattle.df_base.specs.declared.TheConstants.{HEADER};
ghost use Rattle.df_buffers.specs.{Below.{AreBytes, sectors_end}, Sounds.{AreWholeSectors, BringsOwn, IsSound, IsTidy}};

use crate::{Raw, UnitKind};
use df_base::{HEADER, SECTOR};
use df_format::Header;
use df_layout::Layout;
use std::marker::{Model, PhantomData};

/// A room whose bytes begin with a unit of the kind that is valid at its own place in the room's layout. Contracts see
/// the layout, the unit and the bytes.
#[derive(Drop)]
pub struct Sound<K: UnitKind> {
    pub(crate) layout: Layout,
    pub(crate) header: Header,
    pub(crate) bytes: Vec<u8>,
    pub(crate) kind: PhantomData<K>,
}

impl<K: UnitKind> Model for Sound<K> {
    ghost use Rattle.df_buffers.specs.Sounds.{Holding, holding_of, IsSound};

    ghost Value = { Holding };

    ghost view = { λ s. holding_of s.layout s.header s.bytes.items };

    ghost invariant = { λ s. IsSound K.ZONE K.KIND (holding_of s.layout s.header s.bytes.items) };
}

// The whole sectors that this many bytes cover.
fn sectors_in(bytes: &[u8], size: u32) -> &[u8]
    requires { sectors_end size ≤ length bytes.now }
    ensures value { result.now ≡ take (sectors_end size) bytes.now }
    ensures each { AreBytes result.now }
{
    &bytes[..SECTOR * ((size as usize + SECTOR - 1) / SECTOR)]
}

// Zeros from this byte on.
fn blank_from(bytes: &mut [u8], from: usize)
    requires { from ≤ length bytes.old }
    ensures blank { bytes.new ≡ take from bytes.old ++ replicate (length bytes.old - from) 0 }
    ensures each { AreBytes bytes.old }
{
    bytes[from..].fill(0);
}

impl<K: UnitKind> Sound<K> {
    /// The unit's header.
    pub fn header(&self) -> &Header
        ensures header { result.now ≡ self.now.unit.header }
        ensures sound { IsSound K.ZONE K.KIND self.now }
    {
        &self.header
    }

    /// The unit's body.
    pub fn body(&self) -> &[u8]
        ensures { result.now ≡ self.now.unit.body }
    {
        &self.bytes[HEADER..self.header.size as usize]
    }

    /// The whole sectors that the unit covers.
    pub fn sectors(&self) -> &[u8]
        ensures value { result.now ≡ take (sectors_end self.now.unit.header.size) self.now.bytes }
        ensures whole { AreWholeSectors K.ZONE self.now.layout result.now }
        ensures brings { BringsOwn K.ZONE self.now result.now }
    {
        sectors_in(&self.bytes, self.header.size)
    }

    /// The same unit in the same room, with zeros after it: no checksum covers what stood there.
    pub fn blank_rest(self) -> Sound<K>
        ensures layout { result.layout ≡ self.layout }
        ensures unit { result.unit ≡ self.unit }
        ensures tidy { IsTidy result }
    {
        let Sound {
            layout,
            header,
            mut bytes,
            kind,
        } = self;
        blank_from(&mut bytes, header.size as usize);
        Sound {
            layout,
            header,
            bytes,
            kind,
        }
    }

    /// The room with its bytes as they are.
    pub fn loosen(self) -> Raw<K>
        ensures { result ≡ record { layout = self.layout; bytes = self.bytes } }
    {
        let Sound {
            layout,
            header: _,
            bytes,
            kind,
        } = self;
        Raw {
            layout,
            bytes,
            kind,
        }
    }
}
