// Units as they are made in a room.
ghost use Rattle.std.specs.Prelude.{◌≡◌, ◌≤◌, ◌+◌, length, take, drop, IsSome};
ghost use Rattle.df_base.specs.declared.TheConstants.{HEADER};
ghost use Rattle.df_buffers.specs.Below.{sealed, ObeysRules, sectors_of, sectors_end, own_place, greatest_size, for_body, MadeIsUnit};

use crate::{Raw, Sound, UnitKind};
use df_format::{Header, make_unit};

impl<K: UnitKind> Raw<K> {
    /// Makes a unit of a header and a body: it sets the header's size and checksums from the body, writes header, body
    /// and zeros up to the last whole sector, and leaves the rest of the room.
    pub fn make(self, header: Header, body: &[u8]) -> Sound<K>
        requires rules { ObeysRules (for_body header body.now) }
        requires kind { header.kind ≡ K.KIND }
        requires own { IsSome (own_place self.layout K.ZONE header) }
        requires fits { HEADER + length body.now ≤ greatest_size self.layout K.ZONE }
        ensures unit { result.unit ≡ record { header = sealed (for_body header body.now); body = body.now } }
        ensures valid { MadeIsUnit result.unit }
        ensures sectors { take (sectors_end (HEADER + length body.now)) result.bytes ≡ sectors_of result.unit }
        ensures rest { drop (sectors_end (HEADER + length body.now)) result.bytes ≡ drop (sectors_end (HEADER + length body.now)) self.bytes }
        ensures layout { result.layout ≡ self.layout }
    {
        let Raw {
            layout,
            mut bytes,
            kind,
        } = self;
        let made = make_unit(header, body, &mut bytes);
        Sound {
            layout,
            header: made.header,
            bytes,
            kind,
        }
    }
}
