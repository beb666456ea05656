// Rooms with a body in them: the header that is to stand before it is made later, so that the body is copied and hashed once, as it comes.
ghost use Rattle.std.specs.Prelude.{◌≡◌, ◌≤◌, ◌+◌, length, take, drop, IsSome};
ghost use Rattle.df_base.specs.declared.TheConstants.{HEADER};
ghost use Rattle.df_buffers.specs.Below.{sealed, ObeysRules, sectors_of, sectors_end, own_place, greatest_size, for_body, MadeIsUnit};

use crate::{Raw, Sound, UnitKind};
use df_base::{Check, HEADER, check};
use df_format::{Header, seal_summed};
use df_layout::Layout;
use std::marker::{Model, PhantomData};

/// A room with a body after the place of a header that isn't made yet, and the body's checksum. Contracts see the layout and the
/// body.
#[derive(Drop)]
pub struct Filled<K: UnitKind> {
    pub(crate) layout: Layout,
    pub(crate) count: usize,
    pub(crate) sum: Check,
    pub(crate) bytes: Vec<u8>,
    pub(crate) kind: PhantomData<K>,
}

impl<K: UnitKind> Model for Filled<K> {
    ghost use Rattle.df_buffers.specs.Fillings.{Filling, filling_of, IsFilled};

    ghost Value = { Filling };

    ghost view = { λ s. filling_of s.layout s.count s.bytes.items };

    ghost invariant = { λ s. IsFilled K.ZONE s.layout s.count s.sum s.bytes.items };
}

// Copies a body after the place of a header.
fn put_body(bytes: &mut [u8], body: &[u8])
    requires { HEADER + length body.now ≤ length bytes.old }
    ensures body { take (length body.now) (drop HEADER bytes.new) ≡ body.now }
    ensures size { length bytes.new ≡ length bytes.old }
{
    bytes[HEADER..HEADER + body.len()].copy_from_slice(body);
}

impl<K: UnitKind> Raw<K> {
    /// Puts a body into the room, after the place of its header, and takes its checksum.
    pub fn fill(self, body: &[u8]) -> Filled<K>
        requires { HEADER + length body.now ≤ greatest_size self.layout K.ZONE }
        ensures { result ≡ record { layout = self.layout; body = body.now } }
    {
        let Raw {
            layout,
            mut bytes,
            kind,
        } = self;
        let sum = check(body);
        put_body(&mut bytes, body);
        Filled {
            layout,
            count: body.len(),
            sum,
            bytes,
            kind,
        }
    }
}

impl<K: UnitKind> Filled<K> {
    /// How many bytes the body has.
    pub fn len(&self) -> usize
        ensures { result ≡ length self.now.body }
    {
        self.count
    }

    /// Makes a unit of a header and the body that is in the room: it sets the header's size and checksums from the body, writes the
    /// header before it, and zeros after it up to the last whole sector. The body was hashed as it was put in, and isn't again.
    pub fn seal(self, header: Header) -> Sound<K>
        requires rules { ObeysRules (for_body header self.body) }
        requires kind { header.kind ≡ K.KIND }
        requires own { IsSome (own_place self.layout K.ZONE header) }
        ensures unit { result.unit ≡ record { header = sealed (for_body header self.body); body = self.body } }
        ensures valid { MadeIsUnit result.unit }
        ensures sectors { take (sectors_end (HEADER + length self.body)) result.bytes ≡ sectors_of result.unit }
        ensures layout { result.layout ≡ self.layout }
    {
        let Filled {
            layout,
            count,
            sum,
            mut bytes,
            kind,
        } = self;
        let made = seal_summed(header, count, sum, &mut bytes);
        Sound {
            layout,
            header: made.header,
            bytes,
            kind,
        }
    }

    /// The room with its bytes as they are.
    pub fn loosen(self) -> Raw<K>
        ensures { result.layout ≡ self.layout }
    {
        let Filled {
            layout,
            count: _,
            sum: _,
            bytes,
            kind,
        } = self;
        Raw {
            layout,
            bytes,
            kind,
        }
    }
}
