// The room of a kind of unit, as it lies between two calls: with any bytes, or with a sound unit in it, which it lends.
ghost use Rattle.std.specs.Prelude.{◌≡◌, ◌≤◌, ◌+◌, None, Some, length, IfOk, IsSome};
ghost use Rattle.df_base.specs.declared.TheConstants.{HEADER};
ghost use Rattle.df_places.specs.{Below.{HasCause, AreBytes, HasPlace, for_body, own_place, ObeysRules, greatest_size}, Shelves.{HoldsBlanked, HoldsFound, HoldsMade, IsRead, IsShelf}};
ghost use Rattle.df_places.specs.Units.{IsSeen, IsThere};

use crate::read_place;
use df_base::Failed;
use df_buffers::{Identity, Raw, Sound, UnitKind};
use df_disk::Disk;
use df_format::{Header, decode_unit};
use df_layout::{Class, Layout, Place};
use std::marker::Model;

/// A room of the kind, of one layout. Contracts see the layout, and the unit that the room holds, if it holds one.
pub struct Shelf<K: UnitKind> {
    layout: Layout,
    loose: Option<Raw<K>>,
    held: Option<Sound<K>>,
}

// Its owner lets go of it in one call, and not field by field.
impl<K: UnitKind> Drop for Shelf<K> {
    fn drop(self) {
        let Shelf {
            layout: _,
            loose: _,
            held: _,
        } = self;
    }
}

impl<K: UnitKind> Model for Shelf<K> {
    ghost use Rattle.df_places.specs.Shelves.{Shelved, IsShelf};

    ghost Value = { Shelved };

    ghost view = { λ s. record { layout = s.layout; held = s.held } };

    ghost invariant = { λ s. IsShelf s.layout s.loose s.held };
}

// The bytes of a buffer are bytes, as its type says.
fn are_bytes(bytes: &[u8])
    ensures { AreBytes bytes.now }
{}

// The room, whatever is in it.
fn room_of<K: UnitKind>(_layout: &Layout, loose: Option<Raw<K>>, held: Option<Sound<K>>) -> Raw<K>
    requires { IsShelf _layout.now loose held }
    ensures { result.layout ≡ _layout.now }
{
    match held {
        Some(unit) => unit.loosen(),
        None => match loose {
            Some(room) => room,
            None => unreachable!(),
        },
    }
}

impl<K: UnitKind> Shelf<K> {
    /// A room of the layout, with any bytes in it.
    pub fn over(layout: Layout, room: Raw<K>) -> Shelf<K>
        requires { room.layout ≡ layout }
        ensures { result ≡ record { layout = layout; held = None } }
    {
        Shelf {
            layout,
            loose: Some(room),
            held: None,
        }
    }

    /// Gives the room back, with anything in it.
    pub fn into_room(self) -> Raw<K>
        ensures { result.layout ≡ self.layout }
    {
        let Shelf {
            layout,
            loose,
            held,
        } = self;
        room_of(&layout, loose, held)
    }

    /// Reads a place into the room: None exactly where the unit that is shown there is of the kind and the one wanted, and the shelf
    /// holds it then; else the class of what is shown. After an error it holds nothing.
    pub fn load<D: Disk>(
        &mut self,
        disk: &mut D,
        identity: &Identity,
    ) -> Result<Option<Class>, Failed>
        requires layout { identity.now.layout ≡ self.old.layout }
        requires place { HasPlace identity.now.layout identity.now.place }
        requires zone { identity.now.place.zone ≡ K.ZONE }
        ensures layout { self.new.layout ≡ self.old.layout }
        ensures holds { IfOk result (λ wrong. HoldsFound K.KIND identity.now wrong self.new.held) }
        ensures read { IfOk result (λ wrong. IsRead K.KIND identity.now (D.told disk.old) wrong self.new.held) }
        ensures same { D.told disk.new ≡ D.told disk.old }
        ensures cause { HasCause (D.faults disk.old) (D.faults disk.new) result }
    {
        let mut room = room_of(&self.layout, self.loose.take(), self.held.take());
        match read_place(disk, &self.layout, identity.place, &mut room) {
            Err(failed) => {
                self.loose = Some(room);
                Err(failed)
            }
            Ok(()) => {
                are_bytes(room.bytes_mut());
                match room.prove(identity) {
                    Ok(unit) => {
                        self.held = Some(unit);
                        Ok(None)
                    }
                    Err((room, class)) => {
                        self.loose = Some(room);
                        Ok(Some(class))
                    }
                }
            }
        }
    }

    /// Reads a place into the room, and answers what is shown there: the header of the unit that is valid there, of whatever kind, or a
    /// class. The shelf holds nothing then. A header that is seen is that of a valid unit, whatever the disk tells.
    pub fn see<D: Disk>(
        &mut self,
        disk: &mut D,
        cluster: u128,
        place: Place,
    ) -> Result<Result<Header, Class>, Failed>
        requires place { HasPlace self.old.layout place }
        requires zone { place.zone ≡ K.ZONE }
        ensures room { self.new ≡ record { layout = self.old.layout; held = None } }
        ensures seen { IfOk result (IsSeen self.old.layout cluster (D.told disk.old) place) }
        ensures there { IfOk result (IsThere self.old.layout cluster place) }
        ensures same { D.told disk.new ≡ D.told disk.old }
        ensures cause { HasCause (D.faults disk.old) (D.faults disk.new) result }
    {
        let mut room = room_of(&self.layout, self.loose.take(), self.held.take());
        match read_place(disk, &self.layout, place, &mut room) {
            Err(failed) => {
                self.loose = Some(room);
                Err(failed)
            }
            Ok(()) => {
                let bytes = room.bytes_mut();
                are_bytes(bytes);
                let seen = decode_unit(&self.layout, cluster, place, bytes);
                self.loose = Some(room);
                Ok(seen)
            }
        }
    }

    /// Makes a unit of a header and a body in the room, which holds it then: its size and checksums are set from the body.
    pub fn make(&mut self, header: Header, body: &[u8])
        requires rules { ObeysRules (for_body header body.now) }
        requires kind { header.kind ≡ K.KIND }
        requires own { IsSome (own_place self.old.layout K.ZONE header) }
        requires fits { HEADER + length body.now ≤ greatest_size self.old.layout K.ZONE }
        ensures layout { self.new.layout ≡ self.old.layout }
        ensures made { HoldsMade self.old.layout header body.now self.new.held }
    {
        let room = room_of(&self.layout, self.loose.take(), self.held.take());
        self.held = Some(room.make(header, body));
    }

    /// Blanks the room after the unit that it holds, which stays: no checksum covers what stood there.
    pub fn blank_rest(&mut self)
        requires { IsSome self.old.held }
        ensures layout { self.new.layout ≡ self.old.layout }
        ensures blanked { HoldsBlanked self.old.layout self.old.held self.new.held }
    {
        match self.held.take() {
            Some(unit) => self.held = Some(unit.blank_rest()),
            None => unreachable!(),
        }
    }

    /// The sound unit in the room.
    pub fn unit(&self) -> &Sound<K>
        requires { IsSome self.now.held }
        ensures { self.now.held ≡ Some result.now }
    {
        match &self.held {
            Some(unit) => unit,
            None => unreachable!(),
        }
    }
}
