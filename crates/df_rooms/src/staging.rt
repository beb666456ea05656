// The rooms of what is staged. A request's body is copied once, into the room in which its prepare is made and from which it is written.
ghost use Rattle.std.specs.Prelude.{◌≡◌, ◌≤◌, ◌<◌, ◌+◌, ◌++◌, ◌∷◌, [], length, drop, slice_get, vec_capacity, IfOk, IsSome, Some};
ghost use Rattle.df_base.specs.declared.TheConstants.{HEADER};
ghost use Rattle.df_rooms.specs.Below.{ObeysRules, for_body, greatest_size, own_place, sealed, Request, Prepare as AsPrepare, WalPrepares};
ghost use Rattle.df_layout.specs.declared.layout.Layout.{Layout as AsLayout};
ghost use Rattle.df_rooms.specs.Stagings.{AreFree, AreHeld, AreSealed, IsSealedOf, first_request};

use df_base::{Check, OutOfMemory};
use df_buffers::{Filled, Prepare, Raw, Sound};
use df_format::Header;
use df_layout::Layout;
use std::alloc::Global;
use std::marker::Model;

// A request that is staged, its body in the room that its prepare is to be made in.
#[derive(Drop)]
struct Held {
    client: u128,
    request: u64,
    room: Filled<Prepare>,
}

/// The requests that the next flush appends, eight at most, each with its body in a room of its own, in which its prepare is made and
/// from which it is written. Contracts see the layout, the requests, and the prepares that the last flush made.
pub struct Staging {
    layout: Layout,
    free: Vec<Raw<Prepare>>,
    staged: Vec<Held>,
    sealed: Vec<Sound<Prepare>>,
}

// Its owner lets go of it in one call, and not field by field.
impl Drop for Staging {
    fn drop(self) {
        let Staging {
            layout: _,
            free: _,
            staged: _,
            sealed: _,
        } = self;
    }
}

impl Model for Staging {
    ghost use Rattle.std.specs.Prelude.{vec_capacity};
    ghost use Rattle.df_rooms.specs.Stagings.{Staged, staged_in, IsStaging};

    ghost Value = { Staged };

    ghost view = { λ s. staged_in s.layout s.staged.items s.sealed.items };

    ghost invariant = { λ s. IsStaging s.layout s.free.items s.staged.items s.sealed.items (vec_capacity s.free) (vec_capacity s.staged) (vec_capacity s.sealed) };
}

// Moves the rooms of all units to the free ones.
fn free_units(free: &mut Vec<Raw<Prepare>>, units: &mut Vec<Sound<Prepare>>)
    requires { length free.old.items + length units.old.items ≤ vec_capacity free.old }
    ensures none { units.new.items ≡ [] }
    ensures all { length free.new.items ≡ length free.old.items + length units.old.items }
    ensures fit { (layout : AsLayout) → AreFree layout free.old.items → AreSealed layout units.old.items → AreFree layout free.new.items }
    ensures capacity { (vec_capacity free.new ≡ vec_capacity free.old) × (vec_capacity units.new ≡ vec_capacity units.old) }
{
    while !units.is_empty() {
        free.push_reserved(units.take_last().loosen());
    }
}

// Moves the rooms of all requests to the free ones.
fn free_held(free: &mut Vec<Raw<Prepare>>, held: &mut Vec<Held>)
    requires { length free.old.items + length held.old.items ≤ vec_capacity free.old }
    ensures none { held.new.items ≡ [] }
    ensures all { length free.new.items ≡ length free.old.items + length held.old.items }
    ensures fit { (layout : AsLayout) → AreFree layout free.old.items → AreHeld layout held.old.items → AreFree layout free.new.items }
    ensures capacity { (vec_capacity free.new ≡ vec_capacity free.old) × (vec_capacity held.new ≡ vec_capacity held.old) }
{
    while !held.is_empty() {
        free.push_reserved(held.take_last().room.loosen());
    }
}

impl Staging {
    /// The rooms for a layout, with nothing staged, or the refusal of memory for one of them.
    pub(crate) fn reserve(alloc: Global, layout: &Layout) -> Result<Staging, OutOfMemory>
        ensures { IfOk result (λ staging. staging ≡ record { layout = layout.now; requests = []; sealed = [] }) }
    {
        let mut free = Vec::with_capacity(alloc, 8)?;
        while free.len() < 8 {
            free.push_reserved(Raw::reserve(alloc, layout)?);
        }
        let staged = Vec::with_capacity(alloc, 8)?;
        let sealed = Vec::with_capacity(alloc, 8)?;
        Ok(Staging {
            layout: *layout,
            free,
            staged,
            sealed,
        })
    }

    /// How many requests are staged.
    pub fn len(&self) -> u64
        ensures count { result ≡ length self.now.requests }
        ensures few { result ≤ 8 }
    {
        self.staged.len() as u64
    }

    /// The client and the number of a request that is staged, counted from 0.
    pub fn request(&self, place: u64) -> (u128, u64)
        requires { place < length self.now.requests }
        ensures { (r : Request) → slice_get self.now.requests place ≡ Some r → (result.0 ≡ r.client) × (result.1 ≡ r.request) }
    {
        let held = &self.staged[place as usize];
        (held.client, held.request)
    }

    /// Stages a request: its body is copied into a room. The prepares that the last flush made are let go of.
    pub fn push(&mut self, client: u128, request: u64, body: &[u8])
        requires few { length self.old.requests < 8 }
        requires fits { HEADER + length body.now ≤ greatest_size self.old.layout WalPrepares }
        ensures { self.new ≡ record { layout = self.old.layout; requests = self.old.requests ++ record { client = client; request = request; body = body.now } ∷ []; sealed = [] } }
    {
        self.loosen();
        let room = self.free.take_last();
        self.staged.push_reserved(Held {
            client,
            request,
            room: room.fill(body),
        });
    }

    /// Makes the prepare of the first request that is left, by this header, in the room of its body, and answers its checksum. The
    /// request isn't staged any more, and the prepare is the last one of the units.
    pub fn seal_first(&mut self, header: Header) -> Check
        requires some { 0 < length self.old.requests }
        requires rules { ObeysRules (for_body header (first_request self.old.requests).body) }
        requires kind { header.kind ≡ AsPrepare }
        requires own { IsSome (own_place self.old.layout WalPrepares header) }
        ensures requests { self.new.requests ≡ drop 1 self.old.requests }
        ensures sealed { IsSealedOf self.old header self.new.sealed }
        ensures layout { self.new.layout ≡ self.old.layout }
        ensures sum { result ≡ (sealed (for_body header (first_request self.old.requests).body)).checksum }
    {
        let held = self.staged.remove(0);
        let unit = held.room.seal(header);
        let sum = unit.header().checksum;
        self.sealed.push_reserved(unit);
        sum
    }

    /// The prepares that the last flush made, in order of op, until they are let go of.
    pub fn units(&self) -> &[Sound<Prepare>]
        ensures { result.now ≡ self.now.sealed }
    {
        &self.sealed
    }

    /// Lets go of the prepares that the last flush made.
    pub fn loosen(&mut self)
        ensures { self.new ≡ record self.old { sealed = [] } }
    {
        free_units(&mut self.free, &mut self.sealed);
    }

    /// Lets go of all that is staged.
    pub fn clear(&mut self)
        ensures { self.new ≡ record self.old { requests = [] } }
    {
        free_held(&mut self.free, &mut self.staged);
    }
}
