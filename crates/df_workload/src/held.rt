// The addresses of the blocks that a run has written and not released, the oldest first.
ghost use Rattle.std.specs.Prelude.{◌≡◌, ◌<◌, ◌==◌, [], ◌∷◌, ◌++◌, length, drop, slice_index};

use arrayvec::ArrayVec;
use std::marker::Model;

/// At most nine addresses.
#[derive(Drop)]
pub struct Held {
    addresses: ArrayVec<u64, 9>,
}

impl Model for Held {
    ghost use Rattle.std.specs.Prelude.{ℕ, List};

    ghost Value = { List ℕ };

    ghost view = { λ h. h.addresses.items };
}

impl Held {
    pub(crate) fn none() -> Held
        ensures { result ≡ [] }
    {
        Held {
            addresses: ArrayVec::new(),
        }
    }

    pub(crate) fn is_full(&self) -> bool
        ensures { result ≡ (length self.now == 9) }
    {
        self.addresses.is_full()
    }

    /// The oldest address.
    pub(crate) fn first(&self) -> u64
        requires { 0 < length self.now }
        ensures { result ≡ slice_index self.now 0 }
    {
        self.addresses[0]
    }

    pub(crate) fn push(&mut self, address: u64)
        requires { length self.old < 9 }
        ensures { self.new ≡ self.old ++ address ∷ [] }
    {
        self.addresses.push(address);
    }

    /// Takes out the oldest address.
    pub(crate) fn take_first(&mut self)
        requires { 0 < length self.old }
        ensures { self.new ≡ drop 1 self.old }
    {
        self.addresses.remove(0);
    }
}
