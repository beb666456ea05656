// What the place of a copy holds, and what it counts for.
ghost use Rattle.std.specs.Prelude.{◌≡◌, ◌<◌, get_or, option_copied};
ghost use Rattle.df_format.specs.Copies.{content_in_copy};
ghost use Rattle.df_quorum.specs.Quorum.{class_in, copies_of, nothing};

use df_format::SuperCopy;
use df_layout::{Class, Place, Zone};

/// What the place of a copy of the superblock holds.
#[derive(Clone, Copy, Debug, PartialEq, Eq)]
pub enum Slot {
    /// A sound copy, of any number.
    Sound(SuperCopy),
    /// No sound copy, and the class of what is there.
    Bad(Class),
}

// The sound copy of this number that stands at its own place.
pub fn shown(copies: &[Slot; 4], number: u8) -> Option<&SuperCopy>
    requires { number < 4 }
    ensures { content_in_copy (option_copied result) ≡ copies_of copies.now number }
{
    match &copies[usize::from(number)] {
        Slot::Sound(copy) => if copy.number == number {
            Some(copy)
        } else {
            None
        },
        Slot::Bad(_) => None,
    }
}

// The class of what the place of this number holds, where it isn't used.
pub fn class(copies: &[Slot; 4], number: u8) -> Class
    requires { number < 4 }
    ensures { result ≡ class_in number (get_or copies.now number nothing) }
{
    match &copies[usize::from(number)] {
        Slot::Sound(copy) => {
            if copy.number == number {
                Class::Stale
            } else {
                Class::Elsewhere(Place {
                    zone: Zone::Superblock,
                    index: u64::from(copy.number),
                })
            }
        }
        Slot::Bad(class) => *class,
    }
}
