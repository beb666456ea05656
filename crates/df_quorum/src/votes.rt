// Which copies show the same content.
ghost use Rattle.std.specs.Prelude.{◌≡◌, ◌<◌, ◌↔◌, IsTrue, Some, option_copied};
ghost use Rattle.df_format.specs.Copies.{content_in_copy};
ghost use Rattle.df_quorum.specs.{Quorum.{copies_of, content_of_copy, AreMembers}, Best.{Votes, HasOtherCopy}};

use crate::Slot;
use crate::slot::shown;
use df_format::{SuperCopy, SuperFields};

/// Whether all fields are equal.
pub fn same_fields(one: &SuperFields, other: &SuperFields) -> bool
    ensures { IsTrue result ↔ (one.now ≡ other.now) }
{
    *one == *other
}

// Two copies agree where all but their numbers are equal.
fn agree(one: &SuperCopy, other: &SuperCopy) -> bool
    ensures { IsTrue result ↔ (content_of_copy one.now ≡ content_of_copy other.now) }
{
    one.checksum == other.checksum && same_fields(&one.fields, &other.fields)
}

fn shows(copies: &[Slot; 4], number: u8, wanted: &SuperCopy) -> bool
    requires { number < 4 }
    ensures { IsTrue result ↔ (copies_of copies.now number ≡ Some (content_of_copy wanted.now)) }
{
    match shown(copies, number) {
        Some(copy) => agree(copy, wanted),
        None => false,
    }
}

// Whether another copy shows what this one does.
fn has_second(copies: &[Slot; 4], number: u8, wanted: &SuperCopy) -> bool
    ensures { IsTrue result ↔ HasOtherCopy (copies_of copies.now) number (content_of_copy wanted.now) }
{
    for other in 0..4 {
        if other != number && shows(copies, other, wanted) {
            return true;
        }
    }
    false
}

/// The copy that this place shows, if another one agrees with it.
pub fn candidate(copies: &[Slot; 4], number: u8) -> Option<&SuperCopy>
    requires { number < 4 }
    ensures { Votes (copies_of copies.now) number (content_in_copy (option_copied result)) }
{
    let copy = shown(copies, number)?;
    if has_second(copies, number, copy) {
        Some(copy)
    } else {
        None
    }
}

/// Which places show what this copy says.
pub fn members(copies: &[Slot; 4], wanted: &SuperCopy) -> [bool; 4]
    ensures { AreMembers (copies_of copies.now) (content_of_copy wanted.now) result }
{
    [
        shows(copies, 0, wanted),
        shows(copies, 1, wanted),
        shows(copies, 2, wanted),
        shows(copies, 3, wanted),
    ]
}
