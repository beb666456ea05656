// The choice, and why there is none.
ghost use Rattle.std.specs.Prelude.{◌≡◌, ◌↔◌, true, is_err, IfOk, IfErr, IsOkAnd};
ghost use Rattle.df_format.specs.Copies.{Content};
ghost use Rattle.df_quorum.specs.Quorum.{copies_of, AreClasses, AreMembers, HasChosen, IsChosenContent, CopiesAreSplit};

use crate::Slot;
use crate::best::best_of;
use crate::slot::class;
use crate::votes::members;
use df_format::SuperFields;
use df_layout::Class;

/// What the copies of the superblock say, and which of them say it.
#[derive(Clone, Copy, Debug, PartialEq, Eq)]
pub struct Chosen {
    pub content: SuperFields,
    /// Whether the copy of each number shows the chosen content at its own place.
    pub members: [bool; 4],
}

// The class of each place.
fn classes(copies: &[Slot; 4]) -> [Class; 4]
    ensures { AreClasses copies.now result }
{
    [
        class(copies, 0),
        class(copies, 1),
        class(copies, 2),
        class(copies, 3),
    ]
}

/// The content of greatest pair (sequence, boot), sequence first, on which at least two copies agree, each counted at its own
/// place alone; where two contents tie, the one of the lowest-numbered copy. Copies agree where their checksums and fields are equal. Where no two
/// agree, the class of each place: a sound copy is `Stale` at its own place, and else `Elsewhere` with that place.
pub fn choose(copies: &[Slot; 4]) -> Result<Chosen, [Class; 4]>
    ensures content { IfOk result (λ chosen. HasChosen (copies_of copies.now) chosen.content) }
    ensures exactly { (c : Content) → IsChosenContent (copies_of copies.now) c → IsOkAnd result (λ chosen. chosen.content ≡ c.fields) }
    ensures members { (c : Content) → IsChosenContent (copies_of copies.now) c → IsOkAnd result (λ chosen. AreMembers (copies_of copies.now) c chosen.members) }
    ensures split { (is_err result ≡ true) ↔ CopiesAreSplit (copies_of copies.now) }
    ensures classes { IfErr result (λ classes. AreClasses copies.now classes) }
{
    match best_of(copies) {
        Some(best) => Ok(Chosen {
            content: best.fields,
            members: members(copies, best),
        }),
        None => Err(classes(copies)),
    }
}
