// The best of the copies that another one agrees with.
ghost use Rattle.std.specs.Prelude.{◌≡◌, nat_lt, option_copied};
ghost use Rattle.df_format.specs.Copies.{content_in_copy, rank_of_copy};
ghost use Rattle.df_quorum.specs.{Quorum.{copies_of, content_of_copy, IfChosen}, Best.{better_of, is_below}};

use crate::Slot;
use crate::votes::candidate;
use df_format::SuperCopy;

// Whether a pair of sequence and boot is below another one.
fn is_below(sequence: u64, boot: u64, other_sequence: u64, other_boot: u64) -> bool
    ensures { result ≡ is_below sequence boot other_sequence other_boot }
{
    sequence < other_sequence || sequence == other_sequence && boot < other_boot
}

// Whether a content comes after another one, by the two numbers as they stand in the copies, whatever their version.
fn outranks(one: &SuperCopy, other: &SuperCopy) -> bool
    ensures { result ≡ nat_lt (rank_of_copy (content_of_copy other.now)) (rank_of_copy (content_of_copy one.now)) }
{
    is_below(
        other.fields.sequence,
        other.fields.boot,
        one.fields.sequence,
        one.fields.boot,
    )
}

// The greater of two, and the first one where they tie.
fn better<'a>(best: Option<&'a SuperCopy>, next: Option<&'a SuperCopy>) -> Option<&'a SuperCopy>
    ensures { content_in_copy (option_copied result) ≡ better_of (content_in_copy (option_copied best.entry)) (content_in_copy (option_copied next.entry)) }
{
    match (best, next) {
        (Some(one), Some(other)) => if outranks(other, one) {
            Some(other)
        } else {
            Some(one)
        },
        (None, other) => other,
        (one, None) => one,
    }
}

/// A copy of the content that is chosen. None where no two copies agree.
pub fn best_of(copies: &[Slot; 4]) -> Option<&SuperCopy>
    ensures { IfChosen (copies_of copies.now) (content_in_copy (option_copied result)) }
{
    let mut best: Option<&SuperCopy> = None;
    for number in 0..4 {
        best = better(best, candidate(copies, number));
    }
    best
}
