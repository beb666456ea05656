// Where a piece begins among the checksums: what is captured is counted by groups of addresses, so that the groups whose checksums stand
// before the window are passed over.
ghost use Rattle.std.specs.Prelude.{◌≡◌, ◌+◌, ◌*◌, ◌<◌, ◌≤◌, ◌^◌, IfSome};
ghost use Rattle.df_base.specs.declared.TheConstants.{HEADER};
ghost use Rattle.df_trailer.specs.Writing.{referenced_among};

use crate::CapturedBlocks;
use crate::captured::GROUP;
use crate::parts::CHECK;

/// Where the checksums of the blocks from a place on begin.
#[derive(Clone, Copy)]
pub(crate) struct Begin {
    /// How many blocks are passed over.
    pub(crate) place: u64,
    /// The offset in the text.
    pub(crate) at: u64,
}

/// The begin after this many groups, None where that isn't kept or is past the window's begin.
fn behind_groups<G: CapturedBlocks>(grid: &G, start: u64, from: u64, groups: u64) -> Option<Begin>
    requires groups { groups < 2 ^ 24 }
    requires small { start < 2 ^ 60 }
    ensures place { IfSome result (λ begin. begin.place ≡ HEADER * groups) }
    ensures at { IfSome result (λ begin. begin.at ≡ start + 16 * referenced_among (G.captured grid.now) (256 * groups)) }
    ensures before { IfSome result (λ begin. begin.at ≤ from) }
{
    let at = start + CHECK * grid.counted(groups)?;
    if at > from {
        return None;
    }
    Some(Begin {
        place: GROUP * groups,
        at,
    })
}

/// The last begin of a group that isn't past the window's begin, as far as it is counted; else that of the first block.
pub(crate) fn begin_before<G: CapturedBlocks>(grid: &G, start: u64, from: u64, blocks: u32) -> Begin
    requires { start < 2 ^ 60 }
    ensures inside { result.place ≤ blocks }
    ensures at { result.at ≡ start + 16 * referenced_among (G.captured grid.now) result.place }
    ensures before { 0 < result.place → result.at ≤ from }
{
    let mut begin = Begin {
        place: 0,
        at: start,
    };
    for groups in 1..=u64::from(blocks) / GROUP {
        match behind_groups(grid, start, from, groups) {
            Some(later) => begin = later,
            None => return begin,
        }
    }
    begin
}
