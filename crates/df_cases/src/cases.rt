// The table of recovery cases.
//
// A prepare is durable before its header sector is written. So a torn prepare has an old header and was never
// acknowledged, a torn header sector spoils headers whose prepares are all durable, and a current header without its
// prepare is damage.
ghost use Rattle.std.specs.Prelude.{◌≡◌};
ghost use Rattle.df_theory.specs.Cases.{case as decided};
ghost use Rattle.df_cases.specs.Cases.{HasCheck, decision_of, seen_of};

use crate::Seen;

/// What becomes of a slot.
#[derive(Clone, Copy, Debug, PartialEq, Eq)]
pub enum Decision {
    /// The slot was used again after a later checkpoint than the one that was found.
    Behind,
    /// The prepare counts; the header is written again where `mend` is set.
    Take { mend: bool },
    /// The header's prepare was durable once, and isn't shown.
    Lost,
    /// Nothing was ever acknowledged there; a reserved header is written where `mend` is set.
    Empty { mend: bool },
}

/// What becomes of a slot whose rings show this: the decision of the theory's one table.
pub fn case(header: Seen, prepare: Seen) -> Decision
    ensures model { HasCheck header → HasCheck prepare → decision_of result ≡ decided (seen_of header) (seen_of prepare) }
{
    match (header, prepare) {
        (Seen::Far, _) | (_, Seen::Far) => Decision::Behind,
        (Seen::Now(header), Seen::Now(prepare)) if header == prepare => Decision::Take {
            mend: false,
        },
        (Seen::Now(_), _) => Decision::Lost,
        (_, Seen::Now(_)) => Decision::Take { mend: true },
        (Seen::Old, _) => Decision::Empty { mend: false },
        (Seen::Nothing, _) => Decision::Empty { mend: true },
    }
}
