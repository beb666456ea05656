// What is decided of a slot where an op is wanted there, in a boot: a unit of an earlier one proves nothing. And which prepare is
// taken from it, up to the superblock's head and above it; and what is planned once the head is known.
ghost use Rattle.std.specs.Prelude.{◌≡◌};
ghost use Rattle.df_journal.specs.{Below.{IsCheck, HasCheck, decision_of, seen_of}, Planned.{has_header_of, planned_on}, Seen.{decision_on, seen_in, HasChecks, IsOfCheck, TakesNow}};
ghost use Rattle.df_theory.specs.Cases.{cut};

use crate::Start;
use df_base::Check;
use df_buffers::SlotSeen;
use df_cases::{Decision, Seen, case};
use df_format::Header;
use df_layout::Class;

// What a ring shows, where the op is wanted in this boot.
fn seen_in(ring: &Result<Header, Class>, op: u64, boot: u64) -> Seen
    ensures shown { seen_of result ≡ seen_in boot op ring.now }
    ensures check { IsOfCheck ring.now → HasCheck result }
{
    match ring {
        Ok(header) => {
            if header.op == op {
                if header.boot == boot {
                    Seen::Now(header.checksum)
                } else {
                    Seen::Old
                }
            } else if header.op < op {
                Seen::Old
            } else {
                Seen::Far
            }
        }
        Err(_) => Seen::Nothing,
    }
}

// The decision on a slot.
pub(crate) fn decision_on(seen: &SlotSeen, op: u64, boot: u64) -> Decision
    ensures { HasChecks seen.now → decision_of result ≡ decision_on boot op seen.now }
{
    case(
        seen_in(&seen.header, op, boot),
        seen_in(&seen.prepare, op, boot),
    )
}

/// The header of the prepare that is taken from a slot, where the op is wanted there. Up to the head that the superblock names
/// the prepare that is shown is the one that is named, by its checksum, and the table isn't asked; above it the table decides.
pub(crate) fn taken(seen: &SlotSeen, start: &Start, op: u64) -> Option<Header>
    requires { HasChecks seen.now }
    ensures { TakesNow start.now op seen.now result }
{
    let takes = op <= start.head
        || matches!(decision_on(seen, op, start.boot), Decision::Take { .. });
    if !takes {
        return None;
    }
    match &seen.prepare {
        Ok(header) => { if header.op == op { Some(*header) } else { None } }
        Err(_) => None,
    }
}

// Whether the header ring shows the header with this checksum.
fn has_header(ring: &Result<Header, Class>, checksum: &Check) -> bool
    ensures { IsCheck checksum.now → IsOfCheck ring.now → result ≡ has_header_of checksum.now ring.now }
{
    match ring {
        Ok(header) => header.checksum == *checksum,
        Err(_) => false,
    }
}

// The decision on a slot above the head: a prepare that would be taken was cut off.
fn cut(header: &Seen, decision: &Decision) -> Decision
    ensures { decision_of result ≡ cut (seen_of header.now) (decision_of decision.now) }
{
    match decision {
        Decision::Take { mend: true } => Decision::Empty {
            mend: matches!(header, Seen::Nothing),
        },
        _ => *decision,
    }
}

/// The decision on a slot where the op is wanted, with this head found.
pub(crate) fn planned_of(seen: &SlotSeen, start: &Start, op: u64, head: u64) -> Decision
    ensures { HasChecks seen.now → decision_of result ≡ planned_on start.now head op seen.now }
{
    if op <= start.head {
        // The superblock names the prepare that is shown, by its checksum.
        return match &seen.prepare {
            Ok(header) => Decision::Take {
                mend: !has_header(&seen.header, &header.checksum),
            },
            Err(_) => Decision::Lost,
        };
    }
    let decision = decision_on(seen, op, start.boot);
    if op <= head {
        decision
    } else {
        cut(&seen_in(&seen.header, op, start.boot), &decision)
    }
}
