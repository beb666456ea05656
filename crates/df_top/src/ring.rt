// The line of a script that asks for the ring of what the scrubber found last, and what it prints.
ghost use Rattle.std.specs.Prelude.{◌≡◌, ◌<◌, ◌≤◌, ◌+◌, ◌++◌, ℕ, length, take, Option, Some, true};
ghost use Rattle.df_disk.specs.Told.{Told};
ghost use Rattle.df_model.specs.Commands.{Recent, ToRecent};
ghost use Rattle.df_session.specs.Answering.{Serves};
ghost use Rattle.df_top.specs.{Findings.{items_of}, Step.{AnswersCommand}, Turning.{BlamesIfEnds}};

use crate::status::Status;
use df_base::Sink;
use df_inspect::print_recent;
use df_layout::{Class, Finding};
use df_program::{Turn, printed};
use df_session::Replica;

// How many findings the ring keeps.
const FINDINGS: u64 = 64;

// What stands at a place of a row that holds none.
const UNUSED: Finding = Finding {
    address: 0,
    class: Class::Blank,
};

// Puts a finding after the first `count` ones, where there is one, and says how many there are then.
fn keep(row: &mut [Finding], count: usize, found: Option<Finding>) -> usize
    requires { count < length row.old }
    ensures kept { take result row.new ≡ take count row.old ++ items_of found }
    ensures count { result ≡ count + length (items_of found) }
    ensures length { length row.new ≡ length row.old }
{
    match found {
        Some(finding) => {
            row[count] = finding;
            count + 1
        }
        None => count,
    }
}

// Puts the findings at the places of the ring into the front of a row, the oldest first, and says how many these are.
fn fill(replica: &Replica, row: &mut [Finding]) -> usize
    requires live { replica.now.live ≡ true }
    requires room { length row.old ≡ 64 }
    ensures ring { take result row.new ≡ replica.now.findings }
    ensures call { (told : Option Told) → Serves Recent replica.now replica.now told told (Some (ToRecent replica.now.findings)) }
    ensures few { result ≤ 64 }
    ensures length { length row.new ≡ 64 }
{
    let mut count = 0;
    let mut place = 0;
    while place < FINDINGS {
        count = keep(row, count, replica.recent(place));
        place += 1;
    }
    count
}

/// Prints what the scrubber found last, the newest 64 findings. No disk is touched.
pub fn recent<W: Sink>(sink: &mut W, replica: &Replica) -> Turn<Status>
    requires live { replica.now.live ≡ true }
    ensures answers { (told : Option Told) → AnswersCommand Recent replica.now replica.now told told (W.written sink.old) (W.written sink.new) result }
    ensures disk { (faults : ℕ) → BlamesIfEnds Status.DiskFault faults faults result }
    ensures sink { BlamesIfEnds Status.WriteFault (W.faults sink.old) (W.faults sink.new) result }
{
    let mut row = [UNUSED; 64];
    let count = fill(replica, &mut row);
    printed(print_recent(sink, &row[..count]))
}
