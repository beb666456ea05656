// Why the program ends before it is done.
ghost use Rattle.std.specs.Prelude.{◌≡◌};
ghost use Rattle.df_notes.specs.Ending.{ended_at, ended_by};

use df_base::BlamesDisk;
use df_program::{Ends, Shared};
use df_session::Fault;

/// Why the program ended before its end. `number` is the status of its exit, as of `datafile`.
#[derive(Clone, Copy, Debug, PartialEq, Eq)]
pub enum Ended {
    /// The file isn't opened, or a note isn't kept: it is too long, or the ring has no slot for it.
    Refused = 4,
    /// The disk failed.
    DiskFault = 5,
    /// Standard input failed, or a line of it isn't UTF-8.
    ReadFault = 6,
    /// The sink failed.
    WriteFault = 7,
    /// Want of memory, before anything was read or written.
    Memory = 8,
}

impl Ends for Ended {
    ghost use Rattle.df_notes.specs.Ending.{statuses};

    ghost statuses = { statuses };

    fn shared() -> Shared<Ended> {
        Shared {
            refused: Ended::Refused,
            disk_fault: Ended::DiskFault,
            write_fault: Ended::WriteFault,
        }
    }

    fn number(self) -> u8 {
        self as u8
    }
}

/// By an error of the replica: the disk is to blame, or the call is refused.
pub(crate) fn why_ended<E: BlamesDisk>(error: &E) -> Ended
    ensures { result ≡ ended_by (E.is_fault error.now) }
{
    if error.is_fault() {
        Ended::DiskFault
    } else {
        Ended::Refused
    }
}

/// By a call after which none may follow.
pub(crate) fn ended_at(fault: Fault) -> Ended
    ensures { result ≡ ended_at fault }
{
    match fault {
        Fault::Disk => Ended::DiskFault,
        Fault::Damaged { place: _, class: _ } => Ended::Refused,
    }
}
