// How a mending ends.
use df_program::{Ends, Shared};

/// How a run ended. `number` is the status of the program's exit, as of `datafile`.
#[derive(Clone, Copy, Debug, PartialEq, Eq)]
pub enum Status {
    /// Each known unit was shown: nothing was written.
    Done = 0,
    /// What wasn't shown was taken from the second file, and each known unit is shown now.
    Found = 1,
    /// The words have no meaning.
    Words = 2,
    /// The first file's superblock or trailer can't be used, or neither file shows a known unit.
    Refused = 4,
    /// One of the two disks failed.
    DiskFault = 5,
    /// The sink failed, whatever else happened.
    WriteFault = 7,
    /// Want of memory, before anything was written.
    Memory = 8,
}

impl Ends for Status {
    ghost use Rattle.df_mirror.specs.Statuses.{statuses};

    ghost statuses = { statuses };

    fn shared() -> Shared<Status> {
        Shared {
            refused: Status::Refused,
            disk_fault: Status::DiskFault,
            write_fault: Status::WriteFault,
        }
    }

    fn number(self) -> u8 {
        self as u8
    }
}
