// How a copy ends.
use df_program::{Ends, Shared};

/// How a copy ended. `number` is the status of the program's exit, as of `datafile`.
#[derive(Clone, Copy, Debug, PartialEq, Eq)]
pub enum Status {
    /// The target is whole.
    Done = 0,
    /// The words have no meaning.
    Words = 2,
    /// The source isn't opened, for another cause than a disk's failure; or it isn't at rest, it doesn't fit the layout, a reply or a block of it is damaged, or the target isn't blank.
    Refused = 4,
    /// One of the two disks failed.
    DiskFault = 5,
    /// The sink failed, whatever else happened.
    WriteFault = 7,
    /// Want of memory, before anything was written.
    Memory = 8,
}

impl Ends for Status {
    ghost use Rattle.df_copy.specs.Statuses.{statuses};

    ghost statuses = { statuses };

    fn shared() -> Shared<Status> {
        Shared {
            refused: Status::Refused,
            disk_fault: Status::DiskFault,
            write_fault: Status::WriteFault,
        }
    }

    fn number(self) -> u8 {
        self as u8
    }
}
