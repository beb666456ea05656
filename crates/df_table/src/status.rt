// How a run ends.
use df_program::{Ends, Shared};

/// How a run ended. `number` is the status of the program's exit, as of `datafile`.
#[derive(Clone, Copy, Debug, PartialEq, Eq)]
pub enum Status {
    /// The words have no meaning.
    Words = 2,
    /// Want of memory, before anything was read or written.
    Memory = 8,
    /// The file isn't opened, for another cause than the disk's failure; it is no table's; a block or a prepare of it is damaged; or no op or
    /// no checkpoint is left.
    Refused = 4,
    /// The disk failed.
    DiskFault = 5,
    /// The next line is no line of a script, too long, or past the budget of bytes.
    Script = 3,
    /// The source of the script failed.
    ReadFault = 6,
    /// The script was read to its end.
    Done = 0,
    /// The sink failed, whatever else happened.
    WriteFault = 7,
}

impl Ends for Status {
    ghost use Rattle.df_table.specs.Statuses.{statuses};

    ghost statuses = { statuses };

    fn shared() -> Shared<Status> {
        Shared {
            refused: Status::Refused,
            disk_fault: Status::DiskFault,
            write_fault: Status::WriteFault,
        }
    }

    fn number(self) -> u8 {
        self as u8
    }
}
