// How a run ends.
use df_program::{Ends, Shared};

/// How a run ended. `number` is the status of the program's exit.
#[derive(Clone, Copy, Debug, PartialEq, Eq)]
pub enum Status {
    /// The command was carried out; the script was read to its end.
    Done,
    /// The report lists something: a block that fails its check, or a place that is to be mended.
    Found,
    /// The words have no meaning.
    Words,
    /// The next line is no line of a script, too long, or past the budget of bytes.
    Script,
    /// No file was made or opened, for another cause than the disk's failure; or an open or a step found the superblock damaged that it wrote.
    Refused,
    /// The disk failed.
    DiskFault,
    /// The source of the script failed.
    ReadFault,
    /// The sink failed, whatever else happened.
    WriteFault,
    /// Want of memory, before anything was read or written.
    Memory,
}

impl Ends for Status {
    ghost use Rattle.df_top.specs.Statuses.{statuses};

    ghost statuses = { statuses };

    fn shared() -> Shared<Status> {
        Shared {
            refused: Status::Refused,
            disk_fault: Status::DiskFault,
            write_fault: Status::WriteFault,
        }
    }

    fn number(self) -> u8 {
        self as u8
    }
}
