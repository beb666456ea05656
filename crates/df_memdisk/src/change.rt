// What a stop changes on a disk, and why it is refused.
ghost use Rattle.std.specs.Prelude.{◌≡◌, length};
ghost use Rattle.df_base.specs.{declared.TheConstants.{SECTOR}, Image.{IsSector}};

use df_base::SECTOR;

/// A sector with the bytes that a stop leaves there.
#[derive(Drop)]
pub struct Change {
    pub sector: u64,
    pub bytes: [u8; SECTOR],
}

// Bytes of the length of a sector are those of a sector.
fn is_sector(bytes: &[u8])
    requires { length bytes.now ≡ SECTOR }
    ensures { IsSector bytes.now }
{}

impl Change {
    // The bytes of a change are those of a sector.
    pub(crate) fn is_whole(&self)
        ensures { IsSector self.now.bytes }
    {
        is_sector(&self.bytes);
    }
}

/// Why a disk wasn't stopped.
#[derive(Clone, Copy, Debug, PartialEq, Eq)]
pub enum StopError {
    /// The first sector of the list that wasn't written since the last sync or stop.
    NotLoose { sector: u64 },
    /// Memory for the event was refused.
    OutOfMemory,
}
