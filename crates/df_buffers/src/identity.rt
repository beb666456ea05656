// Which unit is wanted, and where.
ghost use Rattle.std.specs.Prelude.{◌≡◌};
ghost use Rattle.df_buffers.specs.Below.{IsCheck};

use df_base::Check;
use df_layout::{Layout, Place};

/// Which of the units that are valid at a place is wanted.
#[derive(Clone, Copy, Debug, PartialEq, Eq)]
pub enum Wanted {
    /// Any valid unit.
    Any,
    /// A prepare with this op.
    Op(u64),
    /// The unit whose header has this checksum.
    Checksum(Check),
    /// The reply to a request of a client.
    Answer { client: u128, request: u64, op: u64 },
}

/// The file, the place, and the unit that is wanted there.
#[derive(Clone, Copy, Debug, PartialEq, Eq)]
pub struct Identity {
    pub layout: Layout,
    /// The cluster that the file is of.
    pub cluster: u128,
    pub place: Place,
    pub wanted: Wanted,
}

impl Identity {
    /// The unit with this checksum, at a place of the file.
    pub fn known(layout: &Layout, cluster: u128, place: Place, checksum: Check) -> Identity
        ensures known { result ≡ record { layout = layout.now; cluster = cluster; place = place; wanted = Wanted.Checksum checksum } }
        ensures check { IsCheck checksum }
    {
        Identity {
            layout: *layout,
            cluster,
            place,
            wanted: Wanted::Checksum(checksum),
        }
    }
}
