// A data file, by the numbers that its places and what its units mean depend on.
ghost use Rattle.std.specs.Prelude.{◌<◌};

use df_layout::Layout;

/// A data file: how its places lie, the cluster that its units are of, and the version of its superblock. The boot isn't among them,
/// since an open raises it: a superblock has it, and the grid.
#[derive(Clone, Copy, Debug, PartialEq, Eq)]
pub struct DataFile {
    pub layout: Layout,
    pub cluster: u128,
    pub version: u32,
    pub ghost named: { 0 < cluster },
}
