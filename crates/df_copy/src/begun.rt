// A target of which nothing is written.
ghost use Rattle.std.specs.Prelude.{◌<◌, []};
ghost use Rattle.df_copy.specs.Targets.{IsTarget};

use crate::target::Target;
use df_format::NO_CHECKSUMS;
use df_opening::Rooms;

impl Target {
    /// A target of this cluster of which nothing is written.
    #[tactic(auto, unfolding(df_format::specs::Super::no_checksums))]
    pub(crate) fn over(rooms: Rooms, cluster: u128) -> Target
        requires cluster { 0 < cluster }
        ensures { IsTarget rooms.layout cluster [] [] result }
    {
        let layout = rooms.layout;
        let (log, grid, trailer, ..) = rooms.into_parts();
        Target {
            layout,
            log,
            grid: grid.into_grid(cluster),
            trailer,
            checks: NO_CHECKSUMS,
            copied: 0,
        }
    }
}
