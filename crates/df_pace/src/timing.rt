// When work is due.
ghost use Rattle.std.specs.Prelude.{◌≡◌};
ghost use Rattle.df_pace.specs.Loop.{is_begin_due};

use crate::{Due, Pace};

/// What is due after a line, where this many prepares were accepted since the loop's last begin and a checkpoint runs or
/// not.
pub fn due(pace: &Pace, appended: u64, running: bool) -> Due
    ensures begin { result.begin ≡ is_begin_due pace.now appended running }
    ensures steps { result.steps ≡ pace.now.steps }
    ensures scrub { result.scrub ≡ pace.now.scrub }
{
    Due {
        begin: !running && pace.every != 0 && appended >= pace.every,
        steps: pace.steps,
        scrub: pace.scrub,
    }
}
