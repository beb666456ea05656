// How a run ends: the statuses that each program has, and the numbers of all of them.
ghost use Rattle.std.specs.Prelude.{◌≡◌};
ghost use Rattle.df_program.specs.Ends.{Statuses, shared_in};

use crate::shared::Shared;

/// How the runs of a program end: an enum of its own, with those of the statuses of `datafile` that it can end with, and with their numbers.
pub trait Ends: Copy {
    /// The number of each, and those that each program has.
    ghost statuses: { Statuses Self };

    /// Those that each program has.
    fn shared() -> Shared<Self>
        ensures { result ≡ shared_in statuses };

    /// The exit status of the program.
    fn number(self) -> u8
        ensures { result ≡ statuses.number self };
}
