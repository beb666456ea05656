// Which disks may be hurt: laws, each the clause of a function that does nothing.
ghost use Rattle.df_damage.specs.Disks.{StoppedMayBeHurt, TidyMayBeHurt};

/// What each session leaves, and what a stop leaves at any moment at which the log is safe, is a disk that may be hurt, where no unit
/// came about by chance.
pub fn what_is_left_may_be_hurt()
    ensures tidy { TidyMayBeHurt }
    ensures stopped { StoppedMayBeHurt }
{}
