// What sessions keep on a disk that was hurt, and that any life may be hurt: laws, each the clause of a function that does nothing.
ghost use Rattle.df_lifetime.specs.Hurt.{HurtRunsKeep, LifeMayBeHurt, RunsKeepAnew, RunsKeepOn, StoppedOpensBegin};

/// A run of any program that found its file keeps it by each log that shows what the disk shows and by which the file may be
/// opened, and the next open by that log finds what was answered. On a hurt disk the log restarted at the open is one, where the
/// file's own checkpoint is found. And whatever was done to the disk before: where an open answered, so it is by the log that is begun
/// anew at its end; and a stop within that open leaves what it found, where the next one starts over. What such a run is of each word
/// and program, `each_program_runs_a_file` says.
pub fn hurt_sessions_keep()
    ensures runs { RunsKeepOn }
    ensures hurt { HurtRunsKeep }
    ensures anew { RunsKeepAnew }
    ensures stopped { StoppedOpensBegin }
{}

/// Whatever life a file has had whose disk was empty at first, it may be hurt: with whatever its disk shows then it meets the premise of
/// what `run` promises over a disk that was hurt, for a view that the file may have come to.
pub fn a_life_may_be_hurt()
    ensures { LifeMayBeHurt }
{}
