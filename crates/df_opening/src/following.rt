// The laws by which one session follows another.
ghost use Rattle.df_opening.specs.Following.{BegunMayOpen, FaultedMayOpen, StoppedMayOpen, TidyMayOpen};

/// What a making and each call leave may be opened, a call in which the disk failed among them, and so may what a stop leaves at any
/// moment of them. So may any file that shows a view from which a log may begin, by the log restarted there.
pub fn what_is_left_may_be_opened()
    ensures tidy { TidyMayOpen }
    ensures stopped { StoppedMayOpen }
    ensures faulted { FaultedMayOpen }
    ensures begun { BegunMayOpen }
{}
