// The laws of calls one after the other, each the clause of a function that does nothing.
ghost use Rattle.df_replica.specs.Session.{AnsweredIsThere, FaultStopsThem, NothingIsServed, OneMoreIsServed};

/// Where a replica is live and no call was made yet, nothing is served.
pub fn nothing_is_served()
    ensures { NothingIsServed }
{}

/// A call that answered is served after those before it.
pub fn one_more_is_served()
    ensures { OneMoreIsServed }
{}

/// A call that ended in a fault of the disk leaves each moment midway, and the file with all that was answered, or with one
/// act more.
pub fn a_fault_stops_them()
    ensures { FaultStopsThem }
{}

/// After acts that were answered a stop leaves the file with all of them.
pub fn what_was_answered_is_there()
    ensures { AnsweredIsThere }
{}
