// What an open finds after damage before any number of opens, and that the history goes on: laws, each the clause of a function that does nothing.
ghost use Rattle.df_damage.specs.Histories.{BegunGoesOn, FirstGoesOn, FoundWasSince, LayoutStays, RaisedGoesOn, StoppedGoesOn};

/// Whatever was damaged, before any number of opens, while two copies were spared before each, a state that an open finds is one that
/// the file had since the last open that raised its boot, and a log may be restarted there.
pub fn found_state_was_had_since()
    ensures found { FoundWasSince }
    ensures layout { LayoutStays }
{}

/// A history of logs begins on an empty disk, or on one that an upgrade left; and it goes on with each log that is restarted at what
/// an open finds, after each open that raised the boot wherever the newest log is safe, and after a stop at any moment.
pub fn history_goes_on()
    ensures first { FirstGoesOn }
    ensures begun { BegunGoesOn }
    ensures raised { RaisedGoesOn }
    ensures stopped { StoppedGoesOn }
{}
