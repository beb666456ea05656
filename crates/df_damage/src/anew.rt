// When a log may be restarted: laws, each the clause of a function that does nothing.
ghost use Rattle.df_damage.specs.Anew.{AddedIsTold, BarrierBegins, BegunIsHonest, HonestStays, HurtMayBegin, LeavesTheSame, PartIsEvents, SameGoesOn, StopsAlike};

/// A disk's log may be restarted at any moment: the disk is honest over it, what a call adds to the one log it adds to the other, and both show the same.
pub fn a_log_is_begun_anew()
    ensures honest { BegunIsHonest }
    ensures stays { HonestStays }
    ensures barrier { BarrierBegins }
    ensures added { AddedIsTold }
    ensures same { SameGoesOn }
    ensures part { PartIsEvents }
    ensures left { LeavesTheSame }
    ensures stops { StopsAlike }
{}

/// On a disk that is hurt a log may be restarted, where an open finds the file's own checkpoint, as it does where the four copies were equal and two stand.
pub fn what_is_found_may_begin()
    ensures { HurtMayBegin }
{}
