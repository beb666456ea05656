// What is found after damage before any number of opens: laws, each the clause of a function that does nothing.
ghost use Rattle.df_lifetime.specs.{Again.{EveryLifeIsLived, EveryOpenFindsSince, LifeBeginsAnew, OtherWordsLeaveIt, RunsKeepSince, UpgradedMayBeDamaged}, Mending.{MendedLifeGoesOn}};

/// Whatever sessions, stops and damage a file has had, while two superblock copies were spared before each open, and all four after
/// an update that was stopped: an open that finds a state finds one that the file had since the last open that raised its boot. From
/// there on each session keeps what it answers, and the next open finds it as long as nothing more is hurt; and where each block stands
/// that is referenced, a life begins anew.
pub fn a_damaged_life_goes_on()
    ensures upgraded { UpgradedMayBeDamaged }
    ensures lived { EveryLifeIsLived }
    ensures since { EveryOpenFindsSince }
    ensures others { OtherWordsLeaveIt }
    ensures anew { LifeBeginsAnew }
    ensures runs { RunsKeepSince }
{}

/// What a life had come to before its file was damaged is found again after a run of `filemirror` that ended Done or Found, with all that was
/// acknowledged: where known units alone were hurt and two superblock copies were spared, and the last open came to its end, or no reply
/// came back.
pub fn a_mended_life_goes_on()
    ensures { MendedLifeGoesOn }
{}
