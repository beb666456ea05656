// The laws by which sessions compose, and where a life begins.
ghost use Rattle.df_lifetime.specs.{Life.{EveryLifeGoesOn, EveryLifeIsInOrder, EveryOpenBegins, EveryRunGoesAlong, IdleSessionsLeaveIt}, Acknowledged.{AcknowledgedIsFound}};
ghost use Rattle.df_lifetime.specs.{Copied.{CopiedBegins, MadeIsCopied, StoppedIsCopied}, Upgraded.{DoneIsUpgraded, StoppedIsUpgraded, UpgradedBegins}, NewDisks.{NewDisksAreMadeOn}};

/// A life begins on a disk that was never written; and at the end of any open that answered, whatever was done to the disk before. Whatever life a file has had, of runs of any programs, it is in order, and the next open finds what it has
/// come to: in it is all that was acknowledged in any session of any program. Its log goes along with what the disk tells of each run, also
/// where the disk told more before that log began. A session in which no call was made leaves what it has come to.
pub fn sessions_compose()
    ensures begins { NewDisksAreMadeOn }
    ensures order { EveryLifeIsInOrder }
    ensures goes_on { EveryLifeGoesOn }
    ensures acknowledged { AcknowledgedIsFound }
    ensures along { EveryRunGoesAlong }
    ensures opened { EveryOpenBegins }
    ensures idle { IdleSessionsLeaveIt }
{}

/// A life begins, too, where a file of version 1 was upgraded, with the view that this had, but for the boot: where `upgrade` ended Done,
/// and wherever it was stopped after its barrier. Or the stop left the file of version 1, from which the word may be run again: so there
/// may be any number of stops before a life begins.
pub fn an_upgrade_begins_a_life()
    ensures begins { UpgradedBegins }
    ensures done { DoneIsUpgraded }
    ensures stopped { StoppedIsUpgraded }
{}

/// And one begins where a file was copied to another layout, on a target on which nothing had been written, or where that was stopped once two
/// copies of its superblock agreed; it may be damaged, too, before any number of opens.
pub fn a_copy_begins_a_life()
    ensures begins { CopiedBegins }
    ensures made { MadeIsCopied }
    ensures stopped { StoppedIsCopied }
{}
