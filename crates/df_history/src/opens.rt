// What an open gives after damage before any number of opens, and that the history goes on.

ghost use Rattle.df_history.specs.{Upgraded.{StoppedUpgradeLaw, UpgradedLaw}, Awakened.{GrownLivedLaw, RaiseLivedLaw, SafeLivedLaw}};
ghost use Rattle.df_history.specs.OpenLaws.{AwakeLivedLaw, BeginsLaw, BootLivedLaw, ChoiceStaysLaw, FirstGrownLaw, FirstLivedLaw, FoundSinceLaw, MendLivedLaw, OpenLivedLaw, RestLivedLaw};

/// What an open finds was had since the last log that raised its boot.
pub fn found_since_the_last_boot()
    ensures { FoundSinceLaw }
{}

/// Whatever else is hurt, the superblock that is chosen is that of the log before, and no copy can mislead a repair.
pub fn choice_stays()
    ensures { ChoiceStaysLaw }
{}

/// The log that is begun at what an open found rests on that view, and the history with it is lived.
pub fn history_goes_on()
    ensures { BeginsLaw }
{}

/// It is lived at each moment of the mending.
pub fn mending_stays_lived()
    ensures { MendLivedLaw }
{}

/// It is lived at each moment of the boot update, whose bare view is one.
pub fn boot_stays_lived()
    ensures { BootLivedLaw }
{}

/// It is lived at each moment of whatever keeps the log safe, once the boot is raised.
pub fn commands_stay_lived()
    ensures { AwakeLivedLaw }
{}

/// And once the boot is raised it is lived however that log grows as it should, and at each moment at which it is safe, whatever was
/// done in between.
pub fn raised_log_stays_lived()
    ensures raised { RaiseLivedLaw }
    ensures grown { GrownLivedLaw }
    ensures safe { SafeLivedLaw }
{}

/// All of it: an open at each moment, and what follows it.
pub fn open_stays_lived()
    ensures { OpenLivedLaw }
{}

/// It stays lived by a sync and by any stop wherever its newest log rests on a view.
pub fn rest_stays_lived()
    ensures { RestLivedLaw }
{}

/// A log that grew from the empty image is a history, and where it is safe it stays so by a sync and by any stop.
pub fn first_log_is_lived()
    ensures grown { FirstGrownLaw }
    ensures safe { FirstLivedLaw }
{}

/// A history begins at the image that an upgrade left.
pub fn upgraded_file_begins()
    ensures { UpgradedLaw }
{}

/// From a clean start it begins too where the upgrade was stopped.
pub fn stopped_upgrade_begins()
    ensures { StoppedUpgradeLaw }
{}
