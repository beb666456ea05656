// What is proved of places holds of sectors.

ghost use Rattle.df_theory.specs.DeviceLaws.{ShownLaw, SettledLaw, PutLaw, PutShownLaw, UnitMomentsLaw, DiskStopLaw, DiskBarrierLaw, StepsJoinLaw, NewDiskLaw, SafeDiskLaw, DiskLaw, MomentsLaw, RunMomentsLaw, TidyMomentsLaw, StandingMomentsLaw, SafeMomentsLaw};

/// A write puts what it shows at the places that it touches, and a write of whole units is a write of units.
pub fn write_is_put()
    ensures put { PutLaw }
    ensures shown { PutShownLaw }
{}

/// What an honest disk shows are the units of its log, and what was settled of it are theirs.
pub fn disk_shows_its_units()
    ensures shown { ShownLaw }
    ensures settled { SettledLaw }
{}

/// A new disk is the blank log.
pub fn new_disk_is_blank()
    ensures { NewDiskLaw }
{}

/// A safe log of units is a safe log of sectors.
pub fn safe_units_are_safe_sectors()
    ensures { SafeDiskLaw }
{}

/// A good log of units is a good log of sectors.
pub fn good_units_are_good_sectors()
    ensures { DiskLaw }
{}

/// Device calls that are the steps of a command have at each moment what the steps have.
pub fn steps_are_moments()
    ensures { MomentsLaw }
{}

/// So has each moment what the steps have of the units, and steps follow one another.
pub fn steps_keep_units()
    ensures moments { UnitMomentsLaw }
    ensures join { StepsJoinLaw }
{}

/// A stop of a safe disk leaves its log resting on the view that is held then, and the barrier of an open on the view that is found.
pub fn stopped_disk_rests()
    ensures stop { DiskStopLaw }
    ensures barrier { DiskBarrierLaw }
{}

/// Device calls that are the steps of a run of commands.
pub fn commands_are_moments()
    ensures { RunMomentsLaw }
{}

/// Device calls that are the steps of a command from one tidy file to the next, and while referenced blocks stand.
pub fn tidy_command_is_moments()
    ensures tidy { TidyMomentsLaw }
    ensures standing { StandingMomentsLaw }
{}

/// Device calls that are the steps of a format.
pub fn format_is_moments()
    ensures { SafeMomentsLaw }
{}
