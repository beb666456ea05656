// A file that meets every premise.

ghost use Rattle.df_theory.specs.Sample.{SampleLaw, StopSampleLaw, UpdateSampleLaw, HurtSampleLaw, SurvivorSampleLaw, UpgradeSampleLaw};

/// A file is made, appended to, answered, written to, checkpointed, and appended to again.
pub fn a_file_is_kept()
    ensures { SampleLaw }
{}

/// A stop within an append leaves the view before it or the view after it.
pub fn a_stop_is_survived()
    ensures { StopSampleLaw }
{}

/// A stop within a superblock update leaves the view before it, and is mended.
pub fn a_stopped_update_is_mended()
    ensures { UpdateSampleLaw }
{}

/// A lost prepare is blamed on its slot.
pub fn a_hurt_slot_is_blamed()
    ensures { HurtSampleLaw }
{}

/// A stop within a group leaves a part of it above the head, and its op is written anew.
pub fn a_survivor_is_passed_over()
    ensures { SurvivorSampleLaw }
{}

/// An upgrade goes on from a copy above the choice, and a stop may leave that copy there.
pub fn an_unclean_file_is_upgraded()
    ensures { UpgradeSampleLaw }
{}
