// Why a repair rests on what the copies showed before it: the clause of a function that does nothing.
ghost use Rattle.df_superblock.specs.Misleading.{MisleadsLaw};

/// Where the first image of a log shows a content above its choice at a copy numbered 1 to 3, a repair may be misled to that
/// one much later: it isn't enough that one content is chosen at first.
pub fn a_start_can_mislead()
    ensures { MisleadsLaw }
{}
