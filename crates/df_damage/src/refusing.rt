// Why an open refuses a disk that may be hurt: laws, each the clause of a function that does nothing.
ghost use Rattle.df_damage.specs.{Refusals.{ProbeIsOfHurt, RefusalsAreOfDamage, RefusalsBlameHurt, SpentIsTheFiles, SuperblockIsHurt}, Unrefused.{FoundIsNotRefused}};

/// With rooms of the file's layout a file is refused for its superblock copies or for a place that is named, and only where some
/// sector of it is hurt. For its boot it is refused only where the file's own is spent.
pub fn refusals_are_of_damage()
    ensures hurt { RefusalsAreOfDamage }
    ensures spent { SpentIsTheFiles }
{}

/// Where the four superblock copies were equal and at most two are hurt, each refusal names a place that is hurt; and always the superblock is
/// named only where a copy of it is.
pub fn refusals_blame_what_is_hurt()
    ensures rest { RefusalsBlameHurt }
    ensures copies { SuperblockIsHurt }
{}

/// A look at the copies alone, as before rooms are taken, finds the layout of the file, or is refused for damage.
pub fn probe_is_of_hurt()
    ensures { ProbeIsOfHurt }
{}

/// An image in which a view is found, whatever was done to it, is refused for no reason.
pub fn found_is_not_refused()
    ensures { FoundIsNotRefused }
{}
