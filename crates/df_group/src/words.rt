// The same rules as they are told case by case: laws, each the clause of a function that does nothing.
ghost use Rattle.df_group.specs.{Below.{GroupRuleLaw, LostLaw}, Words.{HeadLaw, SurvivorLaw}};

/// A prepare fits its group by what is over so far, and by the prepare before: it begins a group after the checkpoint, after the head
/// that the superblock names, or after the last one of a group; else it goes on with the group of the one before, which isn't the last.
pub fn groups_follow_one_another()
    ensures { GroupRuleLaw }
{}

/// A prepare above the head, of a group of several that begins right after it and of which no header is shown, survived: where no
/// header tells of an op above the head, it is one that was cut off with its group.
pub fn survivors_are_told()
    ensures { SurvivorLaw }
{}

/// The head is what is reached, but where the prepare that is reached last is of a group that isn't over and of which no header is
/// shown: then it is the op before that group. Where nothing is lost by the cases that go with it, it is the end of the last whole group, and
/// nothing is lost after that; and the other way round.
pub fn head_is_told()
    ensures { HeadLaw }
{}

/// Nothing is lost after the end of the last whole group exactly where none of these is so: more is reached and a header of that group
/// is shown, or a header, a prepare that didn't survive, or a reply is of an op above it.
pub fn lost_is_told()
    ensures { LostLaw }
{}
