// What a refusal of a trailer says of the checkpoints of the theory, as functions with an empty body.
ghost use Rattle.df_checkpoint.specs.Laws.{BadTextIsUnreadable, BrokenIsShown, BrokenIsUnreadable, DamageIsMissed, OneTestFails, ReferencedIsUnreadable, UntrackedIsUnreadable, WholeIsShown};

/// A block that is refused as damaged is one that the theory misses.
pub fn damage_is_missed()
    ensures { DamageIsMissed }
{}

/// What is shown of a trailer fails one test first: the field and the value of its refusal are told by what is shown.
pub fn one_test_fails()
    ensures { OneTestFails }
{}

/// Where a field is refused, no checkpoint of the superblock can be read.
pub fn refused_is_unreadable()
    ensures text { BadTextIsUnreadable }
    ensures referenced { ReferencedIsUnreadable }
    ensures broken { BrokenIsUnreadable }
    ensures pending { UntrackedIsUnreadable }
{}

/// Where a field is refused, each block that is wanted is shown.
pub fn refused_is_shown()
    ensures broken { BrokenIsShown }
    ensures whole { WholeIsShown }
{}
