// What follows from a vote of two: how many are chosen, and which copies are enough.
ghost use Rattle.df_quorum.specs.Laws.{OneLaw, ThreeLaw, TwoLaw, SameLaw};

/// No two contents are chosen of the same copies.
pub fn one_is_chosen()
    ensures { OneLaw }
{}

/// Three copies of a content are enough, whatever the fourth place shows.
pub fn three_equal_are_chosen()
    ensures { ThreeLaw }
{}

/// Two copies of a content are enough where whatever else two copies agree on ranks below it.
pub fn two_newest_are_chosen()
    ensures { TwoLaw }
{}

/// The choice depends on what the four places show, and on nothing else.
pub fn copies_decide()
    ensures { SameLaw }
{}
