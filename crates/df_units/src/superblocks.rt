// The choice among the copies and the tests of a superblock are the theory's: laws, each the clause of a function that does
// nothing.
ghost use Rattle.df_units.specs.Superblocks.{ChoiceIsChosen, ChosenIsChoice, SplitIsSplit, UsablePasses, ShownHasChecks, PassingIsUsable};

/// The choice among the four copies is the theory's, and where there is none the theory has none.
pub fn choice_is_chosen()
    ensures chosen { ChoiceIsChosen }
    ensures choice { ChosenIsChoice }
    ensures split { SplitIsSplit }
{}

/// A superblock that is shown can be used exactly where it passes the theory's tests.
pub fn usable_passes()
    ensures passes { UsablePasses }
    ensures checks { ShownHasChecks }
    ensures usable { PassingIsUsable }
{}
