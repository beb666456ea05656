// What the code answers where it wants a unit, and what the theory sees there: laws, each the clause of a function that does
// nothing.
ghost use Rattle.df_units.specs.Wanted.{ClassesTell, NoneIsWanted, UnitsAreTold};

/// A place shows no unit exactly where the class of what it shows isn't Stale.
pub fn classes_tell()
    ensures { ClassesTell }
{}

/// A valid unit is the one that is wanted exactly where the theory's unit is; so where the code finds none and answers a
/// class, the theory sees no such unit there.
pub fn wanted_units_are_told()
    ensures told { UnitsAreTold }
    ensures none { NoneIsWanted }
{}
