// What the code reads of a place is the unit that the theory sees there: laws, each the clause of a function that does nothing.
ghost use Rattle.df_units.specs.Shown.{ReadIsUnit, HeaderReadIsUnit, CopyReadIsUnit, UnbootedAreAlone, UnitsAreOfPlaces};

/// The unit that the bytes of a place are is the one that the image shows there.
pub fn read_is_unit()
    ensures slot { ReadIsUnit }
    ensures header { HeaderReadIsUnit }
    ensures copy { CopyReadIsUnit }
{}

/// Each unit that is shown is of the kind of its place, in its own slot, with its fields in their ranges; a prepare that
/// no boot made is a group by itself.
pub fn units_are_of_places()
    ensures places { UnitsAreOfPlaces }
    ensures alone { UnbootedAreAlone }
{}
