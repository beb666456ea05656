// A header sector with one new header, as a sample of what writes put: laws, each the clause of a function that does nothing.
ghost use Rattle.df_units.specs.Sample.{OneOfSixteenIsNew, ReservedIsUnit, SampleTableIsWritten};

/// Headers that are valid in their slots may be written, sixteen at a time; so may reserved headers.
pub fn tables_are_written()
    ensures table { SampleTableIsWritten }
    ensures reserved { ReservedIsUnit }
{}

/// Where a sector of reserved headers is written, and then again with one new header in it, the new one is shown in its slot,
/// and the fifteen reserved ones in theirs.
pub fn one_of_sixteen_is_new()
    ensures { OneOfSixteenIsNew }
{}
