// What the units of the theory tell of those of the file: laws, each the clause of a function that does nothing.
ghost use Rattle.df_units.specs.Tells.{ChecksumsAreNumbers, NoChecksumIsZero, FirstByteIsLowest, TrailersTell, SectorPuts, ReservedArePut, TableIsPut};

/// Checksums are equal exactly where their numbers are; zeros are 0, and the first byte is the lowest.
pub fn checksums_are_numbers()
    ensures same { ChecksumsAreNumbers }
    ensures zeros { NoChecksumIsZero }
    ensures order { FirstByteIsLowest }
{}

/// A block is a trailer block exactly where it has a sequence, and exactly where it has kind 0.
pub fn trailers_tell()
    ensures { TrailersTell }
{}

/// What a header sector puts: its headers, those of a table, or reserved ones.
pub fn header_sectors_tell()
    ensures puts { SectorPuts }
    ensures reserved { ReservedArePut }
    ensures table { TableIsPut }
{}
