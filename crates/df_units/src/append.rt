// An append on a disk, in the words of the theory: a law, the clause of a function that does nothing.
ghost use Rattle.df_units.specs.Append.{AppendOnDisk};

/// An append leads from a tidy file to a tidy file: whatever a stop leaves at any moment has the view before it or after it, and
/// where the referenced blocks stood, they stand.
pub fn append_is_survived()
    ensures { AppendOnDisk }
{}
