// Laws of every copy of the superblock, sector and image, each the clause of a function that does nothing.
ghost use Rattle.df_format.specs.CopyLaws.{CopiesHaveOneSpelling, NamelessEndsInZeros, WrittenCopyIsShown, OtherSectorsStay, OtherCopiesStay, CopyIsOneSector, SameSectorSameCopy, ValidCopyIsStale, StaleIsCopy, BlankShowsNoCopy};

/// A sector is read as a copy with zeros where its version has no fields exactly where it is that copy's spelling.
pub fn copies_have_one_spelling()
    ensures { CopiesHaveOneSpelling }
{}

/// A copy that names nothing, as each of version 1, is spelled with zeros in place of the names.
pub fn nameless_copy_ends_in_zeros()
    ensures { NamelessEndsInZeros }
{}

/// A copy that is written is shown at its own place; it is one sector, so that the others and what they show stay.
pub fn written_copy_is_shown()
    ensures shown { WrittenCopyIsShown }
    ensures fits { CopyIsOneSector }
    ensures sectors { OtherSectorsStay }
    ensures others { OtherCopiesStay }
{}

/// What a copy's place shows depends on its sector alone.
pub fn same_sector_same_copy()
    ensures { SameSectorSameCopy }
{}

/// A copy that is valid at its place is stale where it isn't the one wanted, neither blank nor elsewhere; and nothing else
/// is stale.
pub fn valid_copy_is_stale()
    ensures valid { ValidCopyIsStale }
    ensures stale { StaleIsCopy }
{}

/// A blank image shows no copy.
pub fn blank_shows_no_copy()
    ensures { BlankShowsNoCopy }
{}
