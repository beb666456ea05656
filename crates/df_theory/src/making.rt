// How a file is made.

ghost use Rattle.df_theory.specs.MakingLaws.{BlankLaw, SecondCopyLaw, FormatLaw, MakingSyncLaw};

/// A blank disk is safe, and a file may be made on it.
pub fn blank_is_safe()
    ensures { BlankLaw }
{}

/// A sync keeps a file in its making: it may begin on a disk that was only synced.
pub fn sync_keeps_making()
    ensures { MakingSyncLaw }
{}

/// The second superblock copy gives the file its first view.
pub fn second_copy_begins()
    ensures { SecondCopyLaw }
{}

/// A format is safe at each moment and ends with the first view.
pub fn format_begins()
    ensures { FormatLaw }
{}
