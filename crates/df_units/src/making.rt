// The making of a file on a disk that was never written, in the words of the theory: laws, each the clause of a function that does
// nothing.
ghost use Rattle.df_units.specs.Making.{NewIsMaking, FormatOnDisk};

/// A file may be made on a disk that was never written, also after syncs.
pub fn new_disk_is_making()
    ensures { NewIsMaking }
{}

/// The disk is safe at each moment of a making, and ends with a tidy file that has its first view.
pub fn format_is_survived()
    ensures { FormatOnDisk }
{}
