// Where the life of a copied file begins.
ghost use Rattle.df_copy.specs.{Lives.{ShownCopyBegins}, Sample.{CopySampleLaw}};

/// A file that was copied may be taken as it is, and a history begins there.
pub fn a_copied_file_begins()
    ensures { ShownCopyBegins }
{}

/// A copy with a reply and a block is damaged and opened: each premise is met, and so is what the laws of histories say.
pub fn a_damaged_copy_is_opened()
    ensures { CopySampleLaw }
{}
