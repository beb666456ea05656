// One list of lawful parts has one text, and one text has one list of parts.
ghost use Rattle.df_trailer.specs.Laws.{PartsLaw, TextLaw, CodecLaw, RefusalLaw, SizeLaw};

/// The text of lawful parts is read as these parts, and nothing in it fails.
pub fn parts_have_one_text()
    ensures { PartsLaw }
{}

/// What is read of a text in which nothing fails is lawful, and its text is that text.
pub fn text_has_one_parts()
    ensures { TextLaw }
{}

/// The spelling is one that the machine of the replica's commands can work with.
pub fn spelling_is_a_codec()
    ensures { CodecLaw }
{}

/// What fails in a text, whatever comes after it, is the first part that fails in each longer text.
pub fn refusals_stay()
    ensures { RefusalLaw }
{}

/// How long a text is: what `blocks_needed` counts with.
pub fn sizes_are_exact()
    ensures { SizeLaw }
{}
