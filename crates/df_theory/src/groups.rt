// Groups of prepares, of which a stop may leave a part.

ghost use Rattle.df_theory.specs.GroupLaws.{AloneLaw, ClearLaw, ClearSlotLaw, FlushRingLaw, GroupRuleLaw, LostLaw, TidyBootLaw, TidyFlushLaw, WalkLaw};

/// In a file without boots nothing survives a stop but whole prepares.
pub fn nothing_survives_without_boots()
    ensures settled { ClearLaw }
    ensures slots { ClearSlotLaw }
{}

/// What the walk of an open comes to is the tail.
pub fn walk_ends_the_tail()
    ensures walk { WalkLaw }
    ensures alone { AloneLaw }
{}

/// A prepare fits its group by what is over so far, and by the prepare before.
pub fn groups_follow_one_another()
    ensures { GroupRuleLaw }
{}

/// An op above the head is lost in these cases.
pub fn lost_case_by_case()
    ensures { LostLaw }
{}

/// A group leads from one tidy file to the next, whose header ring shows its table.
pub fn flush_leads_tidily()
    ensures tidy { TidyFlushLaw }
    ensures ring { FlushRingLaw }
{}

/// A boot update leads from a mended file to a tidy one, whatever survived.
pub fn boot_leads_tidily()
    ensures { TidyBootLaw }
{}
