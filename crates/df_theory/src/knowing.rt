// The prepares that a superblock names by their checksums, and what an open refuses of them.

ghost use Rattle.df_theory.specs.ViewLaws.{FirstVersionLaw, FoundKnownLaw, KnownEndsLaw, OneKnownLaw};

/// The step on named prepares names one op.
pub fn one_known_op_is_named()
    ensures { OneKnownLaw }
{}

/// It refuses nothing that is found.
pub fn found_is_known()
    ensures { FoundKnownLaw }
{}

/// Where all that are named are shown, the last of them is the one at the pin.
pub fn known_prepares_end_at_the_pin()
    ensures { KnownEndsLaw }
{}

/// A file of version 1 has no such step, and its boot is never spent.
pub fn first_version_names_no_more()
    ensures { FirstVersionLaw }
{}
