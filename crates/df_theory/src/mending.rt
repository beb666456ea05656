// How an open mends a file.

ghost use Rattle.df_theory.specs.MendLaws.{MendLaw, MendsWholeLaw};

/// Each moment of the mending of headers and copies.
pub fn mending_keeps()
    ensures { MendLaw }
{}

/// After the mending nothing is left to mend.
pub fn mending_ends_whole()
    ensures { MendsWholeLaw }
{}
