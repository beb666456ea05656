// What each writer leaves whole.

ghost use Rattle.df_theory.specs.WholeLaws.{WholeAppendLaw, WholeReplyLaw, WholeBlockLaw, WholeUpdateLaw, StandsLaw};

/// An append leaves nothing to mend.
pub fn append_stays_whole()
    ensures { WholeAppendLaw }
{}

/// A reply leaves nothing to mend.
pub fn reply_stays_whole()
    ensures { WholeReplyLaw }
{}

/// A block leaves nothing to mend.
pub fn block_stays_whole()
    ensures { WholeBlockLaw }
{}

/// A superblock update leaves nothing to mend.
pub fn update_stays_whole()
    ensures { WholeUpdateLaw }
{}

/// While no referenced block is written, each image left shows all of them.
pub fn referenced_blocks_stand()
    ensures { StandsLaw }
{}
