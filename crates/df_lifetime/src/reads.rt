// The laws of reads on an honest disk.
ghost use Rattle.df_lifetime.specs.Reads.{KeptPreparesAreRead, KeptRepliesAreRead, LiveBlocksAreRead};

/// Each read of a prepare of the tail, of a reply that is stored and of a block that is live is Ok with it.
pub fn what_is_kept_is_read()
    ensures prepares { KeptPreparesAreRead }
    ensures replies { KeptRepliesAreRead }
    ensures blocks { LiveBlocksAreRead }
{}
