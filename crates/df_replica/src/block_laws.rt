// What becomes of blocks over calls, as the clause of a function that does nothing.
ghost use Rattle.df_replica.specs.HeldBlocks.{HeldBlocksAreShown};

/// A block that is written is shown until its address is free: as long as it is live, or the running or the durable checkpoint
/// references it, its address shows it, and a read by its checksum gives it.
pub fn held_blocks_are_shown()
    ensures { HeldBlocksAreShown }
{}
