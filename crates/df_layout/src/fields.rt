// The names of the numbers in a superblock and of the parts of a checkpoint's trailer, as refusals give them.

/// A field that was refused.
#[derive(Clone, Copy, Debug, PartialEq, Eq)]
pub enum Field {
    /// The slots of each ring.
    Slots,
    /// The greatest size of a prepare or a reply, in bytes.
    MessageSize,
    /// The greatest number of sessions.
    Clients,
    /// The size of a block, in bytes.
    BlockSize,
    /// The number of blocks.
    Blocks,
    Cluster,
    Sequence,
    /// The op of the checkpoint.
    Op,
    OpChecksum,
    /// The greatest op at the last update.
    Head,
    /// The number of replies stored at the last update.
    Replies,
    TrailerAddress,
    TrailerChecksum,
    TrailerSize,
    Boot,
    /// Bytes that have to be zero.
    Zero,
    /// The references from one trailer block to another.
    TrailerChain,
    TrailerRoot,
    TrailerSessions,
    TrailerBits,
    /// The end of the trailer's text.
    TrailerEnd,
    /// A session whose reply isn't stored yet.
    Pending,
}
