// Which units each kind of write puts: laws, each the clause of a function that does nothing.
ghost use Rattle.df_units.specs.Puts.{PrepareIsPut, ReplyIsPut, BlockIsPut, CopyIsPut, HeadersArePut, OneHeaderIsNew};

/// The sectors of a prepare, written into its slot, put that prepare and touch nothing else.
pub fn prepare_is_put()
    ensures { PrepareIsPut }
{}

/// The sectors of a reply, written into its session's slot, put that reply.
pub fn reply_is_put()
    ensures { ReplyIsPut }
{}

/// The sectors of a block or a trailer block, written at its address, put that block.
pub fn block_is_put()
    ensures { BlockIsPut }
{}

/// A copy of the superblock, written at its place, puts that copy.
pub fn copy_is_put()
    ensures { CopyIsPut }
{}

/// Sixteen headers, written as one sector, put each of them in its slot; where one of them is new and the others are those
/// that are shown, nothing changes but its slot.
pub fn headers_are_put()
    ensures all { HeadersArePut }
    ensures one { OneHeaderIsNew }
{}
