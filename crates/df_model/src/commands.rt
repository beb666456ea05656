// The calls of a replica as plain data: what is asked, and what is answered.
use crate::{
    AppendError, BeginError, BlockError, FlushError, LookupError, NotLive, PrepareError, Progress,
    ReadError, Receipt, ReplyError, Scrubbed, StepError,
};
use df_base::Check;
use df_format::Reference;

/// One call of a replica; bodies and roots are lent.
#[derive(Clone, Copy, Debug, PartialEq, Eq)]
pub enum Command<'a> {
    /// Appends a client's next request as a prepare.
    Append {
        client: u128,
        request: u64,
        body: &'a [u8],
    },
    /// Stages a client's next request, to be appended with the next flush.
    Stage {
        client: u128,
        request: u64,
        body: &'a [u8],
    },
    /// Appends all that is staged as one group of prepares.
    Flush,
    /// Stores the reply to this op.
    Reply {
        op: u64,
        body: &'a [u8],
    },
    /// Writes a block of this kind, not 0, at the least address that isn't held.
    WriteBlock {
        kind: u8,
        body: &'a [u8],
    },
    /// Gives up the block at this address.
    Release {
        address: u64,
    },
    /// Begins a checkpoint with this root.
    Begin {
        root: &'a [u8],
    },
    /// Does the next step of the running checkpoint.
    Advance,
    /// Reads the prepare with this op.
    ReadPrepare {
        op: u64,
    },
    /// Reads the reply to this client's last request.
    ReadReply {
        client: u128,
    },
    /// Reads the block at this address.
    ReadBlock {
        address: u64,
    },
    /// Checks the next referenced block.
    Scrub,
    /// Asks for the findings of the ring, the oldest first.
    Recent,
}

/// What a call answers; the unit that was read, and the findings of the ring, are lent by the call itself.
#[derive(Clone, Copy, Debug, PartialEq, Eq)]
pub enum Answer {
    Append(Result<Receipt, AppendError>),
    /// The op that the request is to get.
    Stage(Result<u64, AppendError>),
    /// How many prepares were appended.
    Flush(Result<u64, FlushError>),
    /// The checksum of the reply's header.
    Reply(Result<Check, ReplyError>),
    WriteBlock(Result<Reference, BlockError>),
    Release(Result<(), NotLive>),
    /// How many blocks the trailer has.
    Begin(Result<u64, BeginError>),
    Advance(Result<Progress, StepError>),
    ReadPrepare(Result<(), PrepareError>),
    ReadReply(Result<(), LookupError>),
    ReadBlock(Result<(), ReadError>),
    Scrub(Scrubbed),
    Recent,
}
