// One line of a script, as its words say it.

/// A line of a script. Its body stands in the buffer that the line was read with, and `length` is the number of the
/// body's bytes.
#[derive(Clone, Copy, Debug, PartialEq, Eq)]
pub enum Line {
    /// `append CLIENT REQUEST BODY`
    Append {
        client: u128,
        request: u64,
        length: u64,
    },
    /// `stage CLIENT REQUEST BODY`
    Stage {
        client: u128,
        request: u64,
        length: u64,
    },
    /// `flush`
    Flush,
    /// `reply OP BODY`
    Reply {
        op: u64,
        length: u64,
    },
    /// `block KIND BODY`
    Block {
        kind: u8,
        length: u64,
    },
    /// `release ADDRESS`
    Release {
        address: u64,
    },
    /// `checkpoint BODY`: the body is the root.
    Checkpoint {
        length: u64,
    },
    /// `step`
    Step,
    /// `prepare OP`
    Prepare {
        op: u64,
    },
    /// `lookup CLIENT`
    Lookup {
        client: u128,
    },
    /// `read ADDRESS`
    Read {
        address: u64,
    },
    /// `scrub`
    Scrub,
    /// `recent`
    Recent,
}
