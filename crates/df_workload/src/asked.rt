// What a generated run asks for.

/// One command; its body, where it has one that is drawn, is lent by the generator.
#[derive(Clone, Copy, Debug, PartialEq, Eq)]
pub enum Asked {
    /// An append of the drawn body.
    Append { client: u128, request: u64 },
    /// A reply to this op, whose body is the op's number.
    Reply { op: u64 },
    /// The next step of the running checkpoint.
    Step,
    /// A block of kind 1 with the drawn body.
    Block,
    /// The release of this address.
    Release { address: u64 },
    /// A checkpoint whose root is this number.
    Begin { root: u64 },
}
