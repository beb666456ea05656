// What is wrong with a text: the first row of the table of tests that holds, and why it does.
use df_layout::Field;

/// A part of a trailer's text that fails.
#[derive(Clone, Copy, Debug, PartialEq, Eq)]
pub struct Fault {
    /// `TrailerRoot`, `TrailerSessions`, `TrailerBits` or `TrailerEnd`.
    pub field: Field,
    /// What the text says there, the place of a session, or an offset in the text.
    pub value: u64,
}

/// Why a part fails.
#[derive(Clone, Copy, Debug, PartialEq, Eq)]
pub(crate) enum Cause {
    /// The text ends too early or too late: more of it could still mend that.
    Ends,
    /// The text says what it may not say, whatever comes after it.
    Says,
}

/// A part that fails, and why.
#[derive(Clone, Copy, Debug, PartialEq, Eq)]
pub(crate) struct Failing {
    pub cause: Cause,
    pub fault: Fault,
}
