// What a reader answers for the next line.

/// What comes next in a script of this kind of lines.
#[derive(Clone, Copy, Debug, PartialEq, Eq)]
pub enum Next<L> {
    /// A line of the script. Its body is at the front of the reader's body buffer.
    Line(L),
    /// The next line is no line of a script, is longer than the bound, or is past the budget.
    Refused,
    /// The script has no further line.
    End,
}
