//! Tests of the grid and its parts: the free set, the text of a trailer, blocks over a disk in memory, the scrubber's tours, and
//! trailers as chains of blocks, which are written and read again, or which nobody wrote.
#![tactic(auto)]

#[cfg(test)]
mod tests;
