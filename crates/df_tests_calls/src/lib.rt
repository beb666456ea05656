//! Tests of a replica's calls over files on a disk in memory: their answers and refusals, how many device calls each makes, and what
//! the reads lend, byte by byte, and tell of sectors that were struck. Stops and faults within them are told by transcripts.
#![tactic(auto)]

#[cfg(test)]
mod tests;
