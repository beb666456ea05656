//! Tests of what lies at the edge: numbers, checksums, sources and sinks in bytes, the disk in memory, and the disk over a file.
#![tactic(auto)]

#[cfg(test)]
mod tests;
