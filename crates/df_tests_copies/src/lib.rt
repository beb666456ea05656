//! Tests of the superblock: the bytes, the fields and the classes of its copies, of both versions; the choice among them, and the copies
//! over disks in memory: updates, reads, repairs, and a disk that loses writes.
#![tactic(auto)]

#[cfg(test)]
mod tests;
