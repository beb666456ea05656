//! Tests of what a survey finds in files of version 2, which are forged byte by byte on a disk in memory: named prepares and replies, boots,
//! groups, and how many calls it makes.
#![tactic(auto)]

#[cfg(test)]
mod forged;
#[cfg(test)]
mod groups;
#[cfg(test)]
mod rows;
