//! Tests of the zones but for the grid, over disks in memory: header sectors, client replies, sessions, the decision on a slot and the
//! evidence of newer states; groups over plain headers, how far prepares go on and what one above the end of the last whole group says;
//! the calls of a scan, appends that are found again, and what is decided where something of them was lost.
#![tactic(auto)]

#[cfg(test)]
mod tests;
