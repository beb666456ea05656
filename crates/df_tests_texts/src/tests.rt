// The tests, by theme, and what they make and compare.
mod answers;
mod blocks;
mod grammar;
mod openings;
mod paces;
mod printed;
mod refusals;
mod reports;
mod scripts;
mod tables;
mod workloads;
