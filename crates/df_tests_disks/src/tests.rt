// The tests, by theme, and what they make and compare.
mod bytes;
mod dropping;
mod files;
mod guarded;
mod memory;
mod rows;
mod streams;
