// The tests, by theme, and what they make and compare.
mod choices;
mod copies;
mod room_copies;
mod second_superblocks;
mod super_examples;
mod superblocks;
mod updates;
