// The tests, by theme, and what they make and compare.
mod answers;
mod blocks;
mod calls;
mod files;
mod opened;
mod reads;
mod rooms;
mod staged;
mod steps;
mod struck;
