// The tests, by theme, and what they make and compare.
mod cases;
mod decisions;
mod files;
mod headers;
mod named;
mod reaches;
mod recorded;
mod replies;
mod rings;
mod sessions;
mod stamps;
mod stored;
mod tails;
mod told;
