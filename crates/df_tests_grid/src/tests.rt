// The tests, by theme, and what they make and compare.
mod block_examples;
mod blocks;
mod chain_examples;
mod chains;
mod free_sets;
mod scrubs;
mod trailers;
