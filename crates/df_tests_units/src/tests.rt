// The tests, by theme, and what they make and compare.
mod classes;
mod examples;
mod headers;
mod layouts;
mod room_classes;
mod room_examples;
mod rooms;
mod second_headers;
mod units;
