//! Tests of layouts and units: where places stand, the bytes and classes of headers and units, and the rooms of units.
#![tactic(auto)]

#[cfg(test)]
mod tests;
