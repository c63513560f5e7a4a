//! Tests of items that are read as a stream.
#![tactic(auto)]

#[cfg(test)]
mod folding;
#[cfg(test)]
mod windows;
