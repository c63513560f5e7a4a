//! Tests of keys of two levels, and of what `verify` answers.
#![tactic(auto)]

#[cfg(test)]
mod heights;
#[cfg(test)]
mod known;
#[cfg(test)]
mod refused;
#[cfg(test)]
mod walking;
