//! Tests of monitors, of their texts and of the peaks that they keep.
#![tactic(auto)]

#[cfg(test)]
mod growing;
#[cfg(test)]
mod known;
#[cfg(test)]
mod reading;
#[cfg(test)]
mod running;
