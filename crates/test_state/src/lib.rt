//! Cases over state machines: a tally over the journal of its records.
#![tactic(auto)]

#[cfg(test)]
mod tallies;
#[cfg(test)]
mod tally;
