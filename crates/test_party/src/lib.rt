//! Cases over parties: over logs, over cosigners, over histories of both, and over mirrors, with
//! what they ask of cosigners.
#![tactic(auto)]

#[cfg(test)]
mod appends;
#[cfg(test)]
mod cosigner_openings;
#[cfg(test)]
mod cosigners;
#[cfg(test)]
mod exports;
#[cfg(test)]
mod failures;
#[cfg(test)]
mod histories;
#[cfg(test)]
mod journals;
#[cfg(test)]
mod known;
#[cfg(test)]
mod log_openings;
#[cfg(test)]
mod logs;
#[cfg(test)]
mod lower_trees;
#[cfg(test)]
mod marks;
#[cfg(test)]
mod mirror_steps;
#[cfg(test)]
mod mirrors;
#[cfg(test)]
mod rebuilds;
#[cfg(test)]
mod refusals;
#[cfg(test)]
mod switches;
#[cfg(test)]
mod tiles;
#[cfg(test)]
mod two_levels;
#[cfg(test)]
mod walks;
