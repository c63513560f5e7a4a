//! Tests of the program over a file system in memory: the arguments of commands, and what each
//! command answers to its files and leaves of them; executions of runs and stops, each beside the
//! history that it is. Then drills, and what is counted again of what they answer.
#![tactic(auto)]

#[cfg(test)]
mod audits;
#[cfg(test)]
mod batch_bounds;
#[cfg(test)]
mod batches;
#[cfg(test)]
mod blocks;
#[cfg(test)]
mod certificates;
#[cfg(test)]
mod cosigners;
#[cfg(test)]
mod desk;
#[cfg(test)]
mod devices;
#[cfg(test)]
mod difference;
#[cfg(test)]
mod drill_audits;
#[cfg(test)]
mod drill_replays;
#[cfg(test)]
mod drill_summary;
#[cfg(test)]
mod drills;
#[cfg(test)]
mod execution;
#[cfg(test)]
mod execution_desk;
#[cfg(test)]
mod execution_draws;
#[cfg(test)]
mod execution_party;
#[cfg(test)]
mod execution_plans;
#[cfg(test)]
mod execution_records;
#[cfg(test)]
mod execution_stops;
#[cfg(test)]
mod executions;
#[cfg(test)]
mod exports;
#[cfg(test)]
mod hashes;
#[cfg(test)]
mod logs;
#[cfg(test)]
mod marks;
#[cfg(test)]
mod mirror_devices;
#[cfg(test)]
mod mirrors;
#[cfg(test)]
mod one_file;
#[cfg(test)]
mod quarrels;
#[cfg(test)]
mod scripts;
#[cfg(test)]
mod switches;
#[cfg(test)]
mod texts;
#[cfg(test)]
mod tiles;
#[cfg(test)]
mod trust;
#[cfg(test)]
mod two_levels;
#[cfg(test)]
mod watching;
#[cfg(test)]
mod words;
