//! Commands whose device stops at each of its calls, over a file system in memory: what a crash may
//! leave of the files is opened again, and has the old records or the new ones, as the history of
//! their party has them.
#![tactic(auto)]

#[cfg(test)]
mod cases;
#[cfg(test)]
mod coded;
#[cfg(test)]
mod files;
#[cfg(test)]
mod mirrors;
#[cfg(test)]
mod model;
#[cfg(test)]
mod rebuilding;
#[cfg(test)]
mod stops;
