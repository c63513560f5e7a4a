//! Laws of the program, which it doesn't call: of its runs, of executions of runs, power cuts and
//! kills, and the promise as a whole; of files in memory; of what `cert`, `light-cert` and `verify`
//! print; that what is issued is accepted; of what mirrors take and have their cosigners add, and
//! that both agree; of monitors, and of recorded signatures in conflict.
//!
//! No clause says which device of a real system stops when a program is killed: of real files it is
//! supposed that they stop taking calls.
#![tactic(auto)]

pub mod certificates;
pub mod killed;
pub mod laws;
pub mod lists;
pub mod mirrors;
pub mod monitors;
pub mod recorded;
