//! Names of one attribute, and those that logs have as issuers: the attribute holds the id of the
//! log as text, both ways. In addition host names.
#![tactic(auto)]

mod hosts;
pub mod laws;
mod names;
mod reading;
mod writing;

pub use hosts::is_host;
pub use names::name_of;
pub use reading::log_of;
pub use writing::log_name;
