//! Each refusal that a call of the crates answers, as it is displayed: in the words of
//! docs/COMMANDS.md and docs/FORMATS.md.
#![tactic(auto)]

#[cfg(test)]
mod forms;
#[cfg(test)]
mod journals;
#[cfg(test)]
mod roles;
#[cfg(test)]
mod shown;
