//! Cases over the streams, the disks, the journals and the file systems.
#![tactic(auto)]

#[cfg(test)]
mod disks;
#[cfg(test)]
mod ends;
#[cfg(test)]
mod files;
#[cfg(test)]
mod journals;
#[cfg(test)]
mod lines;
#[cfg(test)]
mod noted;
#[cfg(test)]
mod order;
#[cfg(test)]
mod others;
#[cfg(test)]
mod readings;
#[cfg(test)]
mod rooms;
#[cfg(test)]
mod streams;
#[cfg(test)]
mod system;
#[cfg(test)]
mod undone;
#[cfg(test)]
mod windows;
