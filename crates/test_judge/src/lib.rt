//! Tests of what is issued, of what is judged, and of what is audited of it: store files, request
//! files, certificates, one-time keys and judgements; entries files, exports as they are read, and
//! audits and walks over both.
#![tactic(auto)]

#[cfg(test)]
mod all_keys;
#[cfg(test)]
mod audits;
#[cfg(test)]
mod certificates;
#[cfg(test)]
mod cosigners;
#[cfg(test)]
mod entries;
#[cfg(test)]
mod exports;
#[cfg(test)]
mod fields;
#[cfg(test)]
mod filled;
#[cfg(test)]
mod issuing;
#[cfg(test)]
mod items;
#[cfg(test)]
mod judgements;
#[cfg(test)]
mod lists;
#[cfg(test)]
mod one_time_keys;
#[cfg(test)]
mod quarrels;
#[cfg(test)]
mod records;
#[cfg(test)]
mod requests;
#[cfg(test)]
mod stores;
#[cfg(test)]
mod texts;
#[cfg(test)]
mod walks;
