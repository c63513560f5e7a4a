//! Tests of what is read and written byte by byte: of `tls_wire`, `der_core`, `cert_time`,
//! `cert_names`, `cert_fields` and `log_entry`.
#![tactic(auto)]

#[cfg(test)]
mod anchors;
#[cfg(test)]
mod certificates;
#[cfg(test)]
mod elements;
#[cfg(test)]
mod entries;
#[cfg(test)]
mod extensions;
#[cfg(test)]
mod forms;
#[cfg(test)]
mod names;
#[cfg(test)]
mod times;
#[cfg(test)]
mod wire;
