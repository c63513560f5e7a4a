//! X.509 certificates of version 3 (RFC 5280, section 4.1) in the distinguished encoding rules:
//! reading a certificate as a struct of borrowed fields, with the first fault from the left, and
//! writing one.
//!
//! It is stricter than the standard: serial numbers are below 2 ^ 64, and unique identifiers are
//! refused. It is laxer where the standard leaves a type open: the contents of such an element
//! aren't read, nor are those of the algorithm beside the signature. The order of both times and an
//! empty subject are left to the caller.
//!
//! No clause says how long the comparison of a list's extensions takes, nor that the block that is
//! borrowed for it is filled.
#![tactic(auto)]

mod alt_names;
mod cert;
mod certificate;
mod checks;
mod extensions;
mod identifiers;
mod keys;
pub mod laws;
mod names;
mod parts;
mod repeats;
pub mod tags;
mod times;
mod writing;

pub use alt_names::DnsNames;
pub use cert::Cert;
pub use certificate::{parse, read_version};
pub use checks::{
    check_algorithm, check_extensions, check_name, check_spki, check_validity, check_version,
    is_public_key,
};
pub use extensions::{dns_names, names_of, read_extensions, unknown_critical};
pub use identifiers::{MTC_PROOF, SUBJECT_ALT_NAME};
pub use keys::{key_algorithm, read_algorithm};
pub use names::read_name;
pub use parts::CertParts;
pub use times::read_validity;
pub use writing::write;
