//! A relying party: a trust store is read, and certificates are judged by it. [`accept`] reads a
//! certificate once and answers it with its judgement; [`is_for`] asks whether it has a name.

pub use crate::accepting::{JudgedCert, accept, is_for};
pub use cert_fields::{Cert, DnsNames, dns_names, parse};
pub use cert_time::Validity;
pub use der_core::{CertError, DerError};
pub use hss_core::PUBLIC_KEY_LEN;
pub use mtc_io::{Bytes, Memory};
pub use mtc_proof::{Proof, ProofError};
pub use policy_core::{
    Accepted, By, Cosigners, Indices, Key, Known, MOST_COSIGNERS, Refusal, Revoked, Rule, Rules,
    Store, StoreError, Subtrees, Trusted, ValidStore,
};
pub use relying_party::{judge, judge_cert};
pub use tls_wire::{AnchorBytesError, AnchorError, AnchorId};
pub use tree_core::{EvalError, Sha, Span, TreeHash};
