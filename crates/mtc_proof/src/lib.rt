//! The proof in a certificate of a Merkle tree (the draft on Merkle Tree Certificates, where it
//! defines `MTCProof`): an interval of the log, the inclusion path of the certificate's entry in
//! it, and signatures of cosigners over the interval's hash. It is read without taking memory, and
//! what is read lies in the bytes of the proof; it is written from its parts. In addition what a
//! cosigner signs, made without taking memory.
#![tactic(auto)]

mod fault;
mod found;
mod input;
pub mod laws;
mod list;
mod proof;
mod reading;
mod reserved;
mod writing;

pub use fault::ProofError;
pub use found::Signatures;
pub use input::{InputBuf, signature_input};
pub use list::{check_signatures, signatures};
pub use proof::{Proof, SigRef};
pub use reading::read_proof;
pub use reserved::ReservedSignature;
pub use writing::{put_signature, write_proof};
