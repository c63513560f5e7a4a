//! What a relying party holds of a log.

use crate::cosigners::Cosigners;
use crate::lists::{Revoked, Subtrees};
use crate::rules::Rules;
use mtc_io::Bytes;
use tls_wire::AnchorId;

/// What a relying party holds of a log: its id, the issuer name of the certificates that it issues,
/// from which index on its entries name the algorithm of the key, if they do, the cosigners that
/// are known and the rules of how many of them have to have signed, the subtrees whose hashes are
/// trusted, and the ranges of serial numbers that are revoked.
#[derive(Debug, Drop)]
pub struct Store {
    pub log: AnchorId,
    pub name: Bytes,
    pub algorithm_from: Option<u64>,
    pub cosigners: Cosigners,
    pub rules: Rules,
    pub subtrees: Subtrees,
    pub revoked: Revoked,
}
