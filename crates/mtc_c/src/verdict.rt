//! The verdict on a certificate.

ghost use Rattle.std.specs.Prelude.{◌≡◌, ◌<◌, ◌≤◌, length, Ok};
ghost use Rattle.mtc_c.specs.Sizes.{most_cert_bytes};
ghost use Rattle.mtc_c.specs.Verdicts.{IsVerdict, refused, too_long, verdict_of};

use crate::codes::{TOO_LONG_CODE, cert_code, proof_code, refusal_code, store_code};
use crate::size::is_too_long;
use crate::status::{BAD_FORM, DONE, NO_MEMORY, REFUSED, TOO_LONG};
use policy_core::{Accepted, By, Refusal, StoreError, ValidStore};
use relying_party::judge;
use std::alloc::Global;
use tree_core::{Sha, TreeHash};

/// The verdict on a certificate by a store.
#[repr(C)]
#[derive(Clone, Copy, Debug, PartialEq, Eq)]
pub struct Verdict {
    /// 0 where the certificate is accepted, 2 where it or the store isn't in its form, 3 where it
    /// is refused, 8 where memory is refused, 9 where the certificate is too long.
    pub status: u32,
    /// Why it isn't accepted, by the number that the header names, or 0.
    pub refusal: u32,
    /// What belongs to the refusal: an offset, the field of a store, or a rule; or else 0.
    pub number: u64,
    /// The index of the entry in the log, where the certificate is accepted.
    pub index: u64,
    /// The first entry of the subtree that its proof names.
    pub start: u64,
    /// The end of that subtree: the first entry after it.
    pub end: u64,
    /// The cosigners that count: bit i is set for the one at index i of the store. 0 where the
    /// store trusts the subtree itself.
    pub cosigners: u64,
}

// It isn't accepted, for this reason.
fn refused(status: u32, why: (u32, u64)) -> Verdict
    ensures { result ≡ refused status why }
{
    Verdict {
        status,
        refusal: why.0,
        number: why.1,
        index: 0,
        start: 0,
        end: 0,
        cosigners: 0,
    }
}

// It is accepted.
fn accepted(known: &Accepted) -> Verdict
    ensures { result ≡ verdict_of (Ok known.now) }
{
    let cosigners = match known.by {
        By::Landmark => 0,
        By::Cosigners(set) => set,
    };
    Verdict {
        status: DONE,
        refusal: 0,
        number: 0,
        index: known.index,
        start: known.start,
        end: known.end,
        cosigners,
    }
}

fn verdict_of(judged: Result<Accepted, Refusal>) -> Verdict
    ensures { result ≡ verdict_of judged }
{
    match judged {
        Ok(known) => accepted(&known),
        Err(Refusal::Grammar(why)) => refused(BAD_FORM, cert_code(why)),
        Err(Refusal::ProofGrammar(why)) => refused(BAD_FORM, proof_code(why)),
        Err(why) => refused(REFUSED, refusal_code(why)),
    }
}

/// The verdict on a certificate by a store file at a time. Of one that is too long nothing is read,
/// nor of the store.
pub(crate) fn verdict_on(alloc: Global, cert: &[u8], store: &[u8], now: i64) -> Verdict
    ensures long { most_cert_bytes < length cert.now → result ≡ too_long }
    ensures judged { length cert.now ≤ most_cert_bytes
        → IsVerdict ⟦<Sha as TreeHash>⟧.hash cert.now store.now now result }
{
    if is_too_long(cert) {
        return refused(TOO_LONG, TOO_LONG_CODE);
    }
    match ValidStore::read(alloc, store) {
        Ok(trusted) => verdict_of(judge::<Sha>(cert, &trusted, now)),
        Err(StoreError::Memory) => refused(NO_MEMORY, (0, 0)),
        Err(why) => refused(BAD_FORM, store_code(why)),
    }
}
