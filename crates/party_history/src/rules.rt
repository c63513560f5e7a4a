//! The rules of a party's records.

ghost use Rattle.std.specs.Prelude.{◌≡◌, [], ◌∷◌, ◌++◌, IfOk};
ghost use Rattle.party_history.specs.Rules.{may_follow};

use crate::start::{PartyStart, copy_of};
use mtc_io::{Bytes, Memory};
use std::alloc::Global;
use tree_core::TreeHash;

/// Whether these bodies, and one more after them, may follow the record with which a party begins.
pub(crate) fn may_follow<H: TreeHash>(
    alloc: Global,
    start: &PartyStart,
    bodies: &[Bytes],
    body: &[u8],
) -> Result<bool, Memory>
    ensures { IfOk result (λ may. may
        ≡ may_follow H.hash start.now (bodies.now ++ body.now ∷ [])) }
{
    match start {
        PartyStart::Log(settings) => {
            issuance_log::may_follow::<H>(alloc, settings, bodies, body)
        }
        PartyStart::Cosigner {
            settings,
            public: _,
        } => Ok(cosigner_core::may_follow::<H>(settings, bodies, body)),
        PartyStart::Mirror(log) => {
            let log = copy_of(alloc, log)?;
            Ok(mirror_core::may_follow::<H>(log, bodies, body))
        }
    }
}
