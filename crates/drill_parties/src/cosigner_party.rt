//! A cosigner of a drill on its device.

ghost use Rattle.std.specs.Prelude.{◌≡◌, ◌∷◌, ◌++◌, [], false, Some};
ghost use Rattle.cosigner_core.specs.Words.{cosigner_broken, cosigner_disk, cosigner_records};
ghost use Rattle.cosigner_core.specs.Words.{cosigner_state};
ghost use Rattle.drill_parties.specs.CosignerParties.{IsCosignerDisk, IsCosignerDisk-prop};
ghost use Rattle.drill_parties.specs.Disks.{records_on};

use crate::cosigner_calls::{CosignerCall, call_cosigner};
use crate::stops::Stops;
use cosigner_core::Cosigner;
use disk_core::MemDisk;
use hss_core::{PUBLIC_KEY_LEN, SigBuf};
use mtc_io::Memory;
use std::alloc::Global;
use tls_wire::AnchorId;
use tree_core::TreeHash;

/// A cosigner, open on a device in memory that holds what it shows, whatever stops; and the stops
/// that were made in its calls.
pub struct CosignerParty<H: TreeHash> {
    pub(crate) cosigner: Cosigner<H, MemDisk>,
    pub(crate) stops: Stops,
    ghost sound: { cosigner_broken cosigner ≡ false },
    ghost is_durable: { cosigner_records cosigner ≡ Some (records_on (cosigner_disk cosigner)) },
    ghost stands: { IsCosignerDisk H.TreeHash.hash (cosigner_state cosigner)
        (cosigner_disk cosigner) } by { IsCosignerDisk-prop H.TreeHash.hash
            (cosigner_state cosigner) (cosigner_disk cosigner) },
}

// A drop in one step: a derived one is proved field by field wherever a party is dropped.
impl<H: TreeHash> Drop for CosignerParty<H> {
    fn drop(self) {
        let CosignerParty {
            cosigner: _,
            stops: _,
        } = self;
    }
}

impl<H: TreeHash> CosignerParty<H> {
    ghost use Rattle.hss_keys.specs.Keys.{public_of};
    ghost use Rattle.std.specs.Prelude.{IfOk};
    ghost use Rattle.drill_parties.specs.CosignerCalls.{IsNumbered, IsSignature, body_called};
    ghost use Rattle.drill_parties.specs.CosignerCalls.{cosigner_after};
    ghost use Rattle.drill_parties.specs.CosignerViews.{cosigner_shown, cosigner_stops};
    ghost use Rattle.drill_parties.specs.CosignerViews.{records_shown};

    /// Its id.
    pub fn id(&self, alloc: Global) -> Result<AnchorId, Memory>
        ensures { IfOk result (λ id. id ≡ (cosigner_shown self.now).id) }
    {
        match AnchorId::from_bytes(alloc, self.cosigner.id().as_bytes()) {
            Ok(id) => Ok(id),
            // These bytes are an anchor id, so memory was refused.
            Err(_) => Err(Memory),
        }
    }

    /// Its public key.
    pub fn public(&self) -> [u8; PUBLIC_KEY_LEN]
        ensures { result ≡ public_of (cosigner_shown self.now).key.key }
    {
        self.cosigner.public()
    }

    /// The call without a stop.
    pub(crate) fn done(
        self,
        call: &CosignerCall<'_>,
        out: &mut SigBuf,
    ) -> Result<CosignerParty<H>, Memory>
        ensures state { IfOk result (λ it. cosigner_shown it
            ≡ cosigner_after (cosigner_shown self) call.now) }
        ensures records { IfOk result (λ it. records_shown it
            ≡ records_shown self ++ body_called (cosigner_shown self) call.now ∷ []) }
        ensures signed { IfOk result (λ it. IsSignature (cosigner_shown self) call.now out.new) }
        ensures numbered { IfOk result (λ it. IsNumbered (cosigner_shown self) call.now) }
        ensures stops { IfOk result (λ it. cosigner_stops it ≡ cosigner_stops self) }
    {
        let CosignerParty {
            mut cosigner,
            stops,
        } = self;
        if call_cosigner(&mut cosigner, call, out)? {
            Ok(CosignerParty { cosigner, stops })
        } else {
            Err(Memory)
        }
    }

    /// Its device, and the stops so far.
    pub(crate) fn into_disk(self) -> (MemDisk, Stops)
        ensures disk { result.0 ≡ cosigner_disk self.cosigner }
        ensures stops { result.1 ≡ self.stops }
    {
        let CosignerParty { cosigner, stops } = self;
        (cosigner.into_disk(), stops)
    }
}
