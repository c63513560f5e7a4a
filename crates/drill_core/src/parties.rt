//! The parties of a drill, and what they have made so far. They are taken apart here alone.

ghost use Rattle.std.specs.Prelude.{◌≡◌, ◌≤◌, ◌+◌, ◌^◌, [], ◌∷◌, length, IfOk};
ghost use Rattle.issuance_log.specs.Folds.{with_mark};
ghost use Rattle.drill_parties.specs.Cosigners.{IsAdvanced, Paired};
ghost use Rattle.drill_parties.specs.Rounds.{stops_in};
ghost use Rattle.drill_core.specs.DrillOutputs.{IsOutputOf};
ghost use Rattle.drill_core.specs.LightStores.{IsDue};
ghost use Rattle.drill_core.specs.LogParties.{log_shown};
ghost use Rattle.drill_core.specs.Played.{AreReady, all_stops, issued_to, log_root};

use crate::log_party::LogParty;
use crate::made::{Certs, Counts, DrillOutput};
use crate::output::log_out;
use crate::play::{grown, marked};
use drill_parties::{Cosigners, Turn, Turns};
use mtc_io::{Bytes, Memory};
use policy_core::ValidStore;
use std::alloc::Global;
use tree_core::TreeHash;

/// The log and its cosigners; the store of a relying party that knows them; the certificates of the
/// rounds; how many of them it accepted by all cosigners; how many audits of them stood; and how
/// many certificates without signatures were accepted.
pub(crate) struct DrillParties<H: TreeHash> {
    pub(crate) log: LogParty<H>,
    pub(crate) cosigners: Cosigners<H>,
    pub(crate) store: ValidStore,
    pub(crate) certs: Vec<Bytes>,
    pub(crate) verified: u64,
    pub(crate) stands: u64,
    pub(crate) light: u64,
}

// A drop in one step: a derived one is proved field by field wherever the parties are dropped.
impl<H: TreeHash> Drop for DrillParties<H> {
    fn drop(self) {
        let DrillParties {
            log: _,
            cosigners: _,
            store: _,
            certs: _,
            verified: _,
            stands: _,
            light: _,
        } = self;
    }
}

impl<H: TreeHash> DrillParties<H> {
    /// The log issues an entry for each turn, and each cosigner holds its root.
    pub(crate) fn grow(
        self,
        alloc: Global,
        entries: &Turns,
        turns: &Turns,
    ) -> Result<DrillParties<H>, Memory>
        requires some { 1 ≤ length entries.now }
        requires ready { AreReady self }
        requires turns { length turns.now ≡ 3 }
        ensures log { IfOk result (λ it. log_shown it.log
            ≡ issued_to H.hash (length entries.now) (log_shown self.log)) }
        ensures each { IfOk result (λ it. Paired (IsAdvanced (length (log_shown it.log).entries)
            (log_root H.hash (log_shown it.log))) self.cosigners.parties.items
            it.cosigners.parties.items) }
        ensures stops { IfOk result (λ it. all_stops it ≡ all_stops self + stops_in entries.now
            + stops_in turns.now) }
        ensures store { IfOk result (λ it. it.store ≡ self.store) }
        ensures certs { IfOk result (λ it. it.certs ≡ self.certs) }
        ensures verified { IfOk result (λ it. it.verified ≡ self.verified) }
        ensures stands { IfOk result (λ it. it.stands ≡ self.stands) }
        ensures light { IfOk result (λ it. it.light ≡ self.light) }
    {
        let DrillParties {
            log,
            cosigners,
            store,
            certs,
            verified,
            stands,
            light,
        } = self;
        let (log, cosigners) = grown(alloc, log, cosigners, entries, turns)?;
        Ok(DrillParties {
            log,
            cosigners,
            store,
            certs,
            verified,
            stands,
            light,
        })
    }

    /// A landmark is set, and the certificate of the newest entry without signatures judged.
    pub(crate) fn mark(self, alloc: Global, turn: Turn) -> Result<DrillParties<H>, Memory>
        requires { self.light ≤ 15 }
        ensures log { IfOk result (λ it. log_shown it.log ≡ with_mark (log_shown self.log)) }
        ensures cosigners { IfOk result (λ it. it.cosigners ≡ self.cosigners) }
        ensures stops { IfOk result (λ it. all_stops it ≡ all_stops self + stops_in (turn ∷ [])) }
        ensures store { IfOk result (λ it. it.store ≡ self.store) }
        ensures certs { IfOk result (λ it. it.certs ≡ self.certs) }
        ensures verified { IfOk result (λ it. it.verified ≡ self.verified) }
        ensures stands { IfOk result (λ it. it.stands ≡ self.stands) }
        ensures light { IfOk result (λ it. IsDue H.hash (log_shown it.log)
            → it.light ≡ self.light + 1) }
    {
        let DrillParties {
            log,
            cosigners,
            store,
            certs,
            verified,
            stands,
            light,
        } = self;
        let (log, more) = marked(alloc, log, turn)?;
        Ok(DrillParties {
            log,
            cosigners,
            store,
            certs,
            verified,
            stands,
            light: light + more,
        })
    }

    /// The devices, the certificates, and what was counted.
    pub(crate) fn into_output(self, alloc: Global) -> Result<DrillOutput, Memory>
        requires stops { all_stops self ≤ 2 ^ 32 }
        requires few { length self.cosigners.parties.items ≤ 3 }
        ensures { IfOk result (IsOutputOf H.hash self) }
    {
        let stops = self.stops();
        let unfinished = self.cosigners.unfinished();
        let unfinished = unfinished.saturating_add(self.log.stops.unfinished);
        let recovered = self.cosigners.recovered();
        let recovered = recovered.saturating_add(self.log.stops.recovered);
        let DrillParties {
            log,
            cosigners,
            store: _,
            certs,
            verified,
            stands,
            light,
        } = self;
        let (log, entries, landmarks) = log_out(log)?;
        let out = cosigners.into_devices(alloc)?;
        let counts = Counts {
            entries,
            landmarks,
            signatures: out.signatures,
            stops,
            verified,
            stands,
            light,
        };
        Ok(DrillOutput {
            log,
            cosigners: out.disks,
            certs: Certs::from_vec(certs),
            counts,
            unfinished,
            recovered,
        })
    }
}
