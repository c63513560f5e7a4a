//! A round of a drill.

ghost use Rattle.std.specs.Prelude.{◌≡◌, ◌<◌, ◌≤◌, ◌+◌, [], ◌∷◌, length, IfOk, OnOk};
ghost use Rattle.std.specs.List.{AllByRecursion};
ghost use Rattle.authority_core.specs.Certificates.{IsWritten};
ghost use Rattle.issuance_log.specs.Folds.{with_mark};
ghost use Rattle.drill_parties.specs.Cosigners.{HaveSigned, IsAdvanced, IsSigned, Paired};
ghost use Rattle.drill_parties.specs.Cosigners.{keys_used};
ghost use Rattle.drill_parties.specs.Cosigners.{stops_by};
ghost use Rattle.drill_parties.specs.CosignerViews.{cosigner_shown};
ghost use Rattle.drill_parties.specs.Rounds.{landmark_turns, stops_in};
ghost use Rattle.drill_core.specs.LightStores.{IsDue};
ghost use Rattle.drill_core.specs.LogParties.{IsSameLog, log_shown, log_stops};
ghost use Rattle.drill_core.specs.Played.{AreReady, HasCertified, HasPlayed, all_stops, issued_to};
ghost use Rattle.drill_core.specs.Played.{with_landmark};
ghost use Rattle.drill_core.specs.Played.{log_root};
ghost use Rattle.drill_core.specs.Stores.{StoresAcceptNow};

use crate::audits::audited;
use crate::light::one_light;
use crate::log_party::{LogParty, size_of};
use crate::parties::DrillParties;
use crate::store::one_accepted;
use crate::tree::root_and_proof;
use authority_core::{cert, law_entries_say_what_was_asked};
use drill_parties::{Cosigners, Round, Turn, Turns};
use mtc_io::{Bytes, Memory};
use mtc_proof::check_signatures;
use std::alloc::Global;
use tree_core::TreeHash;

// Each cosigner holds the root of the log.
fn hold_all<H: TreeHash>(
    alloc: Global,
    log: &mut LogParty<H>,
    cosigners: &mut Cosigners<H>,
    turns: &Turns,
) -> Result<(), Memory>
    requires some { 0 < length cosigners.old.parties.items }
    requires larger { AllByRecursion
        (λ party. (cosigner_shown party).held.size < length (log_shown log.old).entries)
        cosigners.old.parties.items }
    requires turns { length turns.now ≡ length cosigners.old.parties.items }
    ensures same { IsSameLog log.old log.new }
    ensures each { OnOk result (Paired (IsAdvanced (length (log_shown log.old).entries)
        (log_root H.hash (log_shown log.old))) cosigners.old.parties.items
        cosigners.new.parties.items) }
    ensures stops { OnOk result (stops_by cosigners.new.parties.items
        ≡ stops_by cosigners.old.parties.items + stops_in turns.now) }
{
    let held = cosigners.held();
    let size = size_of(&log.log);
    let (root, proof) = root_and_proof(&mut log.log, held)?;
    cosigners.advance(alloc, size, root, proof.as_slice(), turns)
}

/// The log issues an entry for each turn, and each cosigner holds its root.
pub(crate) fn grown<H: TreeHash>(
    alloc: Global,
    log: LogParty<H>,
    mut cosigners: Cosigners<H>,
    entries: &Turns,
    turns: &Turns,
) -> Result<(LogParty<H>, Cosigners<H>), Memory>
    requires more { 1 ≤ length entries.now }
    requires some { 0 < length cosigners.parties.items }
    requires held { AllByRecursion
        (λ party. (cosigner_shown party).held.size ≤ length (log_shown log).entries)
        cosigners.parties.items }
    requires turns { length turns.now ≡ length cosigners.parties.items }
    ensures log { IfOk result (λ x. log_shown x.0
        ≡ issued_to H.hash (length entries.now) (log_shown log)) }
    ensures each { IfOk result (λ x. Paired (IsAdvanced (length (log_shown x.0).entries)
        (log_root H.hash (log_shown x.0))) cosigners.parties.items x.1.parties.items) }
    ensures stops { IfOk result (λ x. log_stops x.0 + stops_by x.1.parties.items ≡ log_stops log
        + stops_by cosigners.parties.items + stops_in entries.now + stops_in turns.now) }
{
    let mut log = log.issue_all(alloc, entries)?;
    hold_all(alloc, &mut log, &mut cosigners, turns)?;
    Ok((log, cosigners))
}

// Each cosigner signs all of the log, and appends its signature to the others.
fn sign_all<H: TreeHash>(
    alloc: Global,
    log: &mut LogParty<H>,
    cosigners: &mut Cosigners<H>,
    turns: &Turns,
    signatures: &mut Bytes,
) -> Result<(), Memory>
    requires { length turns.now ≡ length cosigners.old.parties.items }
    ensures same { IsSameLog log.old log.new }
    ensures each { OnOk result (Paired (IsSigned (length (log_shown log.old).entries)
        (log_root H.hash (log_shown log.old))) cosigners.old.parties.items
        cosigners.new.parties.items) }
    ensures signed { OnOk result (HaveSigned (length (log_shown log.old).entries)
        (log_root H.hash (log_shown log.old)) cosigners.old.parties.items signatures.old
        signatures.new) }
    ensures keys { OnOk result (keys_used cosigners.new.parties.items
        ≤ keys_used cosigners.old.parties.items + length cosigners.old.parties.items
        + stops_in turns.now) }
    ensures stops { OnOk result (stops_by cosigners.new.parties.items
        ≡ stops_by cosigners.old.parties.items + stops_in turns.now) }
{
    let size = size_of(&log.log);
    let (hash, proof) = root_and_proof(&mut log.log, size)?;
    cosigners.cosign(alloc, size, hash, proof.as_slice(), turns, signatures)
}

// The certificate of an entry, in the subtree of all entries, with these signatures.
fn certificate<H: TreeHash>(
    alloc: Global,
    log: &mut LogParty<H>,
    index: u64,
    signatures: &Bytes,
) -> Result<Bytes, Memory>
    ensures same { IsSameLog log.old log.new }
    ensures written { IfOk result (λ bytes. IsWritten H.hash (log_shown log.old) index 0
        (length (log_shown log.old).entries) signatures.now bytes) }
    ensures accepts { IfOk result (λ bytes. StoresAcceptNow H.hash (log_shown log.old) index
        signatures.now bytes) }
{
    law_entries_say_what_was_asked();
    let size = size_of(&log.log);
    if check_signatures(signatures.as_slice()).is_err() {
        return Err(Memory);
    }
    match cert(alloc, &mut log.log, index, 0, size, signatures.as_slice()) {
        Ok(bytes) => Ok(bytes),
        Err(_) => Err(Memory),
    }
}

// The certificate of the newest entry without signatures is judged: 1 where it is accepted.
fn judged_light<H: TreeHash>(alloc: Global, log: &mut LogParty<H>) -> Result<u64, Memory>
    ensures same { IsSameLog log.old log.new }
    ensures few { IfOk result (λ count. count ≤ 1) }
    ensures accepted { IfOk result (λ count. IsDue H.hash (log_shown log.old) → count ≡ 1) }
{
    one_light(alloc, &mut log.log)
}

/// A landmark is set in the log, and the certificate of the newest entry without signatures judged.
pub(crate) fn marked<H: TreeHash>(
    alloc: Global,
    log: LogParty<H>,
    turn: Turn,
) -> Result<(LogParty<H>, u64), Memory>
    ensures log { IfOk result (λ x. log_shown x.0 ≡ with_mark (log_shown log)) }
    ensures stops { IfOk result (λ x. log_stops x.0 ≡ log_stops log + stops_in (turn ∷ [])) }
    ensures few { IfOk result (λ x. x.1 ≤ 1) }
    ensures accepted { IfOk result (λ x. IsDue H.hash (log_shown x.0) → x.1 ≡ 1) }
{
    let mut log = log.mark(alloc, turn)?;
    let count = judged_light(alloc, &mut log)?;
    Ok((log, count))
}

impl<H: TreeHash> DrillParties<H> {
    // The landmark of a round, if it has one.
    fn mark_in(self, alloc: Global, landmark: Option<Turn>) -> Result<DrillParties<H>, Memory>
        requires { self.light ≤ 15 }
        ensures log { IfOk result
            (λ it. log_shown it.log ≡ with_landmark landmark (log_shown self.log)) }
        ensures cosigners { IfOk result (λ it. it.cosigners ≡ self.cosigners) }
        ensures stops { IfOk result
            (λ it. all_stops it ≡ all_stops self + stops_in (landmark_turns landmark)) }
        ensures store { IfOk result (λ it. it.store ≡ self.store) }
        ensures certs { IfOk result (λ it. it.certs ≡ self.certs) }
        ensures verified { IfOk result (λ it. it.verified ≡ self.verified) }
        ensures stands { IfOk result (λ it. it.stands ≡ self.stands) }
        ensures light { IfOk result (λ it. IsDue H.hash (log_shown it.log)
            → it.light ≡ self.light + length (landmark_turns landmark)) }
    {
        match landmark {
            Some(turn) => self.mark(alloc, turn),
            None => Ok(self),
        }
    }

    // Each cosigner signs all of the log, and the certificate of an entry is written with the
    // signatures, judged, and audited with what each cosigner has recorded.
    fn certify(&mut self, alloc: Global, index: u64, turns: &Turns) -> Result<(), Memory>
        requires three { length self.old.cosigners.parties.items ≡ 3 }
        requires verified { self.old.verified ≤ 15 }
        requires stands { self.old.stands ≤ 45 }
        requires turns { length turns.now ≡ 3 }
        ensures certified { OnOk result (HasCertified H.hash index self.old self.new) }
        ensures keys { OnOk result (keys_used self.new.cosigners.parties.items
            ≤ keys_used self.old.cosigners.parties.items + 3 + stops_in turns.now) }
        ensures stops { OnOk result
            (all_stops self.new ≡ all_stops self.old + stops_in turns.now) }
    {
        let mut signatures = Bytes::new(alloc);
        sign_all(
            alloc,
            &mut self.log,
            &mut self.cosigners,
            turns,
            &mut signatures,
        )?;
        let bytes = certificate(alloc, &mut self.log, index, &signatures)?;
        let stands = audited(
            alloc,
            &mut self.log,
            &mut self.cosigners,
            &self.store,
            &bytes,
        )?;
        let accepted = one_accepted::<H>(&bytes, &self.store);
        self.certs.push(bytes)?;
        self.verified += accepted;
        self.stands += stands;
        Ok(())
    }

    /// Plays a round.
    pub(crate) fn play(self, alloc: Global, round: &Round) -> Result<DrillParties<H>, Memory>
        requires ready { AreReady self }
        requires some { 1 ≤ length round.now.entries }
        requires advances { length round.now.advances ≡ 3 }
        requires signs { length round.now.signs ≡ 3 }
        ensures { IfOk result (HasPlayed H.hash round.now self) }
    {
        let grown = self.grow(alloc, &round.entries, &round.advances)?;
        let mut played = grown.mark_in(alloc, round.landmark)?;
        played.certify(alloc, round.index, &round.signs)?;
        Ok(played)
    }
}
