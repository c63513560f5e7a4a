//! The cosigners of a drill, one after the other.

ghost use Rattle.std.specs.Prelude.{◌≡◌, ◌<◌, ◌≤◌, ◌+◌, ◌^◌, [], ◌∷◌, length, IfOk, OnOk};
ghost use Rattle.std.specs.List.{AllByRecursion, sum_by};
ghost use Rattle.drill_parties.specs.Cosigners.{HaveSigned, IsAdvanced, IsNewParty, IsSigned};
ghost use Rattle.drill_parties.specs.Cosigners.{Paired};
ghost use Rattle.drill_parties.specs.Cosigners.{held_first, keys_used, stops_by};
ghost use Rattle.drill_parties.specs.CosignerViews.{IsDiskOf, IsExportOf, IsStill, cosigner_shown};
ghost use Rattle.drill_parties.specs.Disks.{signs_on};
ghost use Rattle.drill_parties.specs.Rounds.{stops_in};

use crate::cosigner_party::CosignerParty;
use crate::exports::into_output;
use crate::signing::{advanced, signed};
use crate::turns::Turns;
use disk_core::MemDisk;
use mtc_io::{Bytes, Memory};
use std::alloc::Global;
use tree_core::TreeHash;

/// The cosigners of a drill. Each call takes them from the start of the list, one by one, and
/// appends them again: a party that is stopped is gone until it is opened again. If memory is
/// refused, the one whose turn it was is lost.
pub struct Cosigners<H: TreeHash> {
    parties: Vec<CosignerParty<H>>,
}

// A drop in one step: a derived one is proved field by field wherever a value is dropped.
impl<H: TreeHash> Drop for Cosigners<H> {
    fn drop(self) {
        let Cosigners { parties: _ } = self;
    }
}

/// What the cosigners leave: their devices, and how many of their records are Signs.
#[derive(Debug, Drop)]
pub struct Devices {
    pub disks: Vec<MemDisk>,
    pub signatures: u64,
}

impl<H: TreeHash> Cosigners<H> {
    /// New cosigners: `32473.2` to `32473.4` of the drill with this number.
    pub fn create(alloc: Global, number: u64) -> Result<Cosigners<H>, Memory>
        ensures state { IfOk result
            (λ it. Paired (IsNewParty H.hash number) (2 ∷ 3 ∷ 4 ∷ []) it.parties.items) }
    {
        let mut parties = Vec::new(alloc);
        parties.push(CosignerParty::create(alloc, 2, number)?)?;
        parties.push(CosignerParty::create(alloc, 3, number)?)?;
        parties.push(CosignerParty::create(alloc, 4, number)?)?;
        Ok(Cosigners { parties })
    }

    /// The cosigners, in their order.
    pub fn as_slice(&self) -> &[CosignerParty<H>]
        ensures { result.now ≡ self.now.parties.items }
    {
        self.parties.as_slice()
    }

    /// How much of the log the first of them holds.
    pub fn held(&self) -> u64
        requires { 0 < length self.now.parties.items }
        ensures { result ≡ held_first self.now.parties.items }
    {
        self.parties[0].cosigner.held().0
    }

    /// Each holds the root of a larger log.
    pub fn advance(
        &mut self,
        alloc: Global,
        size: u64,
        root: [u8; 32],
        proof: &[[u8; 32]],
        turns: &Turns,
    ) -> Result<(), Memory>
        requires larger { AllByRecursion (λ party. (cosigner_shown party).held.size < size)
            self.old.parties.items }
        requires turns { length turns.now ≡ length self.old.parties.items }
        ensures each { OnOk result
            (Paired (IsAdvanced size root) self.old.parties.items self.new.parties.items) }
        ensures stops { OnOk result
            (stops_by self.new.parties.items
            ≡ stops_by self.old.parties.items + stops_in turns.now) }
    {
        for turn in turns.as_slice() {
            let party = self.parties.remove(0);
            let party = advanced(alloc, party, size, root, proof, *turn)?;
            self.parties.push(party)?;
        }
        Ok(())
    }

    /// Each signs all of a log of which it holds the root, and appends its signature.
    pub fn cosign(
        &mut self,
        alloc: Global,
        size: u64,
        hash: [u8; 32],
        proof: &[[u8; 32]],
        turns: &Turns,
        signatures: &mut Bytes,
    ) -> Result<(), Memory>
        requires few { length proof.now ≤ 128 }
        requires turns { length turns.now ≡ length self.old.parties.items }
        ensures each { OnOk result
            (Paired (IsSigned size hash) self.old.parties.items self.new.parties.items) }
        ensures signed { OnOk result
            (HaveSigned size hash self.old.parties.items signatures.old signatures.new) }
        ensures keys { OnOk result (keys_used self.new.parties.items
            ≤ keys_used self.old.parties.items + length self.old.parties.items + stops_in
            turns.now) }
        ensures stops { OnOk result
            (stops_by self.new.parties.items
            ≡ stops_by self.old.parties.items + stops_in turns.now) }
    {
        for turn in turns.as_slice() {
            let party = self.parties.remove(0);
            let party = signed(alloc, party, size, hash, proof, *turn, signatures)?;
            self.parties.push(party)?;
        }
        Ok(())
    }

    /// Their exports, in their order.
    pub fn exports(&mut self, alloc: Global) -> Result<Vec<Bytes>, Memory>
        ensures same { IfOk result (λ texts. Paired IsStill self.old.parties.items
            self.new.parties.items) }
        ensures read { IfOk result
            (λ texts. Paired (IsExportOf H.hash) self.old.parties.items texts.items) }
    {
        let mut texts = Vec::new(alloc);
        let count = self.parties.len();
        for _contents in 0..count {
            let mut party = self.parties.remove(0);
            let text = party.export(alloc)?;
            texts.push(text)?;
            self.parties.push(party)?;
        }
        Ok(texts)
    }

    /// How many stops were made in their calls.
    pub fn stops(&self) -> u64
        requires { stops_by self.now.parties.items ≤ 2 ^ 32 }
        ensures { result ≡ stops_by self.now.parties.items }
    {
        self.parties.iter().map(|party| party.stops.count()).sum()
    }

    /// How many of the calls that were stopped did not answer Ok.
    pub fn unfinished(&self) -> u64 {
        let mut count = 0u64;
        for party in &self.parties {
            count = count.saturating_add(party.stops.unfinished);
        }
        count
    }

    /// After how many of the stops in their advances the record was there.
    pub fn recovered(&self) -> u64 {
        let mut count = 0u64;
        for party in &self.parties {
            count = count.saturating_add(party.stops.recovered);
        }
        count
    }

    /// Their devices, and how many records there are Signs.
    pub fn into_devices(self, alloc: Global) -> Result<Devices, Memory>
        requires { length self.parties.items ≤ 3 }
        ensures disks { IfOk result
            (λ out. Paired (IsDiskOf H.hash) self.parties.items out.disks.items) }
        ensures signatures { IfOk result
            (λ out. out.signatures ≡ sum_by signs_on out.disks.items) }
    {
        let Cosigners { mut parties } = self;
        let mut disks = Vec::new(alloc);
        let mut signatures = 0;
        let count = parties.len();
        for _out in 0..count {
            let party = parties.remove(0);
            let (disk, signs) = into_output(alloc, party)?;
            disks.push(disk)?;
            signatures += signs;
        }
        Ok(Devices { disks, signatures })
    }
}
