//! What the records of a journal make of a cosigner.

ghost use Rattle.std.specs.Prelude.{◌≡◌, ◌≢◌, ◌-◌, ◌<◌, ◌≤◌, nat_lt, Err, length, IfOk, IfErr};
ghost use Rattle.std.specs.Prelude.{OnOk, ◌^◌};
ghost use Rattle.byte_formats.specs.Refusals.{answer_of};
ghost use Rattle.hss_keys.specs.Keys.{CountsKeys, most_children, public_of};
ghost use Rattle.lms_core.specs.Heights.{IsSigningHeight};
ghost use Rattle.mtc_proof.specs.Inputs.{signed_text};
ghost use Rattle.cosigner_core.specs.Children.{TestsChild};
ghost use Rattle.cosigner_core.specs.Folds.{begun_cosigner, key_count, next_state};
ghost use Rattle.cosigner_core.specs.Records.{FitsSign, sign_record};
ghost use Rattle.cosigner_core.specs.Refusals.{IsOfRequest, advance_refusal, exhaustion};
ghost use Rattle.cosigner_core.specs.Refusals.{subtree_refusal};
ghost use Rattle.cosigner_core.specs.Results.{CosignerFinds, CosignerTakes};
ghost use Rattle.cosigner_core.specs.Views.{advance_parts, subtree_parts};
ghost use Rattle.cosigner_core.specs.declared.error.RecordError.TheVariants.{Memory as RecordMemory};

use crate::error::{ChildError, CosignError, RecordError};
use crate::progress::Progress;
use crate::record::{read_settings, read_step};
use crate::requests::{AdvanceRequest, SubtreeRequest};
use crate::settings::CosignerSettings;
use crate::step_record::StepRecord;
use hss_core::PUBLIC_KEY_LEN;
use hss_keys::HssKey;
use lms_core::{LmsType, Secret};
use mtc_io::Memory;
use mtc_proof::{InputBuf, signature_input};
use std::alloc::Global;
use std::marker::Model;
use tls_wire::AnchorId;
use tree_core::{TreeHash, subtree_ok};

/// The settings of a cosigner and its secret, and how far it has come. Contracts see the cosigner.
#[derive(Drop)]
pub(crate) struct Contents {
    settings: CosignerSettings,
    secret: Secret,
    progress: Progress,
}

impl Model for Contents {
    ghost use Rattle.hss_keys.specs.Keys.{signing_state};
    ghost use Rattle.cosigner_core.specs.Folds.{CosignerState};
    ghost use Rattle.cosigner_core.specs.Sound.{IsKey};

    ghost Value = { CosignerState };

    ghost view = { λ c. record {
      id = c.settings.id;
      log = c.settings.log;
      held = c.progress.held;
      key = signing_state c.settings.lms c.settings.low c.settings.ots c.secret
          c.progress.children c.progress.next;
    } };

    ghost invariant = { λ c. IsKey (signing_state c.settings.lms c.settings.low c.settings.ots
        c.secret c.progress.children c.progress.next) c.progress };
}

impl Contents {
    /// The cosigner that the first record begins.
    #[tactic(auto, unfolding(crate::specs::Folds::begun_cosigner))]
    pub(crate) fn begin<H: TreeHash>(alloc: Global, body: &[u8]) -> Result<Contents, RecordError>
        ensures { CosignerFinds (λ c. c) (begun_cosigner H.hash body.now) result }
    {
        let (settings, secret) = read_settings(alloc, body)?;
        Ok(Contents {
            settings,
            secret,
            progress: Progress::empty::<H>(),
        })
    }

    /// Takes one record more. `Unfit` comes exactly if it breaks the rules, and leaves the cosigner
    /// as it was. It takes no memory.
    #[tactic(auto, unfolding(crate::specs::Folds::next_state))]
    pub(crate) fn take<H: TreeHash>(&mut self, body: &[u8]) -> Result<(), RecordError>
        ensures takes { CosignerTakes (next_state H.hash self.old body.now) self.old result
            self.new }
        ensures never { result ≢ Err RecordMemory }
    {
        let step = read_step(body)?;
        match self.progress.after::<H>(self.settings.terms(), &step) {
            Some(progress) => {
                self.progress = progress;
                Ok(())
            }
            None => Err(RecordError::Unfit),
        }
    }

    // The number of the one-time key that signs next. It fits four bytes, since trees are small.
    #[tactic(auto, using(crate::proofs::Keys::few_there))]
    fn next(&self) -> u32
        ensures { result ≡ self.now.key.next }
    {
        self.progress.next as u32
    }

    /// The key of the cosigner, which is rebuilt: the one-time keys below the next one are used.
    pub(crate) fn key(&self, alloc: Global) -> Result<HssKey, Memory>
        ensures { IfOk result (λ key. key ≡ self.now.key) }
    {
        HssKey::make(
            alloc,
            self.settings.lms,
            self.settings.low,
            self.settings.ots,
            &self.secret,
            self.progress.children,
            self.next(),
        )
    }

    /// The public key of the cosigner, for which the top tree alone is made.
    pub(crate) fn public(&self, alloc: Global) -> Result<[u8; PUBLIC_KEY_LEN], Memory>
        ensures { IfOk result (λ public. public ≡ public_of self.now.key.key) }
    {
        let unused = HssKey::make(
            alloc,
            self.settings.lms,
            self.settings.low,
            self.settings.ots,
            &self.secret,
            0,
            0,
        )?;
        Ok(unused.public())
    }

    pub(crate) fn id(&self) -> &AnchorId
        ensures { result.now ≡ self.now.id }
    {
        &self.settings.id
    }

    pub(crate) fn log(&self) -> &AnchorId
        ensures { result.now ≡ self.now.log }
    {
        &self.settings.log
    }

    /// The size that is held, and the root.
    pub(crate) fn held(&self) -> (u64, [u8; 32])
        ensures { result ≡ (self.now.held.size, self.now.held.root) }
    {
        (self.progress.held.size, self.progress.held.root)
    }

    /// Whether a request to hold a larger log is one to follow.
    #[tactic(auto, unfolding(crate::specs::Refusals::advance_refusal))]
    pub(crate) fn test_advance<H: TreeHash>(
        &self,
        request: &AdvanceRequest<'_>,
    ) -> Result<(), CosignError>
        ensures exact { result
            ≡ answer_of (advance_refusal H.hash self.now (advance_parts request.now)) }
        ensures kind { IfErr result IsOfRequest }
        ensures short { OnOk result (length request.now.proof.now ≤ 65) }
    {
        if request.log != self.settings.log.as_bytes() {
            return Err(CosignError::WrongLog);
        }
        if request.size <= self.progress.held.size {
            return Err(CosignError::NotNewer(self.progress.held.size));
        }
        if !self
            .progress
            .held
            .is_prefix_of::<H>(request.size, &request.root, request.proof)
        {
            return Err(CosignError::BadProof);
        }
        Ok(())
    }

    /// Whether a request to sign a subtree is one to follow.
    #[tactic(auto, unfolding(crate::specs::Refusals::subtree_refusal))]
    pub(crate) fn test_subtree<H: TreeHash>(
        &self,
        request: &SubtreeRequest<'_>,
    ) -> Result<(), CosignError>
        ensures exact { result
            ≡ answer_of (subtree_refusal H.hash self.now (subtree_parts request.now)) }
        ensures kind { IfErr result IsOfRequest }
        ensures short { OnOk result (length request.now.proof.now ≤ 65) }
        ensures left { OnOk result (self.now.key.next < key_count self.now) }
        ensures number { self.now.key.next < 2 ^ 32 }
    {
        if request.log != self.settings.log.as_bytes() {
            return Err(CosignError::WrongLog);
        }
        if !subtree_ok(request.start, request.end) {
            return Err(CosignError::BadSubtree);
        }
        if request.end > self.progress.held.size {
            return Err(CosignError::Beyond(self.progress.held.size));
        }
        if !self
            .progress
            .held
            .has_subtree::<H>(request.start, request.end, &request.hash, request.proof)
        {
            return Err(CosignError::BadProof);
        }
        if self.left() == 0 {
            return Err(self.exhaustion());
        }
        Ok(())
    }

    // How many one-time keys are left: of two levels, in the newest lower tree.
    fn left(&self) -> u32
        ensures { result ≡ key_count self.now - self.now.key.next }
    {
        (self.progress.keys(self.settings.terms()) - self.progress.next) as u32
    }

    // What the key lacks whose one-time keys have all signed.
    fn exhaustion(&self) -> CosignError
        ensures { result ≡ exhaustion self.now }
    {
        if self.children_left() {
            CosignError::NeedsChild
        } else {
            CosignError::Exhausted
        }
    }

    // Whether the upper tree has a one-time key for a further lower tree.
    fn children_left(&self) -> bool
        ensures { result ≡ nat_lt self.now.key.children
            (most_children self.now.key.key.top.lms self.now.key.key.low) }
    {
        match self.settings.low {
            None => false,
            Some(_) => self.progress.children < self.settings.lms.leaves(),
        }
    }

    /// How many lower trees the key has.
    pub(crate) fn children(&self) -> u32
        ensures { result ≡ self.now.key.children }
    {
        self.progress.children
    }

    /// The height of the lower trees, if the key has two levels.
    pub(crate) fn low(&self) -> Option<LmsType>
        ensures { result ≡ self.now.key.key.low }
    {
        self.settings.low
    }

    /// Whether a further lower tree is to be made: then it answers the height of the lower trees.
    #[tactic(auto, unfolding(crate::specs::Children::child_refusal))]
    pub(crate) fn test_child(&self) -> Result<LmsType, ChildError>
        ensures tests { TestsChild self.now result }
        ensures small { IfOk result IsSigningHeight }
        ensures counts { CountsKeys self.now.key }
    {
        let Some(low) = self.settings.low else {
            return Err(ChildError::OneLevel);
        };
        let left = self.left();
        if left != 0 {
            return Err(ChildError::ChildLeft(left));
        }
        if !self.children_left() {
            return Err(ChildError::Exhausted);
        }
        Ok(low)
    }

    /// The body of the Sign of a request, with the number of the one-time key that signs next.
    pub(crate) fn record_of(&self, request: &SubtreeRequest<'_>) -> StepRecord
        requires { length request.now.proof.now ≤ 65 }
        ensures bytes { result ≡ sign_record self.now.key.next request.now.start request.now.end
            request.now.hash request.now.proof.now }
        ensures fits { FitsSign self.now.key.next request.now.start request.now.end
            request.now.hash request.now.proof.now }
    {
        let index = self.next();
        StepRecord::sign(
            index,
            request.start,
            request.end,
            &request.hash,
            request.proof,
        )
    }

    /// What a signature of a subtree signs.
    pub(crate) fn put_input(&self, start: u64, end: u64, hash: &[u8; 32], out: &mut InputBuf)
        ensures { out.new ≡ signed_text self.now.id self.now.log start end hash.now }
    {
        let id = self.settings.id.as_bytes();
        let log = self.settings.log.as_bytes();
        signature_input(id, log, start, end, hash, out);
    }
}
