//! A cosigner without its key, which holds the roots of larger logs and signs nothing.

ghost use Rattle.std.specs.Prelude.{◌≡◌, ◌<◌, ◌++◌, ℕ, List, [], ◌∷◌, None, Some, Ok, IfSome, IfOk};
ghost use Rattle.std.specs.Prelude.{◌≢◌, ◌^◌, Err, IfErr, OnOk, OnErr};
ghost use Rattle.std.proofs.Props.{props};
ghost use Rattle.std.specs.Io.KnownBytes.{Appends};
ghost use Rattle.mtc_io.specs.Streams.{AppendsPrefix};
ghost use Rattle.disk_core.specs.Times.{OnlyReads};
ghost use Rattle.journal_core.specs.Copies.{AppendsSome, HasCopyCause};
ghost use Rattle.journal_core.specs.Owners.{OwnerAppends};
ghost use Rattle.journal_core.specs.Words.{disk_of, end_of};
ghost use Rattle.hss_keys.specs.Keys.{CountsKeys, public_of};
ghost use Rattle.mtc_proof.specs.Inputs.{signed_text};
ghost use Rattle.cosigner_core.specs.Children.{ChildKeepsTo, TestsChild, child_refused, next_child};
ghost use Rattle.cosigner_core.specs.Children.{of_child_journal};
ghost use Rattle.cosigner_core.specs.DurableRecords.{IsDurableAs, IsDurableAs-prop};
ghost use Rattle.cosigner_core.specs.Exports.{export_text};
ghost use Rattle.cosigner_core.specs.Folds.{cosigner_of, having_child, having_signed, holding};
ghost use Rattle.cosigner_core.specs.Folds.{key_count};
ghost use Rattle.cosigner_core.specs.Openings.{CosignerIsNotOpened, CosignerIsOpened};
ghost use Rattle.cosigner_core.specs.Records.{advance_record, sign_record};
ghost use Rattle.cosigner_core.specs.Refusals.{CosignKeepsTo, advance_refused, cosign_refused};
ghost use Rattle.cosigner_core.specs.Views.{advance_parts, subtree_parts};
ghost use Rattle.cosigner_core.specs.declared.error.ChildError.TheVariants.{Memory as NoMemory};

use crate::error::{ChildError, CosignError, CosignerOpenError};
use crate::export::{first_size, write_prefix};
use crate::machine::Machine;
use crate::requests::{AdvanceRequest, SubtreeRequest};
use crate::step_record::StepRecord;
use disk_core::Disk;
use hss_core::PUBLIC_KEY_LEN;
use hss_keys::HssKey;
use journal_core::{CopyError, Journal, Refused, copy_after};
use lms_core::LmsType;
use mtc_io::{Failed, Memory, Sink};
use mtc_proof::InputBuf;
use state_journal::{append_to, open_state};
use std::alloc::Global;
use tls_wire::AnchorId;
use tree_core::TreeHash;

/// A cosigner over the journal of its records, without its key: what it holds of its log, and which
/// one-time keys have signed. They are what its records on the disk make. Where an append has
/// failed, the disk may hold one record more. `H` is the hash function of the log's tree.
pub struct KeylessCosigner<H: TreeHash, D: Disk> {
    journal: Journal<D>,
    machine: Machine<H>,
    ghost is_durable: { (b : List ℕ) → D.Disk.contents (disk_of journal) ≡ Some b → IsDurableAs
        H.TreeHash.hash machine.contents (end_of journal) b } by { Prim.hlevel (
          props,
          IsDurableAs-prop,
        ) },
}

// A drop in one step: a derived one is proved field by field wherever a value is dropped.
impl<H: TreeHash, D: Disk + Drop> Drop for KeylessCosigner<H, D> {
    fn drop(self) {
        let KeylessCosigner {
            journal: _,
            machine: _,
        } = self;
    }
}

impl<H: TreeHash, D: Disk> KeylessCosigner<H, D> {
    ghost use Rattle.cosigner_core.specs.Keyless.{keyless_owner, of_cosigner_journal};

    /// Opens the cosigner in a journal. Its records are read and tested one by one.
    ///
    /// Errors, of which the first that is met is answered: what [`Opening::begin`] and
    /// [`Opening::next`] refuse; `BadRecord` at the first record that breaks the rules, or where
    /// there is none. The disk is returned, and was only read.
    pub fn open(
        alloc: Global,
        disk: D,
    ) -> Result<KeylessCosigner<H, D>, Refused<D, CosignerOpenError>>
        ensures opened { IfOk result (λ it. CosignerIsOpened D.Disk H.hash disk
            (keyless_owner it)) }
        ensures refused { IfErr result
            (λ e. CosignerIsNotOpened D.Disk H.hash disk e.disk e.why) }
    {
        match open_state::<Machine<H>, D>(alloc, disk, ()) {
            Ok((journal, machine)) => Ok(KeylessCosigner { journal, machine }),
            Err(refused) => Err(Refused {
                disk: refused.disk,
                why: refused.why,
            }),
        }
    }

    /// Holds the root of a larger log, if the proof shows that what is held is a prefix of it. At
    /// Ok a crash leaves the records with the Advance; at any time of the call it leaves the old
    /// records, or these and that one.
    ///
    /// Errors, in the order of the tests: `WrongLog` if the request names another log; `NotNewer`
    /// with the held size if the size isn't above it; `BadProof` if the consistency proof does not
    /// check, or no log is held and the proof has hashes; and what [`Journal::append`] refuses. A
    /// refusal leaves the cosigner as it was. After `Append(Failed)` it shows what it showed
    /// before, and each further call that passes its tests answers `Append(Broken)`. It takes no
    /// memory.
    pub fn advance(&mut self, request: &AdvanceRequest<'_>) -> Result<(), CosignError>
        ensures appends { let old = keyless_owner self.old in
            OwnerAppends D.Disk of_cosigner_journal
            (advance_record request.now.size request.now.root request.now.proof.now)
            (holding request.now.size request.now.root old.state) old (keyless_owner self.new)
            result }
        ensures answer { let old = keyless_owner self.old in
            CosignKeepsTo (advance_refused H.hash old.state old.broken old.end
            (advance_parts request.now)) result }
        ensures valid { let old = keyless_owner self.old in
            advance_refused H.hash old.state old.broken old.end (advance_parts request.now) ≡ None
            → IfSome old.records (λ list. cosigner_of H.hash (list
            ++ advance_record request.now.size request.now.root request.now.proof.now ∷ [])
            ≡ Ok (holding request.now.size request.now.root old.state)) }
        ensures records { OnErr result ((keyless_owner self.new).records
            ≡ (keyless_owner self.old).records) }
        ensures key { (keyless_owner self.new).state.key ≡ (keyless_owner self.old).state.key }
    {
        self.machine.contents.test_advance::<H>(request)?;
        let body = StepRecord::advance(request.size, &request.root, request.proof);
        append_to(&mut self.journal, &mut self.machine, body.as_slice())?;
        Ok(())
    }

    /// Appends the Sign of a request, with the number of the one-time key that signs next. The
    /// errors are those of [`Cosigner::cosign`](crate::Cosigner::cosign).
    pub(crate) fn record_sign(&mut self, request: &SubtreeRequest<'_>) -> Result<(), CosignError>
        ensures appends { let old = keyless_owner self.old in
            OwnerAppends D.Disk of_cosigner_journal
            (sign_record old.state.key.next request.now.start request.now.end request.now.hash
            request.now.proof.now) (having_signed old.state) old (keyless_owner self.new) result }
        ensures answer { let old = keyless_owner self.old in
            CosignKeepsTo (cosign_refused H.hash old.state old.broken old.end
            (subtree_parts request.now)) result }
        ensures valid { let old = keyless_owner self.old in
            cosign_refused H.hash old.state old.broken old.end (subtree_parts request.now) ≡ None
            → IfSome old.records (λ list. cosigner_of H.hash (list
            ++ sign_record old.state.key.next request.now.start request.now.end request.now.hash
            request.now.proof.now ∷ []) ≡ Ok (having_signed old.state)) }
        ensures records { OnErr result ((keyless_owner self.new).records
            ≡ (keyless_owner self.old).records) }
        ensures left { let old = keyless_owner self.old in
            OnOk result (old.state.key.next < key_count old.state) }
        ensures number { (keyless_owner self.old).state.key.next < 2 ^ 32 }
        ensures state { OnErr result ((keyless_owner self.new).state
            ≡ (keyless_owner self.old).state) }
    {
        self.machine.contents.test_subtree::<H>(request)?;
        let body = self.machine.contents.record_of(request);
        append_to(&mut self.journal, &mut self.machine, body.as_slice())?;
        Ok(())
    }

    /// Appends the Child of the next lower tree, and answers its number: a key that is rebuilt
    /// afterwards has that tree. It makes no tree and takes no memory. At Ok a crash leaves the
    /// records with the Child; at any time of the call it leaves the old records, or these and that
    /// one.
    ///
    /// Errors, in the order of the tests: `OneLevel` if the key has one level; `ChildLeft` with the
    /// number of one-time keys left, if the newest lower tree has some; `Exhausted` if there are as
    /// many lower trees as the upper tree has one-time keys; and what [`Journal::append`] refuses.
    /// A refusal leaves the cosigner as it was. After `Append(Failed)` it shows what it showed
    /// before, and each further call that passes its tests answers `Append(Broken)`.
    pub fn child(&mut self) -> Result<u32, ChildError>
        ensures appends { let old = keyless_owner self.old in
            OwnerAppends D.Disk of_child_journal (next_child old.state) (having_child old.state) old
            (keyless_owner self.new) result }
        ensures answer { let old = keyless_owner self.old in
            ChildKeepsTo old.state old.broken old.end result }
        ensures never { result ≢ Err NoMemory }
        ensures valid { let old = keyless_owner self.old in
            child_refused old.state old.broken old.end ≡ None
            → IfSome old.records (λ list. cosigner_of H.hash (list ++ next_child old.state ∷ [])
            ≡ Ok (having_child old.state)) }
        ensures number { IfOk result (λ n. n ≡ (keyless_owner self.old).state.key.children) }
        ensures records { OnErr result ((keyless_owner self.new).records
            ≡ (keyless_owner self.old).records) }
        ensures state { OnErr result ((keyless_owner self.new).state
            ≡ (keyless_owner self.old).state) }
    {
        let low = self.machine.contents.test_child()?;
        let number = self.machine.contents.children();
        let body = StepRecord::child(number, low);
        append_to(&mut self.journal, &mut self.machine, body.as_slice())?;
        Ok(number)
    }

    /// Whether a further lower tree is to be made: then it answers the height of the lower trees.
    pub(crate) fn test_child(&self) -> Result<LmsType, ChildError>
        ensures tests { TestsChild (keyless_owner self.now).state result }
        ensures counts { CountsKeys (keyless_owner self.now).state.key }
    {
        self.machine.contents.test_child()
    }

    /// What the signature of a request signs.
    pub(crate) fn put_input(&self, request: &SubtreeRequest<'_>, out: &mut InputBuf)
        ensures { let state = (keyless_owner self.now).state in
            out.new ≡ signed_text state.id state.log request.now.start request.now.end
            request.now.hash }
    {
        self.machine
            .contents
            .put_input(request.start, request.end, &request.hash, out);
    }

    /// The public key of its signatures (RFC 8554, section 6.1). It makes the top tree, and no
    /// lower one.
    ///
    /// The one error is `Memory`, for the tree.
    pub fn public(&self, alloc: Global) -> Result<[u8; PUBLIC_KEY_LEN], Memory>
        ensures { IfOk result (λ public. public
            ≡ public_of (keyless_owner self.now).state.key.key) }
    {
        self.machine.contents.public(alloc)
    }

    /// Writes the export of the cosigner, whose public key is given: what
    /// [`Cosigner::export`](crate::Cosigner::export) writes. It makes no tree and takes no memory.
    /// The errors are those of that call: `Read` where the disk fails, and `Write` where the sink
    /// does. A prefix of the export is written then.
    pub fn export_with<O: Sink>(
        &mut self,
        public: &[u8; PUBLIC_KEY_LEN],
        out: &mut O,
    ) -> Result<(), CopyError>
        requires { public.now ≡ public_of (keyless_owner self.old).state.key.key }
        ensures written { let old = keyless_owner self.old in
            OnOk result (IfSome old.records (λ list. Appends (O.taken out.old) (O.taken out.new)
            (export_text old.state list))) }
        ensures prefix { let old = keyless_owner self.old in
            IfSome old.records (λ list. AppendsPrefix (O.taken out.old) (O.taken out.new)
            (export_text old.state list)) }
        ensures grows { AppendsSome (O.taken out.old) (O.taken out.new) }
        ensures only_reads { OnlyReads D.Disk (keyless_owner self.old).disk
            (keyless_owner self.new).disk }
        ensures list { (keyless_owner self.new).records ≡ (keyless_owner self.old).records }
        ensures state { (keyless_owner self.new).state ≡ (keyless_owner self.old).state }
        ensures end { (keyless_owner self.new).end ≡ (keyless_owner self.old).end }
        ensures broken { (keyless_owner self.new).broken ≡ (keyless_owner self.old).broken }
        ensures cause { HasCopyCause (D.faults (keyless_owner self.old).disk) (O.faults out.old)
            (D.faults (keyless_owner self.new).disk) (O.faults out.new) result }
    {
        match write_prefix(&self.machine.contents, public, out) {
            Ok(()) => {}
            Err(Failed) => return Err(CopyError::Write),
        }
        let from = self
            .journal
            .end_after_first(first_size(&self.machine.contents));
        copy_after(&mut self.journal, from, out)
    }

    /// The key, rebuilt from the secret: the one-time keys that have signed by the records are
    /// used.
    pub(crate) fn key(&self, alloc: Global) -> Result<HssKey, Memory>
        ensures { IfOk result (λ key. key ≡ (keyless_owner self.now).state.key) }
    {
        self.machine.contents.key(alloc)
    }

    /// The size of the log that is held, and its root.
    pub fn held(&self) -> (u64, [u8; 32])
        ensures { let held = (keyless_owner self.now).state.held in
            result ≡ (held.size, held.root) }
    {
        self.machine.contents.held()
    }

    /// The id of the cosigner.
    pub fn id(&self) -> &AnchorId
        ensures { result.now ≡ (keyless_owner self.now).state.id }
    {
        self.machine.contents.id()
    }

    /// The disk, for another use.
    pub fn into_disk(self) -> D
        ensures { result ≡ (keyless_owner self).disk }
    {
        let KeylessCosigner {
            journal,
            machine: _,
        } = self;
        journal.into_disk()
    }
}
