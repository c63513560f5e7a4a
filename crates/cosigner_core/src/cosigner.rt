//! A cosigner that is open for requests.

ghost use Rattle.std.specs.Prelude.{◌≡◌, ◌<◌, ◌++◌, [], ◌∷◌, None};
ghost use Rattle.std.specs.Prelude.{◌^◌, Ok, IfSome, IfOk, IfErr, OnOk, OnErr};
ghost use Rattle.std.proofs.Props.{props};
ghost use Rattle.std.specs.Io.KnownBytes.{Appends};
ghost use Rattle.mtc_io.specs.Streams.{AppendsPrefix};
ghost use Rattle.disk_core.specs.Times.{OnlyReads};
ghost use Rattle.journal_core.specs.Copies.{AppendsSome, HasCopyCause};
ghost use Rattle.hss_core.specs.Hss.{Verifies};
ghost use Rattle.hss_keys.specs.Keys.{CountsKeys, public_of};
ghost use Rattle.mtc_proof.specs.Inputs.{signed_text};
ghost use Rattle.journal_core.specs.Owners.{OwnerAppends};
ghost use Rattle.cosigner_core.specs.Children.{ChildKeepsTo, PreparesChild, child_refused};
ghost use Rattle.cosigner_core.specs.Children.{next_child, of_child_journal};
ghost use Rattle.cosigner_core.specs.Exports.{export_text};
ghost use Rattle.cosigner_core.specs.Folds.{cosigner_of, having_child, having_signed, holding};
ghost use Rattle.cosigner_core.specs.Keyless.{keyless_owner};
ghost use Rattle.cosigner_core.specs.Openings.{CosignerIsNotOpened, CosignerIsOpened};
ghost use Rattle.cosigner_core.specs.Records.{advance_record, sign_record};
ghost use Rattle.cosigner_core.specs.Refusals.{CosignKeepsTo, advance_refused, cosign_refused};
ghost use Rattle.cosigner_core.specs.Signatures.{signature_by};
ghost use Rattle.cosigner_core.specs.Views.{advance_parts, subtree_parts};

use crate::error::{ChildError, CosignError, CosignerOpenError};
use crate::keyless::KeylessCosigner;
use crate::requests::{AdvanceRequest, SubtreeRequest};
use disk_core::Disk;
use hss_core::{PUBLIC_KEY_LEN, SigBuf};
use hss_keys::{HssKey, Lower};
use journal_core::{CopyError, OpenError, Refused};
use mtc_io::{Memory, Sink};
use mtc_proof::InputBuf;
use std::alloc::Global;
use tls_wire::AnchorId;
use tree_core::TreeHash;

/// A cosigner over the journal of its records: what it holds of its log, and its key, which counts.
/// They are what its records on the disk make. The disk may hold one record more if an append has
/// failed. `H` is the hash function of the log's tree.
pub struct Cosigner<H: TreeHash, D: Disk> {
    keyless: KeylessCosigner<H, D>,
    // Both count the one-time keys that have signed.
    key: HssKey,
    ghost same: { key ≡ (keyless_owner keyless).state.key } by { Prim.hlevel props },
}

// A drop in one step: a derived one is proved field by field wherever a value is dropped.
impl<H: TreeHash, D: Disk + Drop> Drop for Cosigner<H, D> {
    fn drop(self) {
        let Cosigner { keyless: _, key: _ } = self;
    }
}

impl<H: TreeHash, D: Disk> Cosigner<H, D> {
    ghost use Rattle.cosigner_core.specs.Words.{cosigner_disk, cosigner_records, cosigner_end};
    ghost use Rattle.cosigner_core.specs.Words.{cosigner_broken, cosigner_owner, cosigner_state};
    ghost use Rattle.cosigner_core.specs.Words.{CosignerAppends, IsShown};

    /// Opens the cosigner in a journal. Its records are read and tested one by one, and then its
    /// key is rebuilt: the one-time keys that have signed by these records are used.
    ///
    /// Errors, of which the first that is met is answered: what [`Opening::begin`] and
    /// [`Opening::next`] refuse; `BadRecord` at the first record that breaks the rules, or where
    /// there is none; `Open(Memory)` for the key. The disk is returned, and was only read.
    pub fn open(alloc: Global, disk: D) -> Result<Cosigner<H, D>, Refused<D, CosignerOpenError>>
        ensures opened { IfOk result (λ it. CosignerIsOpened D.Disk H.hash disk
            (cosigner_owner it)) }
        ensures refused { IfErr result
            (λ e. CosignerIsNotOpened D.Disk H.hash disk e.disk e.why) }
    {
        match KeylessCosigner::<H, D>::open(alloc, disk) {
            Ok(keyless) => match keyless.key(alloc) {
                Ok(key) => Ok(Cosigner { keyless, key }),
                Err(Memory) => Err(Refused {
                    disk: keyless.into_disk(),
                    why: CosignerOpenError::Open(OpenError::Memory),
                }),
            },
            Err(refused) => Err(refused),
        }
    }

    /// The cosigner with its key, which is rebuilt from the secret in its first record: the
    /// one-time keys that have signed by its records are used.
    ///
    /// The one error is `Memory`, for the key. The disk is returned as it was.
    pub fn with_key(
        alloc: Global,
        keyless: KeylessCosigner<H, D>,
    ) -> Result<Cosigner<H, D>, Refused<D, Memory>>
        ensures ok { IfOk result (λ it. cosigner_owner it ≡ keyless_owner keyless) }
        ensures err { IfErr result (λ e. e.disk ≡ (keyless_owner keyless).disk) }
    {
        match keyless.key(alloc) {
            Ok(key) => Ok(Cosigner { keyless, key }),
            Err(Memory) => Err(Refused {
                disk: keyless.into_disk(),
                why: Memory,
            }),
        }
    }

    /// Holds the root of a larger log, if the proof shows that what is held is a prefix of it. At
    /// Ok a crash leaves the records with the Advance; at any time of the call it leaves the old
    /// records, or these and that one.
    ///
    /// Errors, in the order of the tests: `WrongLog` where the request names another log;
    /// `NotNewer` with the held size where the size isn't above it; `BadProof` where the
    /// consistency proof does not check, or no log is held and the proof has hashes; and what
    /// [`Journal::append`] refuses. A refusal leaves the cosigner as it was. After `Append(Failed)`
    /// it shows what it showed before, and each further call that passes its tests answers
    /// `Append(Broken)`. It takes no memory.
    pub fn advance(&mut self, request: &AdvanceRequest<'_>) -> Result<(), CosignError>
        ensures appends { CosignerAppends
            (advance_record request.now.size request.now.root request.now.proof.now)
            (holding request.now.size request.now.root (cosigner_state self.old))
            self.old self.new result }
        ensures answer { CosignKeepsTo (advance_refused H.hash (cosigner_state self.old)
            (cosigner_broken self.old) (cosigner_end self.old) (advance_parts request.now))
            result }
        ensures valid { advance_refused H.hash (cosigner_state self.old) (cosigner_broken self.old)
            (cosigner_end self.old) (advance_parts request.now) ≡ None
            → IfSome (cosigner_records self.old) (λ list. cosigner_of H.hash (list
            ++ advance_record request.now.size request.now.root request.now.proof.now ∷ [])
            ≡ Ok (holding request.now.size request.now.root (cosigner_state self.old))) }
        ensures records { OnErr result (cosigner_records self.new ≡ cosigner_records self.old) }
    {
        self.keyless.advance(request)
    }

    /// Signs a subtree of the log that is held, by the next one-time key: the signature is the
    /// whole of `out`. It is made once every crash state of the disk holds the Sign record with the
    /// number of that key: at Ok a crash leaves the records with it; at any time of the call it
    /// leaves the old records, or these and that one. So no one-time key signs twice.
    ///
    /// Errors, in the order of the tests: `WrongLog` where the request names another log;
    /// `BadSubtree` where the interval is no subtree; `Beyond` with the held size where the subtree
    /// ends above it; `BadProof` where the consistency proof does not check; `NeedsChild` where the
    /// key has two levels, each one-time key of its lower trees has signed, and the upper tree has
    /// a one-time key for a further one; `Exhausted` where each one-time key of the cosigner has
    /// signed; and what [`Journal::append`] refuses. After each of them `out` is
    /// empty, and the cosigner is as it was. After `Append(Failed)` it shows what it showed before,
    /// and each further call that passes its tests answers `Append(Broken)`. It takes no memory.
    pub fn cosign(
        &mut self,
        request: &SubtreeRequest<'_>,
        out: &mut SigBuf,
    ) -> Result<(), CosignError>
        ensures appends { CosignerAppends
            (sign_record (cosigner_state self.old).key.next request.now.start request.now.end
            request.now.hash request.now.proof.now)
            (having_signed (cosigner_state self.old)) self.old self.new result }
        ensures answer { CosignKeepsTo (cosign_refused H.hash (cosigner_state self.old)
            (cosigner_broken self.old) (cosigner_end self.old) (subtree_parts request.now))
            result }
        ensures valid { cosign_refused H.hash (cosigner_state self.old) (cosigner_broken self.old)
            (cosigner_end self.old) (subtree_parts request.now) ≡ None
            → IfSome (cosigner_records self.old) (λ list. cosigner_of H.hash (list
            ++ sign_record (cosigner_state self.old).key.next request.now.start request.now.end
            request.now.hash request.now.proof.now ∷ [])
            ≡ Ok (having_signed (cosigner_state self.old))) }
        ensures records { OnErr result (cosigner_records self.new ≡ cosigner_records self.old) }
        ensures signature { OnOk result (out.new ≡ signature_by (cosigner_state self.old)
            request.now.start request.now.end request.now.hash) }
        ensures verifies { OnOk result
            (Verifies (public_of (cosigner_state self.old).key.key)
            (signed_text (cosigner_state self.old).id
            (cosigner_state self.old).log request.now.start
            request.now.end request.now.hash) out.new) }
        ensures number { (cosigner_state self.old).key.next < 2 ^ 32 }
        ensures nothing { OnErr result (out.new ≡ []) }
    {
        out.clear();
        let mut input = InputBuf::new();
        self.keyless.put_input(request, &mut input);
        let signed = input.as_slice();
        match self.keyless.record_sign(request) {
            Ok(()) => {
                self.key.sign(signed, out);
                Ok(())
            }
            Err(why) => Err(why),
        }
    }

    /// Makes the next lower tree of a key of two levels, whose one-time keys sign from then on: it
    /// answers its number. The memory for it is taken first. The tree is part of the key once every
    /// crash state of the disk holds its Child record: at Ok a crash leaves the records with it; at
    /// any time of the call it leaves the old records, or these and that one. The upper tree's
    /// signature of its public key is a function of the secret and the number, so it is the same
    /// bytes each time that it is made.
    ///
    /// Errors, in the order of the tests: `OneLevel` where the key has one level; `ChildLeft` with
    /// the number of one-time keys left, where the newest lower tree has some; `Exhausted` where
    /// there are as many lower trees as the upper tree has one-time keys; `Memory`; and what
    /// [`Journal::append`] refuses. A refusal leaves the cosigner as it was. After
    /// `Append(Failed)` it shows what it showed before, and each further call that passes its tests
    /// answers `Append(Broken)`.
    pub fn child(&mut self, alloc: Global) -> Result<u32, ChildError>
        ensures appends { OwnerAppends D.Disk of_child_journal
            (next_child (cosigner_state self.old)) (having_child (cosigner_state self.old))
            (cosigner_owner self.old)
            (cosigner_owner self.new) result }
        ensures answer { ChildKeepsTo (cosigner_state self.old) (cosigner_broken self.old)
            (cosigner_end self.old) result }
        ensures valid { child_refused (cosigner_state self.old) (cosigner_broken self.old)
            (cosigner_end self.old) ≡ None
            → IfSome (cosigner_records self.old) (λ list. cosigner_of H.hash (list
            ++ next_child (cosigner_state self.old) ∷ [])
            ≡ Ok (having_child (cosigner_state self.old))) }
        ensures number { IfOk result (λ n. n ≡ (cosigner_state self.old).key.children) }
        ensures records { OnErr result (cosigner_records self.new ≡ cosigner_records self.old) }
    {
        let lower = self.prepare(alloc)?;
        match self.keyless.child() {
            Ok(number) => {
                self.key.adopt(lower);
                Ok(number)
            }
            Err(why) => Err(why),
        }
    }

    // Makes the next lower tree, if one is to be made, without counting it.
    fn prepare(&self, alloc: Global) -> Result<Lower, ChildError>
        ensures prepares { PreparesChild (cosigner_state self.now) result }
        ensures counts { CountsKeys (cosigner_state self.now).key }
    {
        self.keyless.test_child()?;
        let lower = self.key.prepare(alloc)?;
        Ok(lower)
    }

    /// Writes what others may know of the cosigner: its id and that of its log, each after its
    /// length of one byte, its public key after its length of two bytes, and each record but the
    /// first after its length of four bytes. No clause says which bytes it writes over a disk whose
    /// bytes the model doesn't know: that it doesn't write the secret then is read off the program.
    /// It writes while it reads, takes no memory, and leaves the cosigner as it was. If an append
    /// has failed, it writes the records without the one that failed, even if that one is on the
    /// disk.
    ///
    /// Errors: `Read` where the disk fails, and `Write` where the sink does. A prefix of the export
    /// is written then.
    pub fn export<O: Sink>(&mut self, out: &mut O) -> Result<(), CopyError>
        ensures written { OnOk result (IfSome (cosigner_records self.old)
            (λ list. Appends (O.taken out.old) (O.taken out.new)
            (export_text (cosigner_state self.old) list))) }
        ensures prefix { IfSome (cosigner_records self.old)
            (λ list. AppendsPrefix (O.taken out.old) (O.taken out.new)
            (export_text (cosigner_state self.old) list)) }
        ensures grows { AppendsSome (O.taken out.old) (O.taken out.new) }
        ensures only_reads { OnlyReads D.Disk (cosigner_disk self.old) (cosigner_disk self.new) }
        ensures same { IsShown self.old self.new }
        ensures cause { HasCopyCause (D.faults (cosigner_disk self.old)) (O.faults out.old)
            (D.faults (cosigner_disk self.new)) (O.faults out.new) result }
    {
        let public = self.key.public();
        self.keyless.export_with(&public, out)
    }

    /// The size of the log that is held, and its root.
    pub fn held(&self) -> (u64, [u8; 32])
        ensures { result ≡ (
          (cosigner_state self.now).held.size,
          (cosigner_state self.now).held.root,
        ) }
    {
        self.keyless.held()
    }

    /// The public key of its signatures (RFC 8554, section 6.1).
    pub fn public(&self) -> [u8; PUBLIC_KEY_LEN]
        ensures { result ≡ public_of (cosigner_state self.now).key.key }
    {
        self.key.public()
    }

    /// The id of the cosigner.
    pub fn id(&self) -> &AnchorId
        ensures { result.now ≡ (cosigner_state self.now).id }
    {
        self.keyless.id()
    }

    /// The disk, for another use.
    pub fn into_disk(self) -> D
        ensures { result ≡ cosigner_disk self }
    {
        let Cosigner { keyless, key: _ } = self;
        keyless.into_disk()
    }
}
