//! The bodies of records, as they are written.

ghost use Rattle.std.specs.Prelude.{◌≡◌, ◌+◌, ◌*◌, ◌≤◌, ◌++◌, [], length, IfOk, IfSome, OnOk};
ghost use Rattle.std.specs.Int.{w8};
ghost use Rattle.byte_formats.specs.Forms.{optional};
ghost use Rattle.lms_core.specs.Heights.{IsSigningHeight};
ghost use Rattle.tls_wire.specs.Encoding.{hashes, number};
ghost use Rattle.cosigner_core.specs.Records.{FitsAdvance, FitsChild, FitsCosigner, FitsSign};
ghost use Rattle.cosigner_core.specs.Records.{advance_record, child_record, cosigner_record};
ghost use Rattle.cosigner_core.specs.Records.{first_tag, height_text, sign_record};

use crate::record::{ADVANCE, CHILD, COSIGNER, COSIGNER_2, SIGN};
use crate::settings::CosignerSettings;
use hss_core::{LmsType, Secret};
use mtc_io::{Bytes, Memory};
use std::alloc::Global;
use std::marker::Model;
use tls_wire::{put_bytes, put_u8, put_u32, put_vec8};

// The bytes of a Sign whose proof has 65 hashes: no proof that checks has more.
const CAPACITY: usize = 2_135;

/// The body of an Advance, a Sign or a Child in the making. It lies where it is declared and takes
/// no memory of its own.
#[derive(Drop)]
pub(crate) struct StepRecord {
    bytes: [u8; CAPACITY],
    length: usize,
}

impl Model for StepRecord {
    ghost use Rattle.std.specs.Prelude.{List, ℕ, take, ◌≤◌};

    ghost Value = { List ℕ };

    ghost view = { λ s. take s.length s.bytes };

    ghost invariant = { λ s. s.length ≤ 2135 };
}

impl StepRecord {
    fn new() -> StepRecord
        ensures { result ≡ [] }
    {
        StepRecord {
            bytes: [0; CAPACITY],
            length: 0,
        }
    }

    /// The body of an Advance. A proof that checks has at most 65 hashes.
    #[tactic(auto, unfolding(crate::specs::Records::advance_record))]
    pub(crate) fn advance(size: u64, root: &[u8; 32], proof: &[[u8; 32]]) -> StepRecord
        requires { length proof.now ≤ 65 }
        ensures bytes { result ≡ advance_record size root.now proof.now }
        ensures fits { FitsAdvance size root.now proof.now }
    {
        let mut body = StepRecord::new();
        body.append(&[ADVANCE]);
        body.append(&size.to_be_bytes());
        body.append(root);
        body.append_hashes(proof);
        body
    }

    /// The body of a Sign. A proof that checks has at most 65 hashes.
    #[tactic(auto, unfolding(crate::specs::Records::sign_record))]
    pub(crate) fn sign(
        index: u32,
        start: u64,
        end: u64,
        hash: &[u8; 32],
        proof: &[[u8; 32]],
    ) -> StepRecord
        requires { length proof.now ≤ 65 }
        ensures bytes { result ≡ sign_record index start end hash.now proof.now }
        ensures fits { FitsSign index start end hash.now proof.now }
    {
        let mut body = StepRecord::new();
        body.append(&[SIGN]);
        body.append(&index.to_be_bytes());
        body.append(&start.to_be_bytes());
        body.append(&end.to_be_bytes());
        body.append(hash);
        body.append_hashes(proof);
        body
    }

    /// The body of a Child.
    #[tactic(auto, unfolding(crate::specs::Records::child_record))]
    pub(crate) fn child(number: u32, low: LmsType) -> StepRecord
        requires { IsSigningHeight low }
        ensures bytes { result ≡ child_record number low }
        ensures fits { FitsChild number low }
    {
        let mut body = StepRecord::new();
        body.append(&[CHILD]);
        body.append(&number.to_be_bytes());
        body.append(&low.typecode().to_be_bytes());
        body
    }

    pub(crate) fn as_slice(&self) -> &[u8]
        ensures value { result.now ≡ self.now }
        ensures few { length result.now ≤ 2135 }
    {
        &self.bytes[..self.length]
    }

    // Appends a piece to the bytes so far.
    fn append(&mut self, piece: &[u8])
        requires { length self.old + length piece.now ≤ 2135 }
        ensures { self.new ≡ self.old ++ piece.now }
    {
        let end = self.length + piece.len();
        self.bytes[self.length..end].copy_from_slice(piece);
        self.length = end;
    }

    // Appends hashes to the bytes so far, with their length in bytes before them.
    fn append_hashes(&mut self, items: &[[u8; 32]])
        requires few { length items.now ≤ 65 }
        requires capacity { length self.old + 2 + 32 * length items.now ≤ 2135 }
        ensures { self.new ≡ self.old ++ hashes items.now }
    {
        let bytes = items.as_flattened();
        self.append(&(bytes.len() as u16).to_be_bytes());
        self.append(bytes);
    }
}

// The tag of a first record, by the height of the lower trees.
fn put_tag(out: &mut Bytes, low: Option<LmsType>) -> Result<(), Memory>
    ensures { OnOk result (out.new ≡ out.old ++ number w8 (first_tag low)) }
{
    match low {
        None => put_u8(out, COSIGNER),
        Some(_) => put_u8(out, COSIGNER_2),
    }
}

// The typecode of the lower trees, if there are any.
fn put_low(out: &mut Bytes, low: Option<LmsType>) -> Result<(), Memory>
    ensures { OnOk result (out.new ≡ out.old ++ optional height_text low) }
{
    match low {
        None => Ok(()),
        Some(low) => put_u32(out, low.typecode()),
    }
}

/// The body of a Cosigner, or of a Cosigner2 where there are two levels.
#[tactic(auto, unfolding(crate::specs::Records::cosigner_record))]
pub(crate) fn cosigner_record(
    alloc: Global,
    settings: &CosignerSettings,
    secret: &Secret,
) -> Result<Bytes, Memory>
    requires small { IsSigningHeight settings.now.lms }
    requires low { IfSome settings.now.low IsSigningHeight }
    ensures value { IfOk result (λ body. body ≡ cosigner_record settings.now secret.now) }
    ensures fits { FitsCosigner settings.now secret.now }
{
    let id = settings.id.as_bytes();
    let log = settings.log.as_bytes();
    let secret = secret.as_bytes();
    let mut body = Bytes::new(alloc);
    put_tag(&mut body, settings.low)?;
    put_vec8(&mut body, id)?;
    put_vec8(&mut body, log)?;
    put_u32(&mut body, settings.lms.typecode())?;
    put_low(&mut body, settings.low)?;
    put_u32(&mut body, settings.ots.typecode())?;
    put_bytes(&mut body, secret)?;
    Ok(body)
}
