//! Writing a certificate.

ghost use Rattle.std.specs.Prelude.{◌≡◌, ◌^◌, ◌<◌, ◌≤◌, ◌∷◌, ◌++◌, [], length, Ok, IfOk, OnOk};
ghost use Rattle.cert_fields.specs.Certificate.{parts_of};
ghost use Rattle.cert_fields.specs.Grammar.{IsCertificate};
ghost use Rattle.cert_fields.specs.Encoding.{tbs_fields, certificate_fields, certificate};
ghost use Rattle.cert_fields.specs.Given.{given, mtc_proof, size_of};
ghost use Rattle.der_core.specs.Elements.{element};

use crate::identifiers::MTC_PROOF;
use crate::parts::CertParts;
use cert_time::put_validity;
use der_core::tags::{BIT_STRING, SEQUENCE};
use der_core::{put, put_unsigned};
use mtc_io::{Bytes, Memory};
use std::alloc::Global;

const VERSION_3: [u8; 5] = [0xA0, 0x03, 0x02, 0x01, 0x02];

/// Writes a certificate (RFC 5280, section 4.1) whose algorithm is that of Merkle tree proofs. The
/// parts have at most 16,000,000 bytes together. The call refuses only if memory runs out.
///
/// The parts are put together as they are. [`parse`](crate::parse) reads them again from what is
/// written if they are those of a certificate, which has a serial number from 1 on and elements in
/// the grammar of their fields.
pub fn write(alloc: Global, parts: &CertParts) -> Result<Bytes, Memory>
    requires short { size_of parts.now ≤ 16000000 }
    ensures exact { IfOk result (λ bytes. bytes ≡ certificate (given parts.now)) }
    ensures read { IsCertificate (given parts.now)
        → IfOk result (λ bytes. parts_of bytes ≡ Ok (given parts.now)) }
{
    certificate_element(alloc, parts)
}

// The whole certificate.
#[tactic(auto, unfolding(crate::specs::Encoding::certificate))]
fn certificate_element(alloc: Global, parts: &CertParts) -> Result<Bytes, Memory>
    requires short { size_of parts.now ≤ 16000000 }
    ensures { IfOk result (λ bytes. bytes ≡ certificate (given parts.now)) }
{
    let fields = certificate_contents(alloc, parts)?;
    let mut out = Bytes::new(alloc);
    put(SEQUENCE, fields.as_slice(), &mut out)?;
    Ok(out)
}

// The contents of the whole certificate.
fn certificate_contents(alloc: Global, parts: &CertParts) -> Result<Bytes, Memory>
    requires short { size_of parts.now ≤ 16000000 }
    ensures exact { IfOk result (λ bytes. bytes ≡ certificate_fields (given parts.now)) }
    ensures serial { IfOk result (λ _. parts.now.serial < 2 ^ 64) }
{
    let signed = signed_contents(alloc, parts)?;
    let bits = signature_contents(alloc, &parts.proof)?;
    let mut out = Bytes::new(alloc);
    put_contents(signed.as_slice(), bits.as_slice(), &mut out)?;
    Ok(out)
}

// Puts what is signed, the algorithm and the signature into no bytes.
fn put_contents(signed: &[u8], bits: &[u8], out: &mut Bytes) -> Result<(), Memory>
    requires short { length signed.now < 2 ^ 24 }
    requires few { length bits.now < 2 ^ 24 }
    requires empty { out.old ≡ [] }
    ensures { OnOk result
        (out.new ≡ (element 0x30 signed.now ++ mtc_proof) ++ element 0x03 bits.now) }
{
    put(SEQUENCE, signed, out)?;
    out.append(&MTC_PROOF)?;
    put(BIT_STRING, bits, out)?;
    Ok(())
}

// The contents of what is signed.
fn signed_contents(alloc: Global, parts: &CertParts) -> Result<Bytes, Memory>
    ensures exact { IfOk result (λ bytes. bytes ≡ tbs_fields (given parts.now)) }
    ensures serial { IfOk result (λ _. parts.now.serial < 2 ^ 64) }
{
    let mut out = Bytes::new(alloc);
    put_signed(parts, &mut out)?;
    Ok(out)
}

// Puts the contents of what is signed into no bytes.
fn put_signed(parts: &CertParts, out: &mut Bytes) -> Result<(), Memory>
    requires empty { out.old ≡ [] }
    ensures exact { OnOk result (out.new ≡ tbs_fields (given parts.now)) }
    ensures serial { OnOk result (parts.now.serial < 2 ^ 64) }
{
    out.append(&VERSION_3)?;
    put_unsigned(parts.serial, out)?;
    out.append(&MTC_PROOF)?;
    out.append(parts.issuer.as_slice())?;
    put_validity(&parts.validity, out)?;
    out.append(parts.subject.as_slice())?;
    out.append(parts.spki.as_slice())?;
    out.append(parts.extensions.as_slice())?;
    Ok(())
}

// The contents of the signature: no unused bits, and the proof.
fn signature_contents(alloc: Global, proof: &Bytes) -> Result<Bytes, Memory>
    ensures { IfOk result (λ bytes. bytes ≡ 0 ∷ proof.now) }
{
    let mut out = Bytes::copy_of(alloc, &[0])?;
    out.append(proof.as_slice())?;
    Ok(out)
}
