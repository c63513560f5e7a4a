//! The command `show`: what a certificate says.

ghost use Rattle.std.specs.Prelude.{◌≡◌, ◌<◌, ◌^◌, [], ◌∷◌, ◌++◌, IfOk, OnOk, string_bytes};
ghost use Rattle.std.specs.List.{list_all, flat_map};
ghost use Rattle.cert_names.specs.LogNames.{log_in};
ghost use Rattle.cert_fields.specs.Views.{parts};
ghost use Rattle.tls_wire.specs.Anchors.{anchor_of};
ghost use Rattle.mtc_proof.specs.Views.{proof_parts, sig_parts};
ghost use Rattle.mtc_io.specs.Streams.{joined};
ghost use Rattle.mtc_command.specs.Answers.{ending_of};
ghost use Rattle.mtc_command.specs.Endings.{Replies};
ghost use Rattle.mtc_command.specs.Served.{HasAnswered};
ghost use Rattle.mtc_relying.specs.ShowOutcome.{issuer_text, subject_text, is_graphic, name_line};
ghost use Rattle.mtc_relying.specs.ShowOutcome.{fields_text, cosigner_text, signature_line};
ghost use Rattle.mtc_relying.specs.ShowOutcome.{interval_text, proof_section, show_text, show_says};
ghost use Rattle.mtc_relying.specs.ShowOutcome.{show_outcome};

use crate::reasons::cert_reason;
use cert_fields::{Cert, DnsNames, MTC_PROOF, dns_names, parse};
use cert_names::log_of;
use cert_time::seconds_to_text;
use der_core::tags::SEQUENCE;
use mtc_command::{Answer, INPUT_LIMIT, Said, Stop, Stopped, read_input, refuse_file};
use mtc_io::{Bytes, Memory};
use mtc_proof::{Proof, SigRef, Signatures, read_proof, signatures};
use mtc_room::Room;
use std::alloc::{AllocError, Global};
use tls_wire::{AnchorBytesError, AnchorId};

// A subject without a name: a SEQUENCE of nothing.
const NO_NAME: [u8; 2] = [SEQUENCE, 0x00];

// Appends pieces to the bytes, one after the other.
fn append_all(out: &mut Bytes, pieces: &[&[u8]]) -> Result<(), Memory>
    ensures { OnOk result (out.new ≡ out.old ++ joined pieces.now) }
{
    for piece in pieces {
        out.append(piece)?;
    }
    Ok(())
}

fn issuer(name: &[u8]) -> &[u8]
    ensures { result.now ≡ issuer_text (log_in name.now) }
{
    match log_of(name) {
        Some(id) => id,
        None => b"other",
    }
}

fn subject_name(alloc: Global, subject: &[u8]) -> Result<String, AllocError>
    ensures { IfOk result (λ text. string_bytes text ≡ subject_text subject.now) }
{
    if subject == NO_NAME.as_slice() {
        String::from_str(alloc, "empty")
    } else {
        hex::encode(alloc, subject)
    }
}

fn put_fields(alloc: Global, out: &mut Bytes, cert: &Cert) -> Result<(), Memory>
    ensures { OnOk result (out.new ≡ out.old ++ fields_text (parts cert.now)) }
{
    let serial = format!(in alloc; "{}", cert.serial)?;
    let subject = subject_name(alloc, cert.subject)?;
    let key = hex::encode(alloc, cert.spki)?;
    let not_before = seconds_to_text(cert.validity.not_before);
    let not_after = seconds_to_text(cert.validity.not_after);
    append_all(
        out,
        &[
            b"serial ",
            serial.as_bytes(),
            b"\nissuer ",
            issuer(cert.issuer),
            b"\nnot_before ",
            &not_before,
            b"\nnot_after ",
            &not_after,
            b"\nsubject ",
            subject.as_bytes(),
            b"\nkey ",
            key.as_bytes(),
            b"\n",
        ],
    )
}

fn are_graphic(bytes: &[u8]) -> bool
    ensures { result ≡ list_all is_graphic bytes.now }
{
    bytes.iter().all(|byte| 33 <= *byte && *byte <= 126)
}

fn put_name(alloc: Global, out: &mut Bytes, name: &[u8]) -> Result<(), Memory>
    ensures { OnOk result (out.new ≡ out.old ++ name_line name.now) }
{
    if are_graphic(name) {
        return append_all(out, &[b"name ", name, b"\n"]);
    }
    let text = hex::encode(alloc, name)?;
    append_all(out, &[b"name-hex ", text.as_bytes(), b"\n"])
}

#[tactic(auto, using(std::proofs::lemmas::List::append_assoc))]
fn put_names(alloc: Global, out: &mut Bytes, names: DnsNames) -> Result<(), Memory>
    ensures { OnOk result (out.new ≡ out.old ++ flat_map name_line names.entry) }
{
    for name in names {
        put_name(alloc, out, name)?;
    }
    Ok(())
}

// A cosigner's id as it is printed.
fn cosigner_name(alloc: Global, id: &[u8]) -> Result<Bytes, Memory>
    ensures { IfOk result (λ text. text ≡ cosigner_text id.now (anchor_of id.now)) }
{
    match AnchorId::from_bytes(alloc, id) {
        Ok(id) => id.to_text(),
        Err(AnchorBytesError::Memory) => Err(Memory),
        Err(_) => {
            let text = hex::encode(alloc, id)?;
            Ok(Bytes::from_vec(format!(in alloc; "hex:{text}")?.into_bytes()))
        }
    }
}

fn put_signature(alloc: Global, out: &mut Bytes, signature: &SigRef) -> Result<(), Memory>
    ensures { OnOk result (out.new ≡ out.old ++ signature_line (sig_parts signature.now)) }
{
    let name = cosigner_name(alloc, signature.cosigner)?;
    let length = format!(in alloc; "{}", signature.signature.len())?;
    append_all(
        out,
        &[
            b"signature ",
            name.as_slice(),
            b" ",
            length.as_bytes(),
            b"\n",
        ],
    )
}

#[tactic(auto, using(std::proofs::lemmas::List::append_assoc))]
fn put_signatures(alloc: Global, out: &mut Bytes, signatures: Signatures) -> Result<(), Memory>
    ensures { OnOk result (out.new ≡ out.old ++ flat_map signature_line signatures.entry) }
{
    for signature in signatures {
        put_signature(alloc, out, &signature)?;
    }
    Ok(())
}

fn put_interval(alloc: Global, out: &mut Bytes, proof: &Proof) -> Result<(), Memory>
    ensures { OnOk result (out.new ≡ out.old ++ interval_text (proof_parts proof.now)) }
{
    let (start, end) = (proof.start, proof.end);
    let count = proof.path.len();
    let text = format!(in alloc; "interval {start} {end}\npath {count}\n")?;
    out.append(text.as_bytes())
}

// The lines of the proof.
fn put_proof(alloc: Global, out: &mut Bytes, cert: &Cert) -> Result<(), Memory>
    ensures { OnOk result (out.new ≡ out.old ++ proof_section (parts cert.now)) }
{
    if cert.algorithm != MTC_PROOF.as_slice() {
        return out.append(b"proof none\n");
    }
    match read_proof(cert.proof) {
        Ok(proof) => {
            put_interval(alloc, out, &proof)?;
            put_signatures(alloc, out, signatures(&proof))
        }
        Err(_) => out.append(b"proof none\n"),
    }
}

// The lines of a certificate.
fn lines(alloc: Global, cert: &Cert) -> Result<Bytes, Memory>
    ensures { IfOk result (λ text. text ≡ show_text (parts cert.now)) }
{
    let mut out = Bytes::new(alloc);
    put_fields(alloc, &mut out, cert)?;
    put_names(alloc, &mut out, dns_names(cert))?;
    put_proof(alloc, &mut out, cert)?;
    Ok(out)
}

fn answer_of<'a>(alloc: Global, file: &'a str, bytes: &[u8]) -> Result<Answer, Stop<'a>>
    ensures { Replies (show_says file.now bytes.now).answer (ending_of result) }
{
    match parse(bytes) {
        Ok(cert) => Ok(Answer {
            status: Said::Done,
            text: lines(alloc, &cert)?,
        }),
        Err(why) => Err(refuse_file(Stopped::BadForm, file, cert_reason(why))),
    }
}

/// The command `show CERT`.
pub fn show<'a, R: Room>(alloc: Global, room: &mut R, file: &'a str) -> Result<Answer, Stop<'a>>
    requires { R.opened room.old < 2 ^ 32 }
    ensures { HasAnswered R.Room R.Dsk.Disk (file.now ∷ [])
        (show_outcome file.now (R.file room.old)) room.old room.new (ending_of result) }
{
    let bytes = read_input(alloc, room, file, INPUT_LIMIT)?;
    answer_of(alloc, file, bytes.as_slice())
}
