//! What a caller wants of a certificate that was accepted, put into buffers of the caller.

ghost use Rattle.std.specs.Prelude.{◌≡◌, Ok, option_map};
ghost use Rattle.std.specs.List.{slice_get};
ghost use Rattle.byte_formats.specs.Readings.{Gives};
ghost use Rattle.cert_fields.specs.Views.{parts};
ghost use Rattle.mtc_c.specs.Pieces.{IsPutInBuffer, cert_in, entry_hash_in, form_numbered};
ghost use Rattle.mtc_c.specs.Pieces.{name_in, public_key_in};

use crate::size::is_too_long;
use crate::status::{BAD_FORM, DONE, NO_SUCH_NAME, TOO_LONG};
use cert_fields::{Cert, DnsNames, dns_names, parse};
use log_entry::{Form, entry_hash};
use tree_core::TreeHash;

/// Puts bytes at the start of a buffer, if they fit, and answers how many they are.
pub(crate) fn copy_out(piece: &[u8], out: &mut [u8], length: &mut u64) -> u32
    ensures { IsPutInBuffer (Ok piece.now) out.old out.new length.new result }
{
    *length = piece.len() as u64;
    if out.len() < piece.len() {
        return TOO_LONG;
    }
    out[..piece.len()].copy_from_slice(piece);
    DONE
}

// The certificate that these bytes are, if they aren't too many.
fn cert_of(bytes: &[u8]) -> Result<Cert<'_>, u32>
    ensures { Gives (λ c. parts c) result (cert_in bytes.now) }
{
    if is_too_long(bytes) {
        return Err(BAD_FORM);
    }
    match parse(bytes) {
        Ok(cert) => Ok(cert),
        Err(_) => Err(BAD_FORM),
    }
}

/// The key of a certificate.
pub(crate) fn public_key_of(cert: &[u8]) -> Result<&[u8], u32>
    ensures { Gives (λ key. key.now) result (public_key_in cert.now) }
{
    let cert = cert_of(cert)?;
    Ok(cert.spki)
}

// The name with this number, counted from 0.
fn numbered<'a>(names: DnsNames<'a>, number: u64) -> Option<&'a [u8]>
    ensures { option_map (λ name. name.now) result ≡ slice_get names.entry number }
{
    let mut names = names;
    names.nth(number as usize)
}

/// A name of a certificate.
pub(crate) fn name_of(cert: &[u8], number: u64) -> Result<&[u8], u32>
    ensures { Gives (λ name. name.now) result (name_in cert.now number) }
{
    let cert = cert_of(cert)?;
    numbered(dns_names(&cert), number).ok_or(NO_SUCH_NAME)
}

// The form of an entry that a number names.
fn form_numbered(number: u32) -> Result<Form, u32>
    ensures { result ≡ form_numbered number }
{
    match number {
        1 => Ok(Form::One),
        2 => Ok(Form::Two),
        _ => Err(BAD_FORM),
    }
}

/// The hash of the entry of a certificate, in the form with this number.
pub(crate) fn entry_hash_of<H: TreeHash>(cert: &[u8], number: u32) -> Result<[u8; 32], u32>
    ensures { result ≡ entry_hash_in H.hash number cert.now }
{
    let cert = cert_of(cert)?;
    let form = form_numbered(number)?;
    Ok(entry_hash::<H>(&cert, form))
}
