//! A certificate as PEM.

ghost use Rattle.std.specs.Prelude.{◌≡◌, ◌++◌, length, take, drop, string_bytes, IfOk, OnOk};
ghost use Rattle.base64.specs.Engines.{standard};
ghost use Rattle.base64.specs.GeneralPurpose.{encode_of};
ghost use Rattle.authority_core.specs.Several.{lines_of_64, pem_of};

use base64::engine::general_purpose::STANDARD;
use mtc_io::{Bytes, Memory};
use std::alloc::{AllocError, Global};

// A line has at most so many characters.
const LINE: usize = 64;

fn in_base64(alloc: Global, der: &[u8]) -> Result<String, AllocError>
    ensures { IfOk result (λ text. string_bytes text ≡ encode_of standard der.now) }
{
    STANDARD.encode(alloc, der)
}

// The first line of a text, of at most 64 characters, and what follows it.
fn first_line(text: &[u8]) -> (&[u8], &[u8])
    ensures line { result.0.now ≡ take 64 text.now }
    ensures later { result.1.now ≡ drop 64 text.now }
{
    if text.len() < LINE {
        (text, &[])
    } else {
        text.split_at(LINE)
    }
}

// Appends text in lines of 64 characters.
fn append_lines(out: &mut Bytes, text: &[u8]) -> Result<(), Memory>
    ensures { OnOk result (out.new ≡ out.old ++ lines_of_64 (length text.now) text.now) }
{
    let mut rest = text;
    while !rest.is_empty() {
        let (line, later) = first_line(rest);
        out.append_both(line, b"\n")?;
        rest = later;
    }
    Ok(())
}

/// Appends a certificate as PEM (RFC 7468, section 5).
#[tactic(auto, unfolding(crate::specs::Several::pem_of))]
pub(crate) fn append_pem(alloc: Global, out: &mut Bytes, der: &[u8]) -> Result<(), Memory>
    ensures { OnOk result (out.new ≡ out.old ++ pem_of der.now) }
{
    let text = in_base64(alloc, der)?;
    out.append(b"-----BEGIN CERTIFICATE-----\n")?;
    append_lines(out, text.as_bytes())?;
    out.append(b"-----END CERTIFICATE-----\n")
}
