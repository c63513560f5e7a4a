//! The extensions of what is issued: subjectAltName alone (RFC 5280, section 4.2.1.6).

ghost use Rattle.std.specs.Prelude.{◌≡◌, ◌≤◌, ◌++◌, length, is_none, IfOk, OnOk};
ghost use Rattle.der_core.specs.Elements.{element};
ghost use Rattle.cert_fields.specs.Grammar.{extension, extension_contents, mark};
ghost use Rattle.authority_core.specs.Issuing.{alt_name_of, dns_names, extensions_of};
ghost use Rattle.authority_core.specs.Requests.{CanBeIssued};

use crate::requests::{Names, Request};
use cert_fields::SUBJECT_ALT_NAME;
use cert_fields::tags::{DNS_NAME, EXTENSIONS};
use der_core::tags::{OBJECT_IDENTIFIER, OCTET_STRING, SEQUENCE};
use der_core::{element_of, put};
use mtc_io::{Bytes, Memory};
use std::alloc::Global;

// A BOOLEAN of TRUE.
const CRITICAL: [u8; 3] = [0x01, 0x01, 0xFF];

// The names as dNSNames, in their order.
fn dns_names(alloc: Global, names: &Names) -> Result<Bytes, Memory>
    ensures names { IfOk result (λ bytes. bytes ≡ dns_names names.now) }
    ensures short { IfOk result (λ bytes. length bytes ≤ 25800) }
{
    let mut out = Bytes::new(alloc);
    for name in names.as_slice() {
        put(DNS_NAME, name.as_slice(), &mut out)?;
    }
    Ok(out)
}

// The names in their SEQUENCE.
fn general_names(alloc: Global, names: &Names) -> Result<Bytes, Memory>
    ensures { IfOk result (λ bytes. bytes ≡ element 0x30 (dns_names names.now)) }
{
    let names = dns_names(alloc, names)?;
    element_of(alloc, SEQUENCE, names.as_slice())
}

// Appends the mark of a critical extension to the bytes; no bytes if it is not critical.
fn put_mark(critical: bool, out: &mut Bytes) -> Result<(), Memory>
    ensures { OnOk result (out.new ≡ out.old ++ mark critical) }
{
    if critical {
        out.append(&CRITICAL)
    } else {
        Ok(())
    }
}

// The identifier, the mark and the names. The extension is critical exactly if the subject is
// empty.
fn alt_name(alloc: Global, request: &Request) -> Result<Bytes, Memory>
    ensures value { IfOk result (λ bytes. bytes ≡ extension_contents (alt_name_of request.now)) }
    ensures valid { CanBeIssued request.now }
{
    let octets = general_names(alloc, &request.names)?;
    let mut out = Bytes::new(alloc);
    put(OBJECT_IDENTIFIER, &SUBJECT_ALT_NAME, &mut out)?;
    put_mark(request.common_name.is_none(), &mut out)?;
    put(OCTET_STRING, octets.as_slice(), &mut out)?;
    Ok(out)
}

/// The extensions field, in which subjectAltName stands alone.
#[tactic(auto, using(crate::proofs::Sizes::sole), unfolding(crate::specs::Issuing::extensions_of))]
pub fn extensions_of(alloc: Global, request: &Request) -> Result<Bytes, Memory>
    ensures { IfOk result (λ bytes. bytes ≡ extensions_of request.now) }
{
    let contents = alt_name(alloc, request)?;
    let extension = element_of(alloc, SEQUENCE, contents.as_slice())?;
    let list = element_of(alloc, SEQUENCE, extension.as_slice())?;
    element_of(alloc, EXTENSIONS, list.as_slice())
}
