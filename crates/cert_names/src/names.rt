//! Names of one attribute (RFC 5280, section 4.1.2.4).

ghost use Rattle.std.specs.Prelude.{◌≡◌, ◌+◌, ◌≤◌, length, IfOk};
ghost use Rattle.cert_names.specs.Names.{attribute_contents, name_of};

use der_core::tags::{OBJECT_IDENTIFIER, SEQUENCE, SET, UTF8_STRING};
use der_core::{element_of, put};
use mtc_io::{Bytes, Memory};
use std::alloc::Global;

// The identifier and the text.
fn attribute_contents(alloc: Global, identifier: &[u8], text: &[u8]) -> Result<Bytes, Memory>
    requires { length identifier.now + length text.now ≤ 16000000 }
    ensures { IfOk result (λ bytes. bytes ≡ attribute_contents identifier.now text.now) }
{
    let mut out = Bytes::new(alloc);
    put(OBJECT_IDENTIFIER, identifier, &mut out)?;
    put(UTF8_STRING, text, &mut out)?;
    Ok(out)
}

/// The name of one set of one attribute: its identifier, as the contents of an OBJECT IDENTIFIER,
/// and a text, as a UTF8String, at most 16,000,000 bytes together. The call refuses only if memory
/// runs out.
pub fn name_of(alloc: Global, identifier: &[u8], text: &[u8]) -> Result<Bytes, Memory>
    requires { length identifier.now + length text.now ≤ 16000000 }
    ensures { IfOk result (λ bytes. bytes ≡ name_of identifier.now text.now) }
{
    let inner = attribute_contents(alloc, identifier, text)?;
    let attribute = element_of(alloc, SEQUENCE, inner.as_slice())?;
    let set = element_of(alloc, SET, attribute.as_slice())?;
    element_of(alloc, SEQUENCE, set.as_slice())
}
