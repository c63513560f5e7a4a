//! The subject of what is issued (RFC 5280, sections 4.1.2.4 and 4.1.2.6).

ghost use Rattle.std.specs.Prelude.{◌≡◌, IfOk, IfSome};
ghost use Rattle.authority_core.specs.Issuing.{subject_of};
ghost use Rattle.authority_core.specs.Requests.{IsCommonName};

use cert_names::name_of;
use der_core::element_of;
use der_core::tags::SEQUENCE;
use mtc_io::{Bytes, Memory};
use std::alloc::Global;

// The attribute of a common name: 2.5.4.3.
const COMMON_NAME: [u8; 3] = [0x55, 0x04, 0x03];

/// A name of one common name, as a UTF8String, or the empty name.
#[tactic(auto, unfolding(crate::specs::Issuing::subject_of))]
pub fn subject_of(alloc: Global, common_name: &Option<Bytes>) -> Result<Bytes, Memory>
    requires { IfSome common_name.now IsCommonName }
    ensures { IfOk result (λ bytes. bytes ≡ subject_of common_name.now) }
{
    match common_name {
        Some(text) => name_of(alloc, &COMMON_NAME, text.as_slice()),
        None => element_of(alloc, SEQUENCE, &[]),
    }
}
