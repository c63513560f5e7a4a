//! The entry of a request.

ghost use Rattle.std.specs.Prelude.{◌≡◌, true, IfOk};
ghost use Rattle.log_entry.specs.Matching.{has_form, matches};
ghost use Rattle.authority_core.specs.Acceptance.{IsOwnEntry};
ghost use Rattle.authority_core.specs.Issuing.{entry_for};

use crate::issuing::extensions::extensions_of;
use crate::issuing::subject::subject_of;
use crate::requests::Request;
use cert_names::log_name;
use log_entry::{EntryParts, Form, algorithm_for, key_hash, write_entry};
use mtc_io::{Bytes, Memory};
use std::alloc::Global;
use tls_wire::AnchorId;
use tree_core::TreeHash;

// The entry, field by field.
#[tactic(auto, unfolding(crate::specs::Issuing::entry_for))]
fn written<H: TreeHash>(
    alloc: Global,
    id: &AnchorId,
    form: Form,
    request: &Request,
) -> Result<Bytes, Memory>
    ensures { IfOk result (λ bytes. bytes ≡ entry_for H.hash form id.now request.now) }
{
    let issuer = log_name(alloc, id)?;
    let subject = subject_of(alloc, &request.common_name)?;
    let extensions = extensions_of(alloc, request)?;
    let spki = request.key.as_slice();
    let key = key_hash::<H>(spki);
    write_entry(
        alloc,
        &EntryParts {
            issuer: issuer.as_slice(),
            validity: request.validity,
            subject: subject.as_slice(),
            algorithm: algorithm_for(form, spki),
            key_hash: &key,
            extensions: extensions.as_slice(),
        },
    )
}

/// The entry that a request makes, in this form, in the log with this id. Its issuer is the name of
/// the log; its subject is empty or the common name (RFC 5280, section 4.1.2.6); its one extension
/// is subjectAltName with the names in their order as dNSNames, critical exactly if the subject is
/// empty (section 4.2.1.6). The key of the request belongs to it. The call refuses only if memory
/// runs out.
pub fn entry_of_request<H: TreeHash>(
    alloc: Global,
    id: &AnchorId,
    form: Form,
    request: &Request,
) -> Result<Bytes, Memory>
    ensures bytes { IfOk result (λ bytes. bytes ≡ entry_for H.hash form id.now request.now) }
    ensures own { IsOwnEntry id.now (entry_for H.hash form id.now request.now) }
    ensures belongs { matches H.hash (entry_for H.hash form id.now request.now) request.now.key
        ≡ true }
    ensures form { has_form form (entry_for H.hash form id.now request.now) ≡ true }
{
    // The entry is one of the log, and the key belongs to it, since these bytes are an anchor id,
    // whose text is short enough for a name, and since the request can be issued.
    let _bytes = id.as_bytes();
    let _key = &request.key;
    written::<H>(alloc, id, form, request)
}
