//! From the id of a log to its name.

ghost use Rattle.std.specs.Prelude.{◌≡◌, IfOk};
ghost use Rattle.tls_wire.specs.Anchors.{text_of};
ghost use Rattle.cert_names.specs.LogNames.{name_with};

use crate::names::name_of;
use crate::reading::LOG_ID;
use mtc_io::{Bytes, Memory};
use std::alloc::Global;
use tls_wire::AnchorId;

/// The issuer name of the log with this id: one set of one attribute, a UTF8String with the id in
/// dotted decimal. The call refuses only if memory runs out.
#[tactic(auto, unfolding(crate::specs::LogNames::name_with))]
pub fn log_name(alloc: Global, id: &AnchorId) -> Result<Bytes, Memory>
    ensures { IfOk result (λ bytes. bytes ≡ name_with (text_of id.now)) }
{
    let text = id.to_text()?;
    name_of(alloc, &LOG_ID, text.as_slice())
}
