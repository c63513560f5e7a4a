//! Names of trust anchors.

ghost use Rattle.std.specs.Prelude.{◌≡◌, ◌≤◌, length, IfOk};
ghost use Rattle.byte_formats.specs.Readings.{Answers};
ghost use Rattle.tls_wire.specs.Arcs.{IsAnchorId};
ghost use Rattle.tls_wire.specs.Anchors.{anchor_of, anchor_text, is_anchor_text, text_of};

use crate::arcs::read_arcs;
use crate::dotted::{arcs_of_text, is_dotted, text_of_arcs};
use crate::fault::{AnchorBytesError, AnchorError};
use mtc_io::{Bytes, Memory};
use std::alloc::Global;
use std::marker::Model;

/// The name of a trust anchor: the contents of a relative object identifier, 1 to 255 bytes, each
/// arc below 2 ^ 64. Contracts see it as its bytes.
#[derive(Debug, Drop)]
pub struct AnchorId {
    bytes: Bytes,
    alloc: Global,
}

impl Model for AnchorId {
    ghost use Rattle.byte_formats.specs.Types.{Text};

    ghost Value = { Text };

    ghost use Rattle.tls_wire.specs.Arcs.{IsAnchorId};

    ghost view = { λ a. a.bytes };

    ghost invariant = { λ a. IsAnchorId a.bytes };
}

impl AnchorId {
    /// The anchor id with this text, in dotted decimal without leading zeros. The first fault from
    /// the left is answered.
    #[tactic(auto, unfolding(crate::specs::Anchors::anchor_text))]
    pub fn from_text(alloc: Global, text: &str) -> Result<AnchorId, AnchorError>
        ensures { Answers AnchorError.Memory (anchor_text text.now) result }
    {
        let characters = text.as_bytes();
        if characters.is_empty() {
            return Err(AnchorError::Empty);
        }
        let bytes = arcs_of_text(alloc, characters)?;
        if bytes.len() > 255 {
            return Err(AnchorError::TooLong);
        }
        Ok(AnchorId { bytes, alloc })
    }

    /// The text is one from which [`from_text`](AnchorId::from_text) makes an anchor id. It takes
    /// no memory.
    pub fn is_text(text: &[u8]) -> bool
        ensures { result ≡ is_anchor_text text.now }
    {
        is_dotted(text)
    }

    /// The anchor id with these bytes. The first fault from the left is answered.
    #[tactic(auto, unfolding(crate::specs::Anchors::anchor_of))]
    pub fn from_bytes(alloc: Global, bytes: &[u8]) -> Result<AnchorId, AnchorBytesError>
        ensures { Answers AnchorBytesError.Memory (anchor_of bytes.now) result }
    {
        if bytes.is_empty() {
            return Err(AnchorBytesError::Empty);
        }
        if bytes.len() > 255 {
            return Err(AnchorBytesError::TooLong);
        }
        read_arcs(bytes)?;
        let copy = Bytes::copy_of(alloc, bytes)?;
        Ok(AnchorId { bytes: copy, alloc })
    }

    /// The contents of the relative object identifier.
    pub fn as_bytes(&self) -> &[u8]
        ensures value { result.now ≡ self.now }
        ensures anchor { IsAnchorId self.now }
    {
        self.bytes.as_slice()
    }

    /// The arcs in dotted decimal.
    pub fn to_text(&self) -> Result<Bytes, Memory>
        ensures exact { IfOk result (λ text. text ≡ text_of self.now) }
        ensures short { IfOk result (λ text. length text ≤ 5355) }
    {
        text_of_arcs(self.alloc, self.as_bytes())
    }
}
