//! Laws of names: the clauses are the laws, and the functions do nothing.

ghost use Rattle.std.specs.Prelude.{◌≡◌, true, Some};
ghost use Rattle.byte_formats.specs.Types.{Text};
ghost use Rattle.byte_formats.specs.Offsets.{IsBytes};
ghost use Rattle.tls_wire.specs.Arcs.{IsAnchorId};
ghost use Rattle.tls_wire.specs.Anchors.{text_of};
ghost use Rattle.cert_names.specs.Hosts.{AreJoined, is_host_name};
ghost use Rattle.cert_names.specs.LogNames.{IsLogName, name_with, log_in};

/// The name of each anchor id is a log's, and a log's name is read exactly from its encoding.
pub fn law_log_names_decode_as_encoded()
    ensures ids { (id : Text) → IsAnchorId id → IsLogName (name_with (text_of id)) (text_of id) }
    ensures read { (name text : Text) → IsBytes name → log_in name ≡ Some text
        → IsLogName name text }
    ensures again { (name text : Text) → IsLogName name text → log_in name ≡ Some text }
{}

/// A text is a host name exactly if it is labels with dots between them, 1 to 253 bytes.
pub fn law_host_names_are_joined_labels()
    ensures cut { (text : Text) → is_host_name text ≡ true → AreJoined text }
    ensures joined { (text : Text) → AreJoined text → is_host_name text ≡ true }
{}
