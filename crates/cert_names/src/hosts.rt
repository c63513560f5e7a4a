//! Host names.

ghost use Rattle.std.specs.Prelude.{◌≡◌, ◌<◌, true, [], ◌∷◌, length, IfNone, IfSome};
ghost use Rattle.std.specs.List.{list_all, position};
ghost use Rattle.cert_names.specs.Hosts.{are_labels, is_dot, is_host_name, is_label};
ghost use Rattle.cert_names.specs.Hosts.{is_label_at, is_label_byte, labels_of};

// A letter, a digit or a hyphen.
fn is_label_byte(byte: u8) -> bool
    ensures { result ≡ is_label_byte byte }
{
    byte.is_ascii_alphanumeric() || byte == b'-'
}

// Each byte may stand in a label.
fn are_label_bytes(label: &[u8]) -> bool
    ensures { result ≡ list_all is_label_byte label.now }
{
    label.iter().all(|byte| is_label_byte(*byte))
}

// Letters, digits and hyphens, with no hyphen at the ends.
#[tactic(auto, unfolding(crate::specs::Hosts::is_label))]
fn is_label(label: &[u8]) -> bool
    ensures { result ≡ is_label label.now }
{
    if label.is_empty() || label.len() > 63 {
        return false;
    }
    if label[0] == b'-' || label[label.len() - 1] == b'-' {
        return false;
    }
    are_label_bytes(label)
}

// A label; the first one may be a star.
fn is_label_in(first: bool, label: &[u8]) -> bool
    ensures { result ≡ is_label_at first label.now }
{
    if is_label(label) {
        return true;
    }
    first && label == b"*".as_slice()
}

// The offset of the first dot.
fn dot_in(text: &[u8]) -> Option<usize>
    ensures value { result ≡ position is_dot text.now }
    ensures bound { IfSome result (λ place. place < length text.now) }
{
    text.iter().position(|byte| *byte == b'.')
}

// The first label and what stands after its dot; none where there is no dot.
fn cut(text: &[u8]) -> Option<(&[u8], &[u8])>
    ensures last { IfNone result (labels_of text.now ≡ text.now ∷ []) }
    ensures parts { IfSome result (λ p. labels_of text.now ≡ p.0.now ∷ labels_of p.1.now) }
    ensures shorter { IfSome result (λ p. length p.1.now < length text.now) }
{
    match dot_in(text) {
        Some(end) => Some((&text[..end], &text[end + 1..])),
        None => None,
    }
}

// The parts between dots are labels.
fn has_labels(text: &[u8]) -> bool
    ensures { result ≡ are_labels true (labels_of text.now) }
{
    let mut rest = text;
    let mut first = true;
    while let Some((label, following)) = cut(rest) {
        if !is_label_in(first, label) {
            return false;
        }
        rest = following;
        first = false;
    }
    is_label_in(first, rest)
}

/// The text is a host name: 1 to 253 bytes, whose parts between dots are labels of 1 to 63 letters,
/// digits and hyphens with no hyphen at the ends (RFC 1034, section 3.5; RFC 1123, section 2.1).
/// The first label may be a star.
#[tactic(auto, unfolding(crate::specs::Hosts::is_host_name))]
pub fn is_host(text: &[u8]) -> bool
    ensures { result ≡ is_host_name text.now }
{
    if text.is_empty() || text.len() > 253 {
        return false;
    }
    has_labels(text)
}
