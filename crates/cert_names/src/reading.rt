//! From a name to the id of a log.

ghost use Rattle.std.specs.Prelude.{◌≡◌, Some, None, IfSome, MatchOption};
ghost use Rattle.byte_formats.specs.Types.{Text};
ghost use Rattle.byte_formats.specs.Readings.{Moves, Gives};
ghost use Rattle.der_core.specs.Fields.{all_of};
ghost use Rattle.cert_names.specs.LogNames.{IsLogName, log_text_at, log_attribute_at, log_set_at};
ghost use Rattle.cert_names.specs.LogNames.{log_name_at, log_in};

use der_core::tags::{OBJECT_IDENTIFIER, SEQUENCE, SET, UTF8_STRING};
use der_core::{CertError, Reader};
use tls_wire::AnchorId;

// The attribute of a log's id: 1.3.6.1.4.1.44363.47.1.
pub(crate) const LOG_ID: [u8; 10] = [0x2B, 0x06, 0x01, 0x04, 0x01, 0x82, 0xDA, 0x4B, 0x2F, 0x01];

// The UTF8String after the identifier.
#[tactic(auto, unfolding(crate::specs::LogNames::log_text_at))]
fn parts<'a>(reader: &mut Reader<'a>) -> Result<&'a [u8], CertError>
    ensures { Moves (λ text. text.now) log_text_at reader.old result reader.new }
{
    let identifier = reader.wanted(OBJECT_IDENTIFIER)?.contents;
    let text = reader.wanted(UTF8_STRING)?.contents;
    if identifier == LOG_ID.as_slice() {
        Ok(text)
    } else {
        Err(CertError::BadName)
    }
}

// The text in the attribute.
#[tactic(auto, unfolding(crate::specs::LogNames::log_attribute_at))]
fn attribute<'a>(reader: &mut Reader<'a>) -> Result<&'a [u8], CertError>
    ensures { Moves (λ text. text.now) log_attribute_at reader.old result reader.new }
{
    let outer = reader.wanted(SEQUENCE)?;
    let mut inner = Reader::inside(&outer);
    let text = parts(&mut inner)?;
    inner.end()?;
    Ok(text)
}

// The text in the set of one attribute.
#[tactic(auto, unfolding(crate::specs::LogNames::log_set_at))]
fn set<'a>(reader: &mut Reader<'a>) -> Result<&'a [u8], CertError>
    ensures { Moves (λ text. text.now) log_set_at reader.old result reader.new }
{
    let outer = reader.wanted(SET)?;
    let mut inner = Reader::inside(&outer);
    let text = attribute(&mut inner)?;
    inner.end()?;
    Ok(text)
}

// The text in the name of one set.
#[tactic(auto, unfolding(crate::specs::LogNames::log_name_at))]
fn name<'a>(reader: &mut Reader<'a>) -> Result<&'a [u8], CertError>
    ensures { Moves (λ text. text.now) log_name_at reader.old result reader.new }
{
    let outer = reader.wanted(SEQUENCE)?;
    let mut inner = Reader::inside(&outer);
    let text = set(&mut inner)?;
    inner.end()?;
    Ok(text)
}

// The same, where the name is all of the bytes.
fn whole(bytes: &[u8]) -> Result<&[u8], CertError>
    ensures { Gives (λ text. text.now) result (all_of log_name_at bytes.now) }
{
    let mut reader = Reader::at(bytes, 0);
    let text = name(&mut reader)?;
    reader.end()?;
    Ok(text)
}

// The text, where it is that of an id.
#[tactic(auto, unfolding(crate::specs::LogNames::log_in))]
fn id_in(bytes: &[u8]) -> Option<&[u8]>
    ensures { MatchOption result (log_in bytes.now ≡ None)
        (λ text. log_in bytes.now ≡ Some text.now) }
{
    match whole(bytes) {
        Ok(text) if AnchorId::is_text(text) => Some(text),
        _ => None,
    }
}

/// The id of the log whose issuer name this is, as its text in dotted decimal; `None` exactly if it
/// isn't the name of a log. It takes no memory.
pub fn log_of(name: &[u8]) -> Option<&[u8]>
    ensures exact { MatchOption result (log_in name.now ≡ None)
        (λ text. log_in name.now ≡ Some text.now) }
    ensures found { IfSome result (λ text. IsLogName name.now text.now) }
    ensures only { (text : Text) → IsLogName name.now text
        → MatchOption result ⊥ (λ id. id.now ≡ text) }
{
    id_in(name)
}
