//! The names in a subjectAltName (RFC 5280, section 4.2.1.6).

ghost use Rattle.std.specs.Prelude.{◌≡◌, ◌<◌, List, [], ◌∷◌, length, Ok, Err, OnOk, IfErr};
ghost use Rattle.std.specs.Prelude.{MatchOption};
ghost use Rattle.std.specs.Iterator.{YieldsFirstRef, item_count};
ghost use Rattle.byte_formats.specs.Types.{Text};
ghost use Rattle.byte_formats.specs.Readings.{Moves, discarded};
ghost use Rattle.byte_formats.specs.Lists.{up_to_end};
ghost use Rattle.cert_fields.specs.AltNames.{is_name_tag, is_ascii, general_name_at};
ghost use Rattle.cert_fields.specs.AltNames.{general_names_at, are_general_names, names_left};
ghost use Rattle.cert_fields.specs.AltNames.{names_in};

use crate::tags::DNS_NAME;
use der_core::tags::SEQUENCE;
use der_core::{CertError, Reader};
use std::marker::Model;

// The tag of a GeneralName.
fn is_general_name_tag(tag: u8) -> bool
    ensures { result ≡ is_name_tag tag }
{
    matches!(
        tag,
        0x81 | DNS_NAME | 0x86 | 0x87 | 0x88 | 0xA0 | 0xA3 | 0xA4 | 0xA5
    )
}

// All bytes are below 80, hexadecimal.
fn are_ascii(bytes: &[u8]) -> bool
    ensures { result ≡ is_ascii bytes.now }
{
    bytes.iter().all(|b| *b < 128)
}

// A GeneralName. `BadExtension` where it has another tag, or is a dNSName that isn't ASCII.
#[tactic(auto, unfolding(crate::specs::AltNames::general_name_at))]
fn general_name<'a>(reader: &mut Reader<'a>) -> Result<&'a [u8], CertError>
    ensures exact { Moves (λ bytes. bytes.now) general_name_at reader.old result reader.new }
    ensures forward { OnOk result (length reader.new.rest < length reader.old.rest) }
{
    let element = reader.element()?;
    if !is_general_name_tag(element.tag) {
        return Err(CertError::BadExtension);
    }
    if element.tag == DNS_NAME && !are_ascii(element.contents) {
        return Err(CertError::BadExtension);
    }
    Ok(element.whole)
}

// Names up to the end.
fn general_name_list(reader: &mut Reader) -> Result<(), CertError>
    ensures ok { OnOk result (discarded (up_to_end general_name_at reader.old) ≡ Ok reader.new) }
    ensures err { IfErr result (λ e. discarded (up_to_end general_name_at reader.old) ≡ Err e) }
{
    while !reader.is_at_end() {
        general_name(reader)?;
    }
    Ok(())
}

// GeneralNames: a SEQUENCE of names, at least one.
#[tactic(auto, unfolding(crate::specs::AltNames::general_names_at))]
fn general_names<'a>(reader: &mut Reader<'a>) -> Result<&'a [u8], CertError>
    ensures { Moves (λ bytes. bytes.now) general_names_at reader.old result reader.new }
{
    let outer = reader.wanted(SEQUENCE)?;
    let mut inner = Reader::inside(&outer);
    if inner.is_at_end() {
        return Err(CertError::BadExtension);
    }
    general_name_list(&mut inner)?;
    inner.end()?;
    Ok(outer.whole)
}

/// The octets are GeneralNames, and nothing follows them.
#[tactic(auto, unfolding(crate::specs::AltNames::are_general_names))]
pub fn is_general_names(octets: &[u8]) -> bool
    ensures { result ≡ are_general_names octets.now }
{
    let mut reader = Reader::at(octets, 0);
    match general_names(&mut reader) {
        Ok(_) => reader.is_at_end(),
        Err(_) => false,
    }
}

/// The dNSNames of a certificate, one after another, each as its bytes.
#[derive(Debug, Drop)]
pub struct DnsNames<'a> {
    names: Reader<'a>,
}

impl<'a> Model for DnsNames<'a> {
    ghost use Rattle.std.specs.Prelude.{List};
    ghost use Rattle.byte_formats.specs.Types.{Text};
    ghost use Rattle.cert_fields.specs.AltNames.{names_left};

    ghost Value = { List Text };

    ghost view = { λ n. names_left n.names };
}

impl<'a> DnsNames<'a> {
    /// Those in the octets of a subjectAltName.
    #[tactic(auto, unfolding(byte_formats::specs::Left::first_at))]
    pub(crate) fn of(octets: &'a [u8]) -> DnsNames<'a>
        ensures { result ≡ names_in octets.now }
    {
        let mut reader = Reader::at(octets, 0);
        match reader.wanted(SEQUENCE) {
            Ok(outer) => DnsNames {
                names: Reader::inside(&outer),
            },
            Err(_) => DnsNames {
                names: Reader::at(&[], 0),
            },
        }
    }
}

impl<'a> Iterator for DnsNames<'a> {
    type Item = &'a [u8];

    ghost next_gives = { YieldsFirstRef (λ names. names) };

    ghost remaining = { item_count (λ names. names) };

    fn next(&mut self) -> Option<&'a [u8]> {
        next_name(&mut self.names)
    }
}

// The next dNSName.
fn next_name<'a>(reader: &mut Reader<'a>) -> Option<&'a [u8]>
    ensures { MatchOption result ((names_left reader.old ≡ []) × (names_left reader.new ≡ []))
        (λ name. names_left reader.old ≡ name.now ∷ names_left reader.new) }
{
    while let Ok(element) = reader.element() {
        if element.tag == DNS_NAME {
            return Some(element.contents);
        }
    }
    None
}
