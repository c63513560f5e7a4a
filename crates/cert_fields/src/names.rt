//! Names (RFC 5280, section 4.1.2.4).

ghost use Rattle.std.specs.Prelude.{◌≡◌, ◌<◌, length, Ok, Err, OnOk, IfErr};
ghost use Rattle.byte_formats.specs.Readings.{Reads, Moves, discarded};
ghost use Rattle.byte_formats.specs.Lists.{up_to_end};
ghost use Rattle.cert_fields.specs.Names.{attribute_at, set_at, name_at};

use crate::keys::object_identifier;
use der_core::tags::{SEQUENCE, SET};
use der_core::{CertError, Reader, set_in_order};

// An AttributeTypeAndValue: an object identifier and one element.
#[tactic(auto, unfolding(crate::specs::Names::attribute_at))]
fn attribute<'a>(reader: &mut Reader<'a>) -> Result<&'a [u8], CertError>
    ensures exact { Moves (λ bytes. bytes.now) attribute_at reader.old result reader.new }
    ensures forward { OnOk result (length reader.new.rest < length reader.old.rest) }
{
    let outer = reader.wanted(SEQUENCE)?;
    let mut inner = Reader::inside(&outer);
    object_identifier(&mut inner)?;
    inner.element()?;
    inner.end()?;
    Ok(outer.whole)
}

// Attributes up to the end.
fn attributes(reader: &mut Reader) -> Result<(), CertError>
    ensures ok { OnOk result (discarded (up_to_end attribute_at reader.old) ≡ Ok reader.new) }
    ensures err { IfErr result (λ e. discarded (up_to_end attribute_at reader.old) ≡ Err e) }
{
    while !reader.is_at_end() {
        attribute(reader)?;
    }
    Ok(())
}

// A RelativeDistinguishedName: a SET OF attributes in rising order. `BadName` where it is empty.
#[tactic(auto, unfolding(crate::specs::Names::set_at))]
fn set<'a>(reader: &mut Reader<'a>) -> Result<&'a [u8], CertError>
    ensures exact { Moves (λ bytes. bytes.now) set_at reader.old result reader.new }
    ensures forward { OnOk result (length reader.new.rest < length reader.old.rest) }
{
    let outer = reader.wanted(SET)?;
    if outer.contents.is_empty() {
        return Err(CertError::BadName);
    }
    set_in_order(&outer)?;
    let mut inner = Reader::inside(&outer);
    attributes(&mut inner)?;
    inner.end()?;
    Ok(outer.whole)
}

// Sets up to the end.
fn sets(reader: &mut Reader) -> Result<(), CertError>
    ensures ok { OnOk result (discarded (up_to_end set_at reader.old) ≡ Ok reader.new) }
    ensures err { IfErr result (λ e. discarded (up_to_end set_at reader.old) ≡ Err e) }
{
    while !reader.is_at_end() {
        set(reader)?;
    }
    Ok(())
}

/// A Name: a SEQUENCE of sets of attributes. A refusal leaves the reader where it was.
#[tactic(auto, unfolding(crate::specs::Names::name_at))]
pub fn read_name<'a>(reader: &mut Reader<'a>) -> Result<&'a [u8], CertError>
    ensures { Reads (λ bytes. bytes.now) name_at reader.old result reader.new }
{
    let mut ahead = reader.fork();
    let outer = ahead.wanted(SEQUENCE)?;
    let mut inner = Reader::inside(&outer);
    sets(&mut inner)?;
    inner.end()?;
    *reader = ahead;
    Ok(outer.whole)
}
