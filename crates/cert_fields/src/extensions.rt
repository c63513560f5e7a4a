//! Extensions (RFC 5280, sections 4.1.2.9 and 4.2).

ghost use Rattle.std.specs.Prelude.{◌≡◌, ◌^◌, ◌<◌, [], length, Ok, Err, OnOk, IfErr};
ghost use Rattle.std.specs.Prelude.{if◌then◌else◌};
ghost use Rattle.std.specs.List.{list_any};
ghost use Rattle.byte_formats.specs.Readings.{Reads, Moves, Gives, both_at, discarded, mapped_at};
ghost use Rattle.cert_fields.specs.Extensions.{new_identifier_at, critical_at};
ghost use Rattle.cert_fields.specs.Extensions.{has_its_form, extension_at, extension_list_at};
ghost use Rattle.cert_fields.specs.Extensions.{extension_sequence_at, extensions_at, identifiers};
ghost use Rattle.cert_fields.specs.Extensions.{are_repeated, extensions_left, list_in};
ghost use Rattle.cert_fields.specs.Extensions.{is_unknown_critical, has_unknown_critical};
ghost use Rattle.cert_fields.specs.Extensions.{alt_name_octets, dns_names_in};
ghost use Rattle.cert_fields.specs.Extensions.{to_extension};
ghost use Rattle.cert_fields.specs.Views.{extension_fields};
ghost use Rattle.der_core.specs.Fields.{contents_at};
ghost use Rattle.der_core.specs.declared.fault.CertError.TheVariants.{RepeatedExtension};

use crate::alt_names::{DnsNames, is_general_names};
use crate::cert::Cert;
use crate::identifiers::{is_known, is_subject_alt_name};
use crate::keys::object_identifier;
use crate::repeats::has_repeats;
use crate::tags::EXTENSIONS;
use der_core::tags::{BOOLEAN, OCTET_STRING, SEQUENCE};
use der_core::{CertError, DerError, Reader, boolean};

/// One extension.
#[derive(Clone, Copy)]
pub struct Extension<'a> {
    pub identifier: &'a [u8],
    pub critical: bool,
    pub octets: &'a [u8],
}

// The identifier of an extension, whatever came before it.
#[tactic(auto, unfolding(crate::specs::Extensions::new_identifier_at))]
fn identifier<'a>(reader: &mut Reader<'a>) -> Result<&'a [u8], CertError>
    ensures { Moves (λ bytes. bytes.now) (new_identifier_at []) reader.old result reader.new }
{
    Ok(object_identifier(reader)?)
}

// Whether the extension is marked as critical. `BadExtension` where it is marked as not critical.
#[tactic(auto, unfolding(crate::specs::Extensions::critical_at))]
fn critical(reader: &mut Reader) -> Result<bool, CertError>
    ensures { Moves (λ b. b) critical_at reader.old result reader.new }
{
    if !reader.begins_with(BOOLEAN) {
        return Ok(false);
    }
    let element = reader.wanted(BOOLEAN)?;
    if boolean(&element)? {
        Ok(true)
    } else {
        Err(CertError::BadExtension)
    }
}

// The extension has another identifier, or its octets are names.
fn has_form(extension: &Extension) -> bool
    ensures { result ≡ has_its_form (extension_fields extension.now) }
{
    !is_subject_alt_name(extension.identifier) || is_general_names(extension.octets)
}

// The parts of an extension, one after the other.
fn extension_parts<'a>(reader: &mut Reader<'a>) -> Result<Extension<'a>, CertError>
    ensures { Moves extension_fields (mapped_at to_extension (both_at (new_identifier_at [])
        (both_at critical_at (contents_at 0x04)))) reader.old result reader.new }
{
    let identifier = identifier(reader)?;
    let critical = critical(reader)?;
    let octets = reader.wanted(OCTET_STRING)?.contents;
    Ok(Extension {
        identifier,
        critical,
        octets,
    })
}

// The next extension, whatever came before it.
#[tactic(auto, unfolding(crate::specs::Extensions::extension_at))]
fn next_extension<'a>(reader: &mut Reader<'a>) -> Result<Extension<'a>, CertError>
    ensures exact { Moves extension_fields (extension_at []) reader.old result reader.new }
    ensures forward { OnOk result (length reader.new.rest < length reader.old.rest) }
{
    let outer = reader.wanted(SEQUENCE)?;
    let mut inner = Reader::inside(&outer);
    let extension = extension_parts(&mut inner)?;
    if !has_form(&extension) {
        return Err(CertError::BadExtension);
    }
    inner.end()?;
    Ok(extension)
}

// The fault of the last of `count` extensions, unless one of them has the identifier of another.
fn first_fault(list: &Reader, count: usize, fault: CertError) -> CertError
    ensures { result ≡
        (if are_repeated (identifiers count list.now) then RepeatedExtension else fault) }
{
    if has_repeats(list, count) {
        CertError::RepeatedExtension
    } else {
        fault
    }
}

// Extensions with different identifiers, up to the end. First each is read, whatever its
// identifier, up to the first fault; then the identifiers are compared, that of the fault's
// extension too, since a repetition is reported before a fault in what follows the identifier.
fn extension_list(reader: &mut Reader) -> Result<(), CertError>
    requires { length reader.old.rest < 2 ^ 64 }
    ensures ok { OnOk result (discarded (extension_list_at reader.old) ≡ Ok reader.new) }
    ensures err { IfErr result (λ e. discarded (extension_list_at reader.old) ≡ Err e) }
{
    let list = reader.fork();
    let mut count: usize = 0;
    while !reader.is_at_end() {
        count += 1;
        if let Err(fault) = next_extension(reader) {
            return Err(first_fault(&list, count, fault));
        }
    }
    if has_repeats(&list, count) {
        Err(CertError::RepeatedExtension)
    } else {
        Ok(())
    }
}

// The list in its SEQUENCE. `BadExtension` where it is empty.
#[tactic(auto, unfolding(crate::specs::Extensions::extension_sequence_at))]
fn extension_sequence<'a>(reader: &mut Reader<'a>) -> Result<&'a [u8], CertError>
    ensures { Moves (λ bytes. bytes.now) extension_sequence_at reader.old result reader.new }
{
    let outer = reader.wanted(SEQUENCE)?;
    let mut inner = Reader::inside(&outer);
    if inner.is_at_end() {
        return Err(CertError::BadExtension);
    }
    extension_list(&mut inner)?;
    inner.end()?;
    Ok(outer.whole)
}

/// The extensions with their outer tag, or no bytes where another tag stands. A refusal leaves the
/// reader where it was.
#[tactic(auto, unfolding(crate::specs::Extensions::extensions_at))]
pub fn read_extensions<'a>(reader: &mut Reader<'a>) -> Result<&'a [u8], CertError>
    ensures { Reads (λ bytes. bytes.now) extensions_at reader.old result reader.new }
{
    if !reader.begins_with(EXTENSIONS) {
        return Ok(&[]);
    }
    let mut ahead = reader.fork();
    let outer = ahead.wanted(EXTENSIONS)?;
    let mut inner = Reader::inside(&outer);
    extension_sequence(&mut inner)?;
    inner.end()?;
    *reader = ahead;
    Ok(outer.whole)
}

// The first extension in the bytes of the field.
#[tactic(auto, unfolding(crate::specs::Extensions::list_in))]
fn list_of(extensions: &[u8]) -> Result<Reader<'_>, DerError>
    ensures { Gives (λ r. r) result (list_in extensions.now) }
{
    let field = Reader::at(extensions, 0).wanted(EXTENSIONS)?;
    let list = Reader::inside(&field).wanted(SEQUENCE)?;
    Ok(Reader::inside(&list))
}

/// Whether the bytes of the extensions field hold a critical extension other than subjectAltName,
/// basicConstraints, keyUsage and extKeyUsage. Bytes that aren't in the field's grammar are read up
/// to the first extension that has a fault.
pub fn unknown_critical(extensions: &[u8]) -> bool
    ensures { result ≡ has_unknown_critical extensions.now }
{
    match list_of(extensions) {
        Ok(list) => any_unknown_critical(list),
        Err(_) => false,
    }
}

// The extension is critical and isn't one of the known ones.
fn is_unknown_critical(extension: &Extension) -> bool
    ensures { result ≡ is_unknown_critical (extension_fields extension.now) }
{
    extension.critical && !is_known(extension.identifier)
}

fn any_unknown_critical(list: Reader) -> bool
    ensures { result ≡ list_any is_unknown_critical (extensions_left list.entry) }
{
    let mut reader = list;
    while let Ok(extension) = next_extension(&mut reader) {
        if is_unknown_critical(&extension) {
            return true;
        }
    }
    false
}

/// The dNSNames in the DER of extensions, in their order (RFC 5280, section 4.2.1.6); none where
/// there is no subjectAltName.
pub fn names_of<'a>(extensions: &'a [u8]) -> DnsNames<'a>
    ensures { result ≡ dns_names_in extensions.now }
{
    match list_of(extensions) {
        Ok(list) => DnsNames::of(alt_name(list)),
        Err(_) => DnsNames::of(&[]),
    }
}

/// The dNSNames of a certificate in their order; none where it has no subjectAltName.
pub fn dns_names<'a>(cert: &Cert<'a>) -> DnsNames<'a>
    ensures { result ≡ dns_names_in cert.now.extensions.now }
{
    names_of(cert.extensions)
}

// The octets of the first subjectAltName, or no octets.
fn alt_name(list: Reader<'_>) -> &[u8]
    ensures { result.now ≡ alt_name_octets (extensions_left list.entry) }
{
    let mut reader = list;
    while let Ok(extension) = next_extension(&mut reader) {
        if is_subject_alt_name(extension.identifier) {
            return extension.octets;
        }
    }
    &[]
}
