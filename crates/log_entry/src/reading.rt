//! Reading an entry.

ghost use Rattle.std.specs.Prelude.{◌≡◌, ◌≤◌, length, IfOk, Ok, Option, option_map};
ghost use Rattle.byte_formats.specs.Offsets.{at};
ghost use Rattle.byte_formats.specs.Readings.{Gives, Moves, both_at};
ghost use Rattle.cert_fields.specs.Extensions.{extensions_at};
ghost use Rattle.log_entry.specs.Entries.{TbsParts, entry_text, IsEntry};
ghost use Rattle.log_entry.specs.Reading.{field_at, key_hash_at, named_algorithm_at, body_of};
ghost use Rattle.log_entry.specs.Reading.{entry_in};
ghost use Rattle.log_entry.specs.Views.{tbs_parts, entry_parts};

use crate::entry::{Entry, TbsEntry};
use crate::fault::EntryError;
use cert_fields::{read_algorithm, read_extensions, read_name, read_validity, read_version};
use der_core::Reader;
use der_core::tags::{OCTET_STRING, SEQUENCE};

// The hash of the public key. `BadHashLength` where it doesn't have 32 bytes.
#[tactic(auto, unfolding(crate::specs::Reading::key_hash_at))]
fn key_hash<'a>(reader: &mut Reader<'a>) -> Result<&'a [u8], EntryError>
    ensures { Moves (λ bytes. bytes.now) key_hash_at reader.old result reader.new }
{
    let octets = reader.wanted(OCTET_STRING)?;
    if octets.contents.len() == 32 {
        Ok(octets.contents)
    } else {
        Err(EntryError::BadHashLength)
    }
}

// The algorithm of the public key, where a SEQUENCE stands: an entry of form one has none.
fn named_algorithm<'a>(reader: &mut Reader<'a>) -> Result<Option<&'a [u8]>, EntryError>
    ensures { Moves (option_map (λ bytes. bytes.now)) named_algorithm_at reader.old result
        reader.new }
{
    if !reader.begins_with(SEQUENCE) {
        return Ok(None);
    }
    Ok(Some(read_algorithm(reader)?))
}

// The hash of the public key and the extensions.
fn after_algorithm<'a>(reader: &mut Reader<'a>) -> Result<(&'a [u8], &'a [u8]), EntryError>
    ensures { Moves (λ x. (x.0.now, x.1.now)) (both_at key_hash_at (field_at extensions_at))
        reader.old result reader.new }
{
    let key_hash = key_hash(reader)?;
    let extensions = read_extensions(reader)?;
    Ok((key_hash, extensions))
}

// The fields after the type, up to the end.
#[tactic(auto, unfolding(crate::specs::Reading::body_of))]
fn body(entry: &[u8]) -> Result<TbsEntry<'_>, EntryError>
    requires { 2 ≤ length entry.now }
    ensures { Gives tbs_parts result (body_of (at entry.now 2)) }
{
    let mut reader = Reader::at(entry, 2);
    read_version(&mut reader)?;
    let issuer = read_name(&mut reader)?;
    let (validity_der, validity) = read_validity(&mut reader)?;
    let subject = read_name(&mut reader)?;
    let algorithm = named_algorithm(&mut reader)?;
    let (key_hash, extensions) = after_algorithm(&mut reader)?;
    reader.end()?;
    Ok(TbsEntry {
        issuer,
        validity,
        validity_der,
        subject,
        algorithm,
        key_hash,
        extensions,
    })
}

// The type, and the fields after it.
#[tactic(auto, unfolding(crate::specs::Reading::entry_in))]
fn whole(bytes: &[u8]) -> Result<Entry<'_>, EntryError>
    ensures { Gives entry_parts result (entry_in bytes.now) }
{
    let [high, low, rest @ ..] = bytes else {
        return Err(EntryError::Short);
    };
    match *high as u16 * 256 + *low as u16 {
        0 if rest.is_empty() => Ok(Entry::Null),
        0 => Err(EntryError::NullHasBody),
        1 => Ok(Entry::Tbs(body(bytes)?)),
        other => Err(EntryError::UnknownType(other)),
    }
}

/// Reads an entry, without taking memory.
///
/// Refuses with `Short` where there are fewer than two bytes, `NullHasBody` where the null entry
/// continues after its type, and `UnknownType` where the type is neither 0 nor 1. In an entry of
/// type 1 the first fault from the left is answered: `Body` with the fault of a field as
/// [`parse`](cert_fields::parse) has it in a certificate, or with `Trailing` for what follows the
/// last field, its offset counted in these bytes; `BadHashLength` where the hash of the public key
/// is an OCTET STRING of another length than 32. A SEQUENCE before that hash is the algorithm of
/// the key, and has the faults of one.
pub fn read_entry(bytes: &[u8]) -> Result<Entry<'_>, EntryError>
    ensures found { IfOk result (λ e. (bytes.now ≡ entry_text (entry_parts e))
        × IsEntry (entry_parts e)) }
    ensures only { (e : Option TbsParts) → IsEntry e → bytes.now ≡ entry_text e
        → Gives entry_parts result (Ok e) }
    ensures exact { Gives entry_parts result (entry_in bytes.now) }
{
    whole(bytes)
}
