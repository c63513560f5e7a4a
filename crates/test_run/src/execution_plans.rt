//! Which command comes next, and the record that it asks for.

use crate::difference::Difference;
use crate::execution::Execution;
use crate::execution_desk::WHOLE;
use crate::execution_party::Party;
use crate::execution_records::{ADVANCE, ENTRY, LANDMARK, SIGN, TILES, count, last_size};
use mtc_io::Bytes;
use std::alloc::Global;

/// A command on a party's journal, and the body of its record.
#[derive(Drop)]
pub struct Plan {
    pub party: Party,
    pub words: &'static str,
    pub body: Bytes,
}

// What stands in the record of an entry up to the first byte of its name, and after that byte: the
// entry is that of a certificate for that name.
const BEFORE_NAME: [u8; 125] = [
    0x02, 0x00, 0x83, 0x00, 0x01, 0xA0, 0x03, 0x02, 0x01, 0x02, 0x30, 0x19, 0x31, 0x17, 0x30, 0x15,
    0x06, 0x0A, 0x2B, 0x06, 0x01, 0x04, 0x01, 0x82, 0xDA, 0x4B, 0x2F, 0x01, 0x0C, 0x07, 0x33, 0x32,
    0x34, 0x37, 0x33, 0x2E, 0x31, 0x30, 0x1E, 0x17, 0x0D, 0x32, 0x36, 0x30, 0x31, 0x30, 0x31, 0x30,
    0x30, 0x30, 0x30, 0x30, 0x30, 0x5A, 0x17, 0x0D, 0x32, 0x36, 0x30, 0x31, 0x30, 0x38, 0x30, 0x30,
    0x30, 0x30, 0x30, 0x30, 0x5A, 0x30, 0x00, 0x04, 0x20, 0x72, 0x2A, 0xBD, 0x12, 0xE9, 0x9A, 0x53,
    0x67, 0xF3, 0x75, 0xAE, 0xB9, 0x67, 0x2A, 0x8E, 0x07, 0x71, 0x2E, 0x03, 0xC2, 0xAD, 0xD1, 0x6F,
    0xA8, 0xD6, 0x91, 0x4D, 0x1C, 0xFA, 0x2E, 0xFE, 0x0C, 0xA3, 0x1B, 0x30, 0x19, 0x30, 0x17, 0x06,
    0x03, 0x55, 0x1D, 0x11, 0x01, 0x01, 0xFF, 0x04, 0x0D, 0x30, 0x0B, 0x82, 0x09,
];

const AFTER_NAME: [u8; 54] = [
    0x2E, 0x65, 0x78, 0x61, 0x6D, 0x70, 0x6C, 0x65, 0x00, 0x2C, 0x30, 0x2A, 0x30, 0x05, 0x06, 0x03,
    0x2B, 0x65, 0x70, 0x03, 0x21, 0x00, 0x00, 0x00, 0x00, 0x00, 0x00, 0x00, 0x00, 0x00, 0x00, 0x00,
    0x00, 0x00, 0x00, 0x00, 0x00, 0x00, 0x00, 0x00, 0x00, 0x00, 0x00, 0x00, 0x00, 0x00, 0x00, 0x00,
    0x00, 0x00, 0x00, 0x00, 0x00, 0x00,
];

// Where the root of a request of `consist` begins, and the hash of one of `subtree`.
const ROOT: usize = 13;

const HASH: usize = 21;

// Two pieces, one after the other.
fn joined(alloc: Global, prefix: &[u8], following: &[u8]) -> Result<Bytes, Difference> {
    let mut bytes = Bytes::copy_of(alloc, prefix)?;
    bytes.append(following)?;
    Ok(bytes)
}

// The body of the record of an entry for a name of one byte.
fn body_of_entry(alloc: Global, name: u8) -> Result<Bytes, Difference> {
    let mut body = joined(alloc, &BEFORE_NAME, &[name])?;
    body.append(&AFTER_NAME)?;
    Ok(body)
}

// That of a record of which a request says all that follows the log's id, after this head.
fn body_after(alloc: Global, head: &[u8], request: &[u8]) -> Result<Bytes, Difference> {
    match request.split_at_checked(5) {
        Some((_, rest)) => joined(alloc, head, rest),
        None => Err(Difference::Printed),
    }
}

// Changes one byte, where one is named.
fn spoil(bytes: &mut Vec<u8>, spoilt: Option<usize>) {
    if let Some(offset) = spoilt {
        if let Some(byte) = bytes.get_mut(offset) {
            *byte ^= 1;
        }
    }
}

impl Execution {
    // The number of the log's entries, with the null entry.
    fn size(&self) -> Result<u64, Difference> {
        let entries = count(self.state(Party::Log)?.durable.as_slice(), ENTRY);
        Ok(entries.saturating_add(1))
    }

    // How many entries the cosigner holds.
    fn held(&self) -> Result<u64, Difference> {
        Ok(last_size(self.state(Party::Cosigner)?.durable.as_slice(), ADVANCE))
    }

    /// Runs a command that only reads a party's journal, and has to answer.
    pub fn ask(&mut self, party: Party, words: &str) -> Result<Vec<u8>, Difference> {
        self.restart(party, false)?;
        let ran = self.desk.run(words, WHOLE)?;
        if ran.status == 0 {
            Ok(ran.out)
        } else {
            Err(Difference::Status(ran.status))
        }
    }

    fn issue(&mut self) -> Result<Plan, Difference> {
        let (name, words) = if self.draws.below(2) == 0 {
            (b'a', "issue j a")
        } else {
            (b'b', "issue j b")
        };
        Ok(Plan {
            party: Party::Log,
            words,
            body: body_of_entry(self.alloc, name)?,
        })
    }

    fn landmark(&self) -> Result<Plan, Difference> {
        let size = self.size()?;
        Ok(Plan {
            party: Party::Log,
            words: "landmark j",
            body: joined(self.alloc, &[LANDMARK], &size.to_be_bytes())?,
        })
    }

    // No execution has a full tile: there is nothing to store.
    fn tile(&self) -> Result<Plan, Difference> {
        Ok(Plan {
            party: Party::Log,
            words: "tile j",
            body: joined(self.alloc, &[TILES], &0u64.to_be_bytes())?,
        })
    }

    // Asks the log for a request to the cosigner. One byte of it is spoilt where one is named.
    fn request(
        &mut self,
        asked: &str,
        words: &'static str,
        head: &[u8],
        spoilt: Option<usize>,
    ) -> Result<Plan, Difference> {
        self.desk.renew("j", None)?;
        let mut request = self.ask(Party::Log, asked)?;
        spoil(&mut request, spoilt);
        self.desk.place("q", &request)?;
        Ok(Plan {
            party: Party::Cosigner,
            words,
            body: body_after(self.alloc, head, &request)?,
        })
    }

    // To a drawn size, which may be held already, or with another root than the log's.
    fn advance(&mut self, is_spoilt: bool) -> Result<Plan, Difference> {
        let (size, held) = (self.size()?, self.held()?);
        let new = self.draws.below(size).saturating_add(1);
        let old = held.min(new.saturating_sub(1));
        let asked = format!(in self.alloc; "consist j {old} {new}")?;
        let spoilt = if is_spoilt && held > 0 {
            Some(ROOT)
        } else {
            None
        };
        self.request(asked.as_str(), "advance s q", &[ADVANCE], spoilt)
    }

    // Over a prefix of what is held, or with another hash.
    fn cosign(&mut self, is_spoilt: bool) -> Result<Plan, Difference> {
        let held = self.held()?;
        if held == 0 {
            return self.advance(is_spoilt);
        }
        let end = self.draws.below(held).saturating_add(1);
        let index = count(self.state(Party::Cosigner)?.durable.as_slice(), SIGN);
        let [a, b, c, d] = ((index & 0xFFFF_FFFF) as u32).to_be_bytes();
        let asked = format!(in self.alloc; "subtree j 0 {end} {held}")?;
        let spoilt = if is_spoilt { Some(HASH) } else { None };
        self.request(asked.as_str(), "cosign s q", &[SIGN, a, b, c, d], spoilt)
    }

    /// The next command.
    pub fn plan(&mut self) -> Result<Plan, Difference> {
        match self.draws.below(13) {
            0..=2 => self.issue(),
            3 => self.landmark(),
            4..=6 => self.advance(false),
            7 => self.advance(true),
            8 => self.cosign(true),
            9 => self.tile(),
            _ => self.cosign(false),
        }
    }
}
