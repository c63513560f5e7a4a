//! What a file is by its first bytes.

use journal_core::HEADER;
use std::io::{self, ErrorKind};
use std::os::unix::fs::FileExt;

// The first record of a journal begins with its tag, after the header, a commit byte and a length.
// That of a cosigner, with a key of one level or of two, has a secret in it.
const TAG: usize = HEADER.len() + 5;

const COSIGNER_TAG: u8 = 0x11;

const COSIGNER_2_TAG: u8 = 0x15;

/// What a file is by its first bytes.
#[derive(Clone, Copy, PartialEq)]
pub enum Kind {
    Cosigner,
    OtherJournal,
    NoJournal,
}

/// What a file of so many bytes is by its first ones. The bytes of a record stand in its file
/// before its commit byte is opened.
pub fn kind_of(file: &impl FileExt, length: u64) -> io::Result<Kind> {
    let mut first = [0; TAG + 1];
    let size = length.min(first.len() as u64) as usize;
    if size < HEADER.len() {
        return Ok(Kind::NoJournal);
    }
    file.read_exact_at(&mut first[..size], 0)?;
    Ok(if !first.starts_with(&HEADER) {
        Kind::NoJournal
    } else if first[TAG] == COSIGNER_TAG || first[TAG] == COSIGNER_2_TAG {
        Kind::Cosigner
    } else {
        Kind::OtherJournal
    })
}

/// Refuses a file that begins as a journal, with `InvalidData`: no tile is written over one.
pub fn refuse_journal(file: &impl FileExt, length: u64) -> io::Result<()> {
    if kind_of(file, length)? == Kind::NoJournal {
        Ok(())
    } else {
        Err(io::Error::from(ErrorKind::InvalidData))
    }
}
