//! Texts and bytes of pieces, and texts of cases.

use std::alloc::Global;
use std::test::Fail;

/// The pieces, one after the other.
pub fn joined(alloc: Global, pieces: &[&str]) -> Result<String, Fail> {
    let mut text = String::new(alloc);
    for piece in pieces {
        text.push_str(piece)?;
    }
    Ok(text)
}

/// The same of bytes.
pub fn joined_bytes(alloc: Global, pieces: &[&[u8]]) -> Result<Vec<u8>, Fail> {
    let mut bytes = Vec::new(alloc);
    for piece in pieces {
        bytes.extend_from_slice(piece)?;
    }
    Ok(bytes)
}

/// What a block begins with, up to a colon or the end of its first line, and its other lines;
/// `|= TEXT` is text without the end of its line.
pub fn headed(block: &str) -> (&str, &str) {
    match block.split_once('\n') {
        Some((head, text)) => (
            head.split_once(':').map_or(head, |parts| parts.0),
            unmarked(text),
        ),
        None => (block, ""),
    }
}

// The text; what follows the mark `|= `, without the end of the line, if it has the mark.
fn unmarked(text: &str) -> &str {
    match text.strip_prefix("|= ") {
        Some(line) => line.strip_suffix('\n').unwrap_or(line),
        None => text,
    }
}
