//! What is reported of an entry.

ghost use Rattle.std.specs.Prelude.{◌≡◌, [], ◌∷◌, ◌++◌, OnOk};
ghost use Rattle.monitor_core.specs.Report.{lines_of, matches_of};
ghost use Rattle.monitor_core.specs.declared.lines.Line.TheVariants.{Match};

use crate::lines::Line;
use crate::names::is_watched;
use cert_fields::{DnsNames, names_of};
use log_entry::{Entry, read_entry};
use mtc_io::{Bytes, Memory};
use std::alloc::Global;

fn push(lines: &mut Vec<Line>, line: Line) -> Result<(), Memory>
    ensures { OnOk result (lines.new.items ≡ lines.old.items ++ line ∷ []) }
{
    lines.push(line)?;
    Ok(())
}

// Puts a match after the lines.
fn put_match(alloc: Global, lines: &mut Vec<Line>, index: u64, name: &[u8]) -> Result<(), Memory>
    ensures { OnOk result (lines.new.items ≡ lines.old.items ++ Match index name.now ∷ []) }
{
    let name = Bytes::copy_of(alloc, name)?;
    push(lines, Line::Match { index, name })
}

// Puts the matches of the names of an entry after the lines.
fn put_matches(
    alloc: Global,
    lines: &mut Vec<Line>,
    watch: &[Bytes],
    index: u64,
    names: DnsNames,
) -> Result<(), Memory>
    ensures { OnOk result
        (lines.new.items ≡ lines.old.items ++ matches_of watch.now index names.entry) }
{
    for name in names {
        if is_watched(watch, name) {
            put_match(alloc, lines, index, name)?;
        }
    }
    Ok(())
}

/// Puts what is said of an entry after the lines.
pub(crate) fn put_entry(
    alloc: Global,
    lines: &mut Vec<Line>,
    watch: &[Bytes],
    index: u64,
    entry: &[u8],
) -> Result<(), Memory>
    ensures { OnOk result
        (lines.new.items ≡ lines.old.items ++ lines_of watch.now index entry.now) }
{
    match read_entry(entry) {
        Ok(Entry::Null) => Ok(()),
        Ok(Entry::Tbs(tbs)) => put_matches(alloc, lines, watch, index, names_of(tbs.extensions)),
        Err(_fault) => push(lines, Line::Unread { index }),
    }
}
