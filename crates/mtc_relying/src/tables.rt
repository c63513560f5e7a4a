//! The tables of subtrees, in one pass over a list.

ghost use Rattle.std.specs.Prelude.{◌≡◌, ◌<◌, ◌+◌, ◌^◌, ◌++◌, [], ◌∷◌, List, drop, length};
ghost use Rattle.std.specs.Prelude.{string_bytes, IfOk, IfSome, OnOk};
ghost use Rattle.byte_formats.specs.Types.{Hash};
ghost use Rattle.tree_core.specs.Laws.{IsSubtree};
ghost use Rattle.tree_core.specs.Tree.{root_of};
ghost use Rattle.tree_core.specs.declared.spans.Span.{Span};
ghost use Rattle.tree_peaks.specs.Peaks.{ArePeaksOf};
ghost use Rattle.mtc_relying.specs.SubtreeTables.{AreInOrder, HasTables, closing_of};
ghost use Rattle.mtc_relying.specs.TrustOutcome.{table_text};

use entry_stream::ItemFold;
use mtc_io::Memory;
use std::alloc::Global;
use std::marker::Model;
use tree_core::{Span, TreeHash, leaf};
use tree_peaks::Peaks;

// The subtree after so many that ends with the entry after so many.
fn closing(spans: &[Span], done: usize, size: u64) -> Option<Span>
    requires { size + 1 < 2 ^ 64 }
    ensures some { IfSome result (λ span. done < length spans.now) }
    ensures exact { (before left : List Span) → spans.now ≡ before ++ left → done ≡ length before
        → result ≡ closing_of left size }
{
    let span = *spans.get(done)?;
    if span.end == size + 1 {
        Some(span)
    } else {
        None
    }
}

// The root of the leaves from `start` on and one more, by the peaks of all but that.
fn root_from<H: TreeHash>(peaks: &Peaks<H>, start: u64, leaf: &[u8; 32]) -> [u8; 32]
    requires few { peaks.now.size + 1 < 2 ^ 64 }
    requires subtree { IsSubtree start (peaks.now.size + 1) }
    ensures { (leaves : List Hash) → ArePeaksOf H.hash leaves peaks.now
        → result ≡ root_of H.hash (drop start leaves ++ leaf.now ∷ []) }
{
    let before = start.count_ones() as usize;
    let (_, rest) = peaks.as_slice().split_at(before);
    let mut part: Peaks<H> = Peaks::of(peaks.size() - start, rest);
    part.push(leaf);
    part.root()
}

// The table of a subtree with this tree hash.
fn table_text(alloc: Global, span: Span, hash: &[u8; 32]) -> Result<String, Memory>
    ensures { IfOk result (λ text. string_bytes text ≡ table_text span hash.now) }
{
    let start = span.start;
    let end = span.end;
    let hash = hex::encode(alloc, hash)?;
    Ok(format!(in alloc; "[[subtree]]\nstart = {start}\nend = {end}\nhash = \"{hash}\"\n\n")?)
}

// Puts the table of a subtree with this tree hash after the others.
fn put_table(alloc: Global, text: &mut String, span: Span, hash: &[u8; 32]) -> Result<(), Memory>
    ensures { OnOk result
        (string_bytes text.new ≡ string_bytes text.old ++ table_text span hash.now) }
{
    let table = table_text(alloc, span, hash)?;
    text.push_str(table.as_str())?;
    Ok(())
}

/// The tables of subtrees, as a fold: each with the tree hash of the entries there, as soon as the
/// list has these. Contracts see the subtrees, how many of them have a table, these tables, and the
/// peaks of the list so far.
#[derive(Drop)]
pub(crate) struct SubtreeTables<H: TreeHash> {
    alloc: Global,
    spans: Vec<Span>,
    done: usize,
    text: String,
    peaks: Peaks<H>,
}

impl<H: TreeHash> Model for SubtreeTables<H> {
    ghost use Rattle.std.specs.Prelude.{string_bytes};
    ghost use Rattle.mtc_relying.specs.SubtreeTables.{TablesState};

    ghost Value = { TablesState };

    ghost view = { λ t. record {
      spans = t.spans.items;
      done = t.done;
      text = string_bytes t.text;
      peaks = t.peaks;
    } };
}

impl<H: TreeHash> SubtreeTables<H> {
    /// Those of a list without entries: none. Each of the subtrees ends above the one before it.
    pub(crate) fn new(alloc: Global, spans: Vec<Span>) -> SubtreeTables<H>
        requires { AreInOrder 0 spans.items }
        ensures spans { result.spans ≡ spans.items }
        ensures none { HasTables H.hash result [] }
    {
        SubtreeTables {
            alloc,
            spans,
            done: 0,
            text: String::new(alloc),
            peaks: Peaks::new(),
        }
    }

    /// The tables.
    pub(crate) fn into_text(self) -> String
        ensures { string_bytes result ≡ self.text }
    {
        self.text
    }
}

impl<H: TreeHash> ItemFold for SubtreeTables<H> {
    ghost use Rattle.std.specs.Prelude.{List};
    ghost use Rattle.tree_core.specs.declared.spans.Span.{Span};
    ghost use Rattle.mtc_relying.specs.SubtreeTables.{HasTables};

    ghost has_taken = { λ tables items. HasTables H.TreeHash.hash tables items.entries };

    ghost Purpose = { List Span };

    ghost purpose = { λ tables. tables.spans };

    fn take(&mut self, entry: &[u8], _spki: &[u8]) -> Result<(), Memory> {
        let leaf = leaf::<H>(entry);
        match closing(self.spans.as_slice(), self.done, self.peaks.size()) {
            Some(span) => {
                let hash = root_from(&self.peaks, span.start, &leaf);
                put_table(self.alloc, &mut self.text, span, &hash)?;
                self.done += 1;
                self.peaks.push(&leaf);
                Ok(())
            }
            None => {
                self.peaks.push(&leaf);
                Ok(())
            }
        }
    }
}
