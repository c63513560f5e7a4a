//! The subtrees of the landmarks of a list, in their order.

ghost use Rattle.std.specs.Prelude.{◌≡◌, ◌++◌, ℕ, Ok, IfOk, OnOk};
ghost use Rattle.landmarks.specs.Landmarks.{IsLandmarks, LandmarkList};
ghost use Rattle.landmarks.specs.Texts.{list_of};
ghost use Rattle.mtc_relying.specs.SubtreeTables.{AreInOrder, AreSubtreesOf, spans_of};

use landmarks::{Landmarks, ListError, active, read_list, subtrees};
use mtc_io::Memory;
use std::alloc::Global;
use tree_core::{Cover, Span};

// Puts the one subtree or the two of a cover after the others.
fn push_cover(spans: &mut Vec<Span>, cover: Cover) -> Result<(), Memory>
    ensures { OnOk result (spans.new.items ≡ spans.old.items ++ spans_of cover) }
{
    spans.push(cover.first)?;
    if let Some(second) = cover.second {
        spans.push(second)?;
    }
    Ok(())
}

// The subtrees of the active landmarks, from the oldest on.
fn active_subtrees(alloc: Global, landmarks: &Landmarks) -> Result<Vec<Span>, Memory>
    requires { IsLandmarks landmarks.now }
    ensures { IfOk result (λ spans. AreSubtreesOf landmarks.now spans.items) }
{
    let mut spans = Vec::new(alloc);
    let numbers = active(landmarks);
    for number in numbers.start..numbers.end {
        push_cover(&mut spans, subtrees(landmarks, number))?;
    }
    Ok(spans)
}

/// The subtrees of the active landmarks of a list, whatever size the log has, from the oldest on;
/// none where the text has a fault.
pub(crate) fn subtrees_in(alloc: Global, text: &[u8], max_active: u32) -> Result<Vec<Span>, Memory>
    ensures order { IfOk result (λ spans. AreInOrder 0 spans.items) }
    ensures of { IfOk result (λ spans. (size : ℕ) (l : LandmarkList)
        → list_of text.now max_active size ≡ Ok l → AreSubtreesOf l spans.items) }
{
    match read_list(alloc, text, max_active, u64::MAX) {
        Ok(landmarks) => {
            let spans = active_subtrees(alloc, &landmarks)?;
            Ok(spans)
        }
        Err(ListError::Memory) => Err(Memory),
        Err(_fault) => Ok(Vec::new(alloc)),
    }
}
