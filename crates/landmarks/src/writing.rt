//! Writing the text in which landmarks are published.

ghost use Rattle.std.specs.Prelude.{◌≡◌, ◌++◌, string_bytes, IfOk, OnOk};
ghost use Rattle.landmarks.specs.Texts.{line, list_text};

use crate::list::Landmarks;
use mtc_io::{Bytes, Memory};
use std::alloc::Global;

// Appends a number and the end of its line to the text.
fn put_line(text: &mut String, number: u64) -> Result<(), Memory>
    ensures { OnOk result (string_bytes text.new ≡ string_bytes text.old ++ line number) }
{
    write!(text, "{number}\n")?;
    Ok(())
}

/// The text of landmarks: in line 0 the number of the newest one, a space and how many are active,
/// and then in a line each the sizes of the active ones and of the one before them, the newest
/// first. Numbers are in decimal, and each line ends with a newline.
#[tactic(auto, unfolding(crate::specs::Texts::list_text))]
pub fn write_list(alloc: Global, l: &Landmarks) -> Result<Bytes, Memory>
    ensures { IfOk result (λ text. text ≡ list_text l.now) }
{
    let mut text = String::new(alloc);
    write!(text, "{} ", l.last())?;
    put_line(&mut text, l.active_count())?;
    for size in l.sizes() {
        put_line(&mut text, *size)?;
    }
    Ok(Bytes::from_vec(text.into_bytes()))
}
