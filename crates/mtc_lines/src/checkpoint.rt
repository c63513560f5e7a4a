//! The lines of a size and a root.

ghost use Rattle.std.specs.Prelude.{◌≡◌, IfOk};
ghost use Rattle.mtc_lines.specs.CheckpointLines.{checkpoint_lines};

use mtc_io::{Bytes, Memory};
use std::alloc::Global;

/// Two lines: the word `size` and a size in decimal, the word `root` and a root in hexadecimal.
pub fn checkpoint_text(alloc: Global, size: u64, root: &[u8; 32]) -> Result<Bytes, Memory>
    ensures { IfOk result (λ text. text ≡ checkpoint_lines size root.now) }
{
    let hash = hex::encode(alloc, root)?;
    let text = format!(in alloc; "size {size}\nroot {hash}\n")?;
    Ok(Bytes::from_vec(text.into_bytes()))
}
