//! A stream of items, folded.

ghost use Rattle.std.specs.Prelude.{◌≡◌, ◌≢◌, ◌≤◌, ◌<◌, ◌-◌, ◌+◌, ◌==◌, length, IfOk, IfSome};
ghost use Rattle.std.specs.Prelude.{IsErrOf, MatchResult, Ok, Err, if◌then◌else◌};
ghost use Rattle.mtc_io.specs.Counts.{Rose};
ghost use Rattle.mtc_io.specs.Streams.{ConsumesSome};
ghost use Rattle.entry_list.specs.declared.error.ItemsError.TheVariants.{Short as TooShort};
ghost use Rattle.entry_stream.specs.Streams.{AreItemsOf, IsReadWhole, empty_list};

use crate::fold::ItemFold;
use crate::next::first_item;
use crate::rest::skip_rest;
use crate::window::Window;
use entry_list::{ItemsError, is_key_of};
use mtc_io::{ReadError, Source};
use std::alloc::Global;
use tls_wire::Short;
use tree_core::TreeHash;

// So many bytes are asked for at a time.
const CHUNK: usize = 65_536;

// The answer at the end of so many bytes, of which the last ones are pending: the number of the
// items, or what doesn't fit.
fn ended(total: u64, pending: usize, items: u64, short: Short) -> Result<u64, ItemsError>
    requires within { pending ≤ total }
    requires inside { short.place ≤ pending }
    ensures { result ≡ (if pending == 0 then Ok items
        else Err (TooShort (total - pending + short.place))) }
{
    if pending == 0 {
        return Ok(items);
    }
    Err(ItemsError::Short(total as usize - pending + short.place))
}

/// Reads a file of entries to its end and lets the fold, which has taken no item so far, take each
/// item in its order. The answer is the number of the items, or the first fault of the file as
/// [`entry_list::read_items`] finds it. No clause says what the fold has taken of a file that has a
/// fault.
///
/// Errors: those of [`mtc_io::read_all`], also where the file has a fault. `Failed` comes only with
/// a failure of the source, and `TooLong` only if it gives more than `limit` bytes. `Memory` comes
/// only if memory was refused, to the buffer or to the fold.
pub fn fold_items<H: TreeHash, S: Source, F: ItemFold>(
    alloc: Global,
    source: &mut S,
    limit: u64,
    fold: &mut F,
) -> Result<Result<u64, ItemsError>, ReadError>
    requires { F.has_taken fold.old empty_list }
    ensures whole { IfOk result (λ answer. IsReadWhole limit (S.left source.old) (S.left source.new)
        (AreItemsOf H.hash (F.has_taken fold.new) answer)) }
    ensures too_long { IsErrOf result ReadError.TooLong
        → IfSome (S.left source.old) (λ bytes. limit < length bytes) }
    ensures failed { IsErrOf result ReadError.Failed
        → Rose (S.faults source.old) (S.faults source.new) }
    ensures count { S.faults source.old ≤ S.faults source.new }
    ensures same { F.made_with fold.new ≡ F.made_with fold.old }
    ensures kept { F.purpose fold.new ≡ F.purpose fold.old }
    ensures fine { MatchResult result (λ _. S.faults source.new ≡ S.faults source.old)
        (λ why. why ≢ ReadError.Failed → S.faults source.new ≡ S.faults source.old) }

    // What was read on the way to a refusal is lost, and nothing else.
    ensures rest { ConsumesSome (S.left source.old) (S.left source.new) }
{
    let mut window = Window::new(alloc);
    let mut chunk = [0; CHUNK];
    let mut total: u64 = 0;
    let mut items: u64 = 0;
    'each: loop {
        match first_item(window.as_slice()) {
            Ok(item) => {
                if !is_key_of::<H>(item.entry, item.spki) {
                    skip_rest(source, limit - total)?;
                    return Ok(Err(ItemsError::BadItem(items)));
                }
                fold.take(item.entry, item.spki)?;
                let size = 4 + item.entry.len() + item.spki.len();
                window.pass(size);
                items += 1;
            }
            Err(short) => {
                let count = source.read(&mut chunk)?;
                if count == 0 {
                    return Ok(ended(total, window.as_slice().len(), items, short));
                }
                if count as u64 > limit - total {
                    return Err(ReadError::TooLong);
                }
                window.append(&chunk[..count])?;
                total += count as u64;
            }
        }
    }
}
