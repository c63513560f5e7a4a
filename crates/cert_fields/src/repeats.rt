//! Whether extensions have one identifier twice. The identifiers are taken in blocks: a block is
//! sorted, and those that follow it are looked up in it, so that no memory is taken. A list of few
//! extensions pays for a small block. The time grows with the square of the number of blocks alone,
//! and there are more than four only if they are as large as blocks get.

ghost use Rattle.std.specs.Prelude.{◌≡◌, ℕ, ◌+◌, ◌*◌, ◌<◌, ◌≤◌, ◌⊎◌, ◌++◌, []};
ghost use Rattle.std.specs.Prelude.{length, take, OnOk};
ghost use Rattle.std.specs.List.Sorted.{IsPermutation};
ghost use Rattle.byte_formats.specs.Readings.{Moves};
ghost use Rattle.cert_fields.specs.Extensions.{is_among, head_at, identifiers, are_repeated};
ghost use Rattle.cert_fields.specs.Extensions.{any_among};
ghost use Rattle.cert_fields.specs.Views.{texts, AreSorted};

use der_core::tags::{OBJECT_IDENTIFIER, SEQUENCE};
use der_core::{DerError, Reader};

// How many identifiers a block has: slices of 1, 32 and 512 KiB together, on the stack.
const SMALL: usize = 64;

const MIDDLE: usize = 2048;

const LARGE: usize = 32768;

// A list of more blocks than these is taken in larger ones.
const FEW_BLOCKS: usize = 4;

// The identifier of the next extension, whose other parts aren't read.
#[tactic(auto, unfolding(crate::specs::Extensions::head_at))]
fn head<'a>(reader: &mut Reader<'a>) -> Result<&'a [u8], DerError>
    ensures exact { Moves (λ bytes. bytes.now) head_at reader.old result reader.new }
    ensures forward { OnOk result (length reader.new.rest < length reader.old.rest) }
{
    let outer = reader.wanted(SEQUENCE)?;
    let mut inner = Reader::inside(&outer);
    let identifier = inner.wanted(OBJECT_IDENTIFIER)?;
    Ok(identifier.contents)
}

// Takes the identifiers of extensions, one after the other, into a block, as many as it holds, at
// most so many, and up to one that doesn't read. Answers their number.
fn take_block<'a>(reader: &mut Reader<'a>, block: &mut [&'a [u8]], most: usize) -> usize
    ensures len { length block.new ≡ length block.old }
    ensures within { (result ≤ most) × (result ≤ length block.new) }
    ensures read { (n : ℕ) → identifiers (result + n) reader.old
        ≡ texts (take result block.new) ++ identifiers n reader.new }
    ensures none { result ≡ 0 → 0 < most → 0 < length block.new → identifiers most reader.old ≡ [] }
{
    let mut taken = 0;
    while taken < most && taken < block.len() {
        let mut ahead = reader.fork();
        match head(&mut ahead) {
            Ok(identifier) => {
                block[taken] = identifier;
                *reader = ahead;
                taken += 1;
            }
            Err(_) => return taken,
        }
    }
    taken
}

// Whether one of these identifiers, which are in order, is that of its neighbour.
fn has_equal_neighbours(block: &[&[u8]]) -> bool
    requires { AreSorted block.now }
    ensures { result ≡ are_repeated (texts block.now) }
{
    let mut i = 1;
    while i < block.len() {
        if block[i - 1] == block[i] {
            return true;
        }
        i += 1;
    }
    false
}

// Whether one of these identifiers stands twice. They are put in order.
fn sort_block(block: &mut [&[u8]]) -> bool
    ensures repeats { result ≡ are_repeated (texts block.old) }
    ensures permutation { IsPermutation block.old block.new }
    ensures sorted { AreSorted block.new }
{
    block.sort_unstable();
    has_equal_neighbours(block)
}

// Whether this identifier is among those of a block, which are in order.
fn is_in(block: &[&[u8]], identifier: &[u8]) -> bool
    requires { AreSorted block.now }
    ensures { result ≡ is_among identifier.now (texts block.now) }
{
    block.binary_search(&identifier).is_ok()
}

// Whether one of the first `count` extensions of the list has an identifier of the block, whose
// identifiers are in order.
fn is_met(block: &[&[u8]], list: &Reader, count: usize) -> bool
    requires { AreSorted block.now }
    ensures { result ≡ any_among (texts block.now) (identifiers count list.now) }
{
    let mut reader = list.fork();
    let mut left = count;
    while left > 0 {
        match head(&mut reader) {
            Ok(identifier) => {
                if is_in(block, identifier) {
                    return true;
                }
                left -= 1;
            }
            Err(_) => return false,
        }
    }
    false
}

// Whether two of the first `count` extensions of the list have the same identifier, by the block
// that is borrowed.
fn has_repeats_by<'a>(list: &Reader<'a>, count: usize, block: &mut [&'a [u8]]) -> bool
    requires some { 0 < length block.old }
    requires few_or_large { (count ≤ 4 * length block.old) ⊎ (length block.old ≡ 32768) }
    ensures { result ≡ are_repeated (identifiers count list.now) }
{
    let mut reader = list.fork();
    let mut left = count;
    while left > 0 {
        let taken = take_block(&mut reader, block, left);
        if taken == 0 {
            return false;
        }
        left -= taken;
        if sort_block(&mut block[..taken]) || is_met(&block[..taken], &reader, left) {
            return true;
        }
    }
    false
}

// The same by small blocks. Each of these three clears a block, and its frame stays out of those of
// its callers.
#[inline(never)]
fn has_repeats_by_small(list: &Reader, count: usize) -> bool
    requires { count ≤ 256 }
    ensures { result ≡ are_repeated (identifiers count list.now) }
{
    let mut block: [&[u8]; SMALL] = [&[]; SMALL];
    has_repeats_by(list, count, &mut block)
}

#[inline(never)]
fn has_repeats_by_middle(list: &Reader, count: usize) -> bool
    requires { count ≤ 8192 }
    ensures { result ≡ are_repeated (identifiers count list.now) }
{
    let mut block: [&[u8]; MIDDLE] = [&[]; MIDDLE];
    has_repeats_by(list, count, &mut block)
}

#[inline(never)]
fn has_repeats_by_large(list: &Reader, count: usize) -> bool
    ensures { result ≡ are_repeated (identifiers count list.now) }
{
    let mut block: [&[u8]; LARGE] = [&[]; LARGE];
    has_repeats_by(list, count, &mut block)
}

/// Whether two of the first `count` extensions of the list have the same identifier.
pub fn has_repeats(list: &Reader, count: usize) -> bool
    ensures { result ≡ are_repeated (identifiers count list.now) }
{
    if count <= FEW_BLOCKS * SMALL {
        has_repeats_by_small(list, count)
    } else if count <= FEW_BLOCKS * MIDDLE {
        has_repeats_by_middle(list, count)
    } else {
        has_repeats_by_large(list, count)
    }
}
