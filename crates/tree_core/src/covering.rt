//! The subtrees that cover an interval.

ghost use Rattle.std.specs.Prelude.{◌≡◌, ◌-◌, ◌^◌, ◌<◌, ◌≤◌, bit_and, bit_xor};
ghost use Rattle.tree_core.specs.Cover.{CoversInterval, bit_length, clear_low, cover_of};

use crate::{Cover, Span};

// The number of binary digits; 0 has none.
fn bit_length(number: u64) -> u32
    ensures { result ≡ bit_length number }
{
    u64::BITS - number.leading_zeros()
}

// The number with its lowest bits cleared.
fn without_low(number: u64, bits: u32) -> u64
    requires { bits < 64 }
    ensures { result ≡ clear_low number bits }
{
    number >> bits << bits
}

// The highest bit in which the two numbers differ.
fn highest_difference(first: u64, last: u64) -> u32
    requires { first < last }
    ensures bit { result ≡ bit_length (bit_xor first last) - 1 }
    ensures within { result < 64 }
{
    bit_length(first ^ last) - 1
}

// How many binary digits the bits below bit `split` have that the number lacks.
fn length_lacking(number: u64, split: u32) -> u32
    requires { split < 64 }
    ensures length { result ≡ bit_length (2 ^ split - 1 - bit_and number (2 ^ split - 1)) }
    ensures within { result ≤ split }
{
    let mask = (1 << split) - 1;
    bit_length(!number & mask)
}

/// The subtrees that cover the interval `[start, end)` (the draft on Merkle Tree Certificates,
/// where it covers arbitrary intervals): the interval itself where it holds one entry, and else
/// two subtrees side by side, of which the first may begin before `start` and the second ends at
/// `end`.
pub fn cover(start: u64, end: u64) -> Cover
    requires { start < end }
    ensures exact { result ≡ cover_of start end }
    ensures covers { CoversInterval start end result }
{
    if end - start == 1 {
        return Cover {
            first: Span { start, end },
            second: None,
        };
    }
    let last = end - 1;
    let split = highest_difference(start, last);
    let middle = without_low(last, split);
    let left_split = length_lacking(start, split);
    Cover {
        first: Span {
            start: without_low(start, left_split),
            end: middle,
        },
        second: Some(Span { start: middle, end }),
    }
}
