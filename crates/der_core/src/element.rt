//! One element of an input.

ghost use Rattle.std.specs.Prelude.{◌+◌, ◌^◌, ◌<◌, ◌≤◌, length};

/// An element that was read. It lies in an input: its contents are no longer than the whole, and it
/// ends below 2 ^ 64.
#[derive(Clone, Copy, Debug, PartialEq, Eq)]
pub struct Element<'a> {
    /// Class, form and number in one byte.
    pub tag: u8,
    /// The offset of the element in the input.
    pub place: usize,
    /// All of its bytes: tag, length and contents.
    pub whole: &'a [u8],
    /// The bytes after the length.
    pub contents: &'a [u8],
    pub ghost shorter: { length contents.now ≤ length whole.now },
    pub ghost within: { place + length whole.now < 2 ^ 64 },
}
