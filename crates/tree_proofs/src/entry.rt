//! Lists of entries.

ghost use Rattle.std.specs.Prelude.{◌≡◌, ◌<◌, ◌≤◌, [], List, length, map, take, drop};
ghost use Rattle.std.specs.Prelude.{slice_index_or};
ghost use Rattle.byte_formats.specs.Types.{Text};

use mtc_io::Bytes;

/// An item of a list, from which the entry that is hashed for it can be borrowed.
pub trait AsEntry {
    /// The entry.
    ghost entry: { Self → Text };

    /// The entry.
    fn as_entry(&self) -> &[u8]
        ensures { result.now ≡ entry self.now };
}

impl AsEntry for Bytes {
    ghost entry = { λ bytes. bytes };

    fn as_entry(&self) -> &[u8] {
        self.as_slice()
    }
}

impl<'a> AsEntry for &'a [u8] {
    ghost entry = { λ slice. slice.now };

    fn as_entry(&self) -> &[u8] {
        self
    }
}

/// A list of entries, from which each of them can be borrowed, and whose parts are such lists too.
pub trait EntryList: Drop {
    /// The entries in their order.
    ghost texts: { Self → List Text };

    /// How many entries there are.
    fn len(&self) -> usize
        ensures { result ≡ length (texts self.now) };

    /// The entry at an index.
    fn entry(&self, index: usize) -> &[u8]
        requires { index < length (texts self.now) }
        ensures { result.now ≡ slice_index_or (texts self.now) index [] };

    /// So many of the first entries.
    fn prefix(&self, count: usize) -> Self
        requires { count ≤ length (texts self.now) }
        ensures { texts result ≡ take count (texts self.now) };

    /// The entries after so many of the first.
    fn after(&self, count: usize) -> Self
        requires { count ≤ length (texts self.now) }
        ensures { texts result ≡ drop count (texts self.now) };
}

impl<'a, T: AsEntry> EntryList for &'a [T] {
    ghost texts = { λ items. map T.AsEntry.entry items.now };

    fn len(&self) -> usize {
        (*self).len()
    }

    fn entry(&self, index: usize) -> &[u8] {
        self[index].as_entry()
    }

    fn prefix(&self, count: usize) -> &'a [T] {
        &self[..count]
    }

    fn after(&self, count: usize) -> &'a [T] {
        let (_, rest) = self.split_at(count);
        rest
    }
}
