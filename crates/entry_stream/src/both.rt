//! Two folds at once.

use crate::fold::ItemFold;
use mtc_io::Memory;

/// Two folds, which take the same items.
#[derive(Drop)]
pub struct Both<A, B> {
    pub first: A,
    pub second: B,
}

impl<A: ItemFold, B: ItemFold> ItemFold for Both<A, B> {
    ghost use Rattle.std.specs.Prelude.{◌++◌};

    ghost has_taken = { λ both items.
        A.has_taken both.first items × B.has_taken both.second items };

    ghost made_with = { λ both. A.made_with both.first ++ B.made_with both.second };

    ghost Purpose = { A.Purpose × B.Purpose };

    ghost purpose = { λ both. (A.purpose both.first, B.purpose both.second) };

    fn take(&mut self, entry: &[u8], spki: &[u8]) -> Result<(), Memory> {
        self.first.take(entry, spki)?;
        self.second.take(entry, spki)
    }
}
