//! Nothing of the items.

use crate::fold::ItemFold;
use mtc_io::Memory;

/// Nothing is retained: the pass gives the number of the items, or the fault of the file.
impl ItemFold for () {
    ghost has_taken = { λ _ _. Unit {0} };

    ghost purpose = { λ _. tt };

    fn take(&mut self, _entry: &[u8], _spki: &[u8]) -> Result<(), Memory> {
        Ok(())
    }
}
