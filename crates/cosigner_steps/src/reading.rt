//! Reading the export of a cosigner, whose steps are allowed.

ghost use Rattle.std.specs.Prelude.{IfOk, IfSome};
ghost use Rattle.byte_formats.specs.Readings.{Answers};
ghost use Rattle.cosigner_core.specs.ExportReading.{export_in};
ghost use Rattle.cosigner_core.specs.declared.error.ReadExportError.TheVariants.{Memory as NoCapacity};
ghost use Rattle.cosigner_steps.specs.Steps.{AreSteps};

use cosigner_core::{Export, ReadExportError, read_export};
use std::alloc::Global;
use tree_core::TreeHash;

/// Reads the export of a cosigner, with the errors of [`read_export`]: its steps are those of a
/// cosigner, as an audit requires. No bytes are no export.
pub fn read_steps<H: TreeHash>(
    alloc: Global,
    bytes: &[u8],
) -> Result<Option<Export>, ReadExportError>
    ensures exact { Answers NoCapacity (export_in H.hash bytes.now) result }
    ensures steps { IfOk result (λ kept. IfSome kept (λ e. AreSteps H.hash e.steps)) }
{
    read_export::<H>(alloc, bytes)
}
