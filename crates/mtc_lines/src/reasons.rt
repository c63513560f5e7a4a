//! The reasons why files of entries, exports and requests are refused.

ghost use Rattle.std.specs.Prelude.{◌≡◌};
ghost use Rattle.mtc_command.specs.Answers.{reason_text};
ghost use Rattle.cosigner_core.specs.Reasons.{export_fault_text, form_fault_text};
ghost use Rattle.entry_list.specs.Reasons.{items_fault_text};

use cosigner_core::{FormError, ReadExportError};
use entry_list::ItemsError;
use mtc_command::Reason;

/// Why a file is no list of entries.
pub fn items_reason(why: ItemsError) -> Reason
    ensures { reason_text result ≡ items_fault_text why }
{
    match why {
        ItemsError::Short(offset) => Reason::with_number("Short", offset as u64),
        ItemsError::BadItem(number) => Reason::with_number("BadItem", number),
        ItemsError::Memory => Reason::named("Memory"),
    }
}

/// Why a file is no export of a cosigner.
pub fn export_reason(why: ReadExportError) -> Reason
    ensures { reason_text result ≡ export_fault_text why }
{
    match why {
        ReadExportError::Short(offset) => Reason::with_number("Short", offset as u64),
        ReadExportError::BadKey => Reason::named("BadKey"),
        ReadExportError::BadId => Reason::named("BadId"),
        ReadExportError::BadRecord(number) => Reason::with_number("BadRecord", number),
        ReadExportError::Memory => Reason::named("Memory"),
    }
}

/// Why a file is no request.
pub fn form_reason(why: FormError) -> Reason
    ensures { reason_text result ≡ form_fault_text why }
{
    match why {
        FormError::Short(offset) => Reason::with_number("Short", offset as u64),
        FormError::HashLength => Reason::named("HashLength"),
        FormError::Trailing => Reason::named("Trailing"),
        FormError::EmptyId => Reason::named("EmptyId"),
    }
}
