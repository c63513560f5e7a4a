//! The reasons why the texts of a monitor and its runs are refused.

ghost use Rattle.std.specs.Prelude.{◌≡◌};
ghost use Rattle.mtc_command.specs.Answers.{reason_text};
ghost use Rattle.monitor_core.specs.Reasons.{run_fault_text, text_fault_text};

use monitor_core::{MonitorError, TextError};
use mtc_command::Reason;

// Why a file has no state, or no domains.
pub(crate) fn text_reason(why: TextError) -> Reason
    ensures { reason_text result ≡ text_fault_text why }
{
    match why {
        TextError::BadLine(number) => Reason::with_number("BadLine", number as u64),
        TextError::Memory => Reason::named("Memory"),
    }
}

// Why a run is refused.
pub(crate) fn run_reason(why: MonitorError) -> Reason
    ensures { reason_text result ≡ run_fault_text why }
{
    match why {
        MonitorError::WrongLog => Reason::named("WrongLog"),
        MonitorError::NotNewer(size) => Reason::with_number("NotNewer", size),
        MonitorError::ItemCount { have, want } => Reason::with_numbers("ItemCount", have, want),
        MonitorError::BadProof => Reason::named("BadProof"),
        MonitorError::RootDiffers { wanted, found } => {
            Reason::with_hashes("RootDiffers", wanted, found)
        }
        MonitorError::Memory => Reason::named("Memory"),
    }
}
