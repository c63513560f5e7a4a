//! The steps of a history.

use mtc_io::Bytes;

/// A step of one party, which is named by its index among the starts.
#[derive(Debug, Drop)]
pub enum PartyStep {
    /// A record with this body begins. It is pending.
    Begin { party: u32, body: Bytes },
    /// The pending record becomes durable: no stop takes it away any more.
    MakeDurable { party: u32 },
    /// The last durable record is released.
    Release { party: u32 },
    /// The party stops, and is opened again. A pending record is durable then, or is gone.
    Stop { party: u32, kept: bool },
}
