//! The state of a party.

ghost use Rattle.std.specs.Prelude.{◌≡◌};
ghost use Rattle.party_history.specs.Parties.{fresh_party};

use crate::start::PartyStart;
use mtc_io::Bytes;
use std::alloc::Global;
use std::marker::Model;

/// What became of a party. Contracts see the lists of its bodies and numbers.
#[derive(Debug, Drop)]
pub struct PartyState {
    /// How it began, with record 0 of its journal.
    pub start: PartyStart,
    /// The bodies of the records 1, 2 and so on that are durable.
    pub durable: Vec<Bytes>,
    /// The body of a record that is pending.
    pub pending: Option<Bytes>,
    /// The numbers of the released records, in their order.
    pub released: Vec<u64>,
    /// The last durable record may be released: it was not yet, and no stop came in between.
    pub may_release: bool,
}

impl Model for PartyState {
    ghost use Rattle.party_history.specs.Parties.{HistoryState};

    ghost Value = { HistoryState };

    ghost view = { λ s. record {
      start = s.start;
      durable = s.durable.items;
      pending = s.pending;
      released = s.released.items;
      may_release = s.may_release;
    } };
}

impl PartyState {
    /// A party that has begun, and no more.
    pub(crate) fn fresh(alloc: Global, start: PartyStart) -> PartyState
        ensures { result ≡ fresh_party start }
    {
        PartyState {
            start,
            durable: Vec::new(alloc),
            pending: None,
            released: Vec::new(alloc),
            may_release: false,
        }
    }
}
