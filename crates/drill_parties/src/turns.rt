//! Turns: calls that add a record, and the stops in them.

use mtc_io::Memory;
use std::alloc::Global;
use std::marker::Model;

/// A stop of the machine within a call that adds a record.
#[derive(Clone, Copy, Debug, PartialEq, Eq)]
pub struct Stop {
    /// So many calls that change the device are done before it. The first of them is the sync with
    /// which the party is opened.
    pub passes: u64,
    /// The choice of the crash state that it leaves.
    pub pick: u64,
}

/// The stop in a call, or none.
pub type Turn = Option<Stop>;

/// Turns, one after the other. Contracts see the list of them.
#[derive(Debug, Drop)]
pub struct Turns {
    items: Vec<Turn>,
}

impl Model for Turns {
    ghost use Rattle.std.specs.Prelude.{List, Option};
    ghost use Rattle.drill_parties.specs.declared.turns.Stop.{Stop};

    ghost Value = { List (Option Stop) };

    ghost view = { λ t. t.items.items };
}

impl Turns {
    ghost use Rattle.std.specs.Prelude.{◌≡◌, [], ◌∷◌, ◌++◌, OnOk};

    pub(crate) fn new(alloc: Global) -> Turns
        ensures { result ≡ [] }
    {
        Turns {
            items: Vec::new(alloc),
        }
    }

    pub(crate) fn push(&mut self, turn: Turn) -> Result<(), Memory>
        ensures { OnOk result (self.new ≡ self.old ++ turn ∷ []) }
    {
        self.items.push(turn)?;
        Ok(())
    }

    /// The turns, in their order.
    pub fn as_slice(&self) -> &[Turn]
        ensures { result.now ≡ self.now }
    {
        self.items.as_slice()
    }
}
