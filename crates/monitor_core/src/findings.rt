//! What a run found.

ghost use Rattle.std.specs.Prelude.{◌≡◌};

use crate::lines::Line;
use crate::states::State;
use std::marker::Model;

/// The lines of the report of a run, and the state for the next one. Contracts see both.
#[derive(Debug, Drop)]
pub struct Found {
    lines: Vec<Line>,
    state: State,
}

impl Model for Found {
    ghost use Rattle.monitor_core.specs.Report.{Findings};

    ghost Value = { Findings };

    ghost view = { λ f. record { lines = f.lines.items; state = f.state } };
}

impl Found {
    pub(crate) fn of(lines: Vec<Line>, state: State) -> Found
        ensures { result ≡ record { lines = lines.items; state = state } }
    {
        Found { lines, state }
    }

    /// The lines, in the order of the entries and of their names.
    pub fn lines(&self) -> &[Line]
        ensures { result.now ≡ self.now.lines }
    {
        self.lines.as_slice()
    }

    /// The state with the new entries.
    pub fn state(&self) -> &State
        ensures { result.now ≡ self.now.state }
    {
        &self.state
    }

    /// The same state, without a copy.
    pub fn into_state(self) -> State
        ensures { result ≡ self.state }
    {
        self.state
    }
}
