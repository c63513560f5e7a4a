//! The form that a store gives an entry.

ghost use Rattle.std.specs.Prelude.{◌≡◌};
ghost use Rattle.policy_core.specs.Judgement.{form_by};

use crate::store::Store;
use log_entry::Form;

impl Store {
    /// The form that the entry at an index has: two from `algorithm_from` on, and else one.
    pub fn form_at(&self, index: u64) -> Form
        ensures { result ≡ form_by self.now index }
    {
        Form::at(self.algorithm_from, index)
    }
}
