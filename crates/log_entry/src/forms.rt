//! The form of an entry.

ghost use Rattle.std.specs.Prelude.{◌≡◌, Some, Ok};
ghost use Rattle.byte_formats.specs.Forms.{itself, optional};
ghost use Rattle.log_entry.specs.Forms.{form_at, form_of};
ghost use Rattle.log_entry.specs.Matching.{is_in_form};
ghost use Rattle.log_entry.specs.Views.{tbs_parts};

use crate::entry::{Form, TbsEntry};

impl Form {
    /// The form of the entry at an index, where entries have form two from the index `since` on, or
    /// never.
    pub fn at(since: Option<u64>, index: u64) -> Form
        ensures { result ≡ form_at since index }
    {
        match since {
            Some(from) if from <= index => Form::Two,
            _ => Form::One,
        }
    }
}

impl<'a> TbsEntry<'a> {
    /// The form of the entry.
    pub fn form(&self) -> Form
        ensures { result ≡ form_of (tbs_parts self.now) }
    {
        match self.algorithm {
            None => Form::One,
            Some(_) => Form::Two,
        }
    }

    /// Whether the entry has this form.
    pub fn has_form(&self, form: Form) -> bool
        ensures { result ≡ is_in_form form (Ok (Some (tbs_parts self.now))) }
    {
        match (form, self.algorithm) {
            (Form::One, None) => true,
            (Form::Two, Some(_)) => true,
            _ => false,
        }
    }

    /// The bytes before the hash of the key: those of the algorithm, or none.
    pub(crate) fn algorithm_bytes(&self) -> &'a [u8]
        ensures { result.now ≡ optional itself (tbs_parts self.now).algorithm }
    {
        match self.algorithm {
            None => &[],
            Some(algorithm) => algorithm,
        }
    }
}
