//! Why a path has no value.

use std::error::Error;
use std::fmt;

/// Why a path has no value at an index. The tests are made in this order.
#[derive(Clone, Copy, PartialEq, Eq, Debug)]
pub enum EvalError {
    /// The interval is no subtree.
    BadSubtree,
    /// The index lies outside the interval.
    Outside,
    /// The path is not as long as the inclusion path of that index.
    WrongLength,
}

impl fmt::Display for EvalError {
    ghost use Rattle.std.specs.Prelude.{Some};
    ghost use Rattle.tree_core.specs.Reasons.{shape_text};

    ghost output = { λ why. Some (shape_text why) };

    fn fmt<W: fmt::Write>(&self, f: &mut fmt::Formatter<W>) -> fmt::Result {
        match self {
            EvalError::BadSubtree => f.write_str("BadSubtree"),
            EvalError::Outside => f.write_str("Outside"),
            EvalError::WrongLength => f.write_str("WrongLength"),
        }
    }
}

impl Error for EvalError {}
