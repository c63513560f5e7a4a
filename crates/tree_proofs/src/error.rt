//! Why a consistency proof does not pass.

use std::error::Error;
use std::fmt;

/// Why a consistency proof of a subtree does not pass. The tests are made in this order.
#[derive(Clone, Copy, PartialEq, Eq, Debug)]
pub enum ConsistError {
    /// The interval is no subtree.
    BadSubtree,
    /// The subtree ends above the size.
    Beyond,
    /// The proof is not as long as the consistency proof of that subtree at that size.
    WrongLength,
    /// The proof gives another hash for the subtree.
    WrongNode,
    /// The proof gives another root.
    WrongRoot,
}

impl fmt::Display for ConsistError {
    ghost use Rattle.std.specs.Prelude.{Some};
    ghost use Rattle.tree_proofs.specs.Reasons.{consist_fault_text};

    ghost output = { λ why. Some (consist_fault_text why) };

    fn fmt<W: fmt::Write>(&self, f: &mut fmt::Formatter<W>) -> fmt::Result {
        match self {
            ConsistError::BadSubtree => f.write_str("BadSubtree"),
            ConsistError::Beyond => f.write_str("Beyond"),
            ConsistError::WrongLength => f.write_str("WrongLength"),
            ConsistError::WrongNode => f.write_str("WrongNode"),
            ConsistError::WrongRoot => f.write_str("WrongRoot"),
        }
    }
}

impl Error for ConsistError {}
