//! From a text to its tree.

ghost use Rattle.std.specs.Prelude.{◌≡◌, Some, None, Err, IfOk};
ghost use Rattle.toml.specs.View.{table_view};
ghost use Rattle.toml_fields.specs.Tree.{tree_of};

use std::alloc::Global;
use std::error::Error;
use std::fmt;
use toml::Table;

/// Why a text has no tree.
#[derive(Clone, Copy, Debug, PartialEq, Eq)]
pub enum TreeError {
    /// The text isn't UTF-8, or isn't TOML.
    NotToml,
    /// Memory was refused.
    Memory,
}

impl fmt::Display for TreeError {
    ghost use Rattle.std.specs.Prelude.{Some};
    ghost use Rattle.toml_fields.specs.Reasons.{tree_fault_text};

    ghost output = { λ why. Some (tree_fault_text why) };

    fn fmt<W: fmt::Write>(&self, f: &mut fmt::Formatter<W>) -> fmt::Result {
        match self {
            TreeError::NotToml => f.write_str("NotToml"),
            TreeError::Memory => f.write_str("Memory"),
        }
    }
}

impl Error for TreeError {}

/// The tree of a text. `NotToml` comes only where it has none.
#[tactic(auto, unfolding(crate::specs::Tree::tree_of))]
pub fn read_tree(alloc: Global, text: &[u8]) -> Result<Table, TreeError>
    ensures ok { IfOk result (λ tree. tree_of text.now ≡ Some (table_view tree)) }
    ensures refused { result ≡ Err TreeError.NotToml → tree_of text.now ≡ None }
{
    match toml::table_from_slice(alloc, text) {
        Ok(tree) => Ok(tree),
        Err(why) => {
            if why.is_memory() {
                Err(TreeError::Memory)
            } else {
                Err(TreeError::NotToml)
            }
        }
    }
}
