//! An export, and its lists.

use crate::step::Step;
use hss_core::PUBLIC_KEY_LEN;
use std::marker::Model;
use tls_wire::AnchorId;

/// Steps of a cosigner. Contracts see the list of them.
#[derive(Debug, Drop)]
pub struct StepList {
    items: Vec<Step>,
}

impl Model for StepList {
    ghost use Rattle.std.specs.Prelude.{List};
    ghost use Rattle.cosigner_core.specs.declared.step.Step.{Step};

    ghost Value = { List Step };

    ghost view = { λ s. s.items.items };
}

impl StepList {
    ghost use Rattle.std.specs.Prelude.{◌≡◌};

    /// The steps of a vector, without a copy.
    pub fn from_vec(items: Vec<Step>) -> StepList
        ensures { result ≡ items.items }
    {
        StepList { items }
    }

    /// The steps as a vector, without a copy.
    pub fn into_vec(self) -> Vec<Step>
        ensures { result.items ≡ self }
    {
        self.items
    }

    /// The steps, in their order.
    pub fn as_slice(&self) -> &[Step]
        ensures { result.now ≡ self.now }
    {
        self.items.as_slice()
    }
}

/// What others may know of a cosigner.
#[derive(Debug, Drop)]
pub struct Export {
    /// The name of the cosigner.
    pub cosigner: AnchorId,
    /// The name of the log whose subtrees it signs.
    pub log: AnchorId,
    /// The public key of its signatures.
    pub public: [u8; PUBLIC_KEY_LEN],
    /// Its steps, in their order.
    pub steps: StepList,
}
