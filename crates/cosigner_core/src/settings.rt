//! What is fixed when a cosigner begins.

ghost use Rattle.std.specs.Prelude.{◌≡◌};
ghost use Rattle.cosigner_core.specs.Progress.{terms_of};

use crate::terms::KeyTerms;
use hss_core::{LmsType, OtsType};
use tls_wire::AnchorId;

/// The settings of a cosigner, which never change.
#[derive(Debug, Drop)]
pub struct CosignerSettings {
    /// The name of the cosigner.
    pub id: AnchorId,
    /// The name of the log whose subtrees it signs.
    pub log: AnchorId,
    /// The height of its key's tree, 5 or 10. A key of one level signs 32 or 1,024 times; with two
    /// levels it has up to as many lower trees.
    pub lms: LmsType,
    /// The height of the lower trees, 5 or 10, if its key has two levels.
    pub low: Option<LmsType>,
    /// The width of its one-time keys.
    pub ots: OtsType,
}

impl CosignerSettings {
    /// The terms of its key.
    pub(crate) fn terms(&self) -> KeyTerms
        ensures { result ≡ terms_of self.now.lms self.now.low }
    {
        match self.low {
            None => KeyTerms::OneLevel(self.lms),
            Some(low) => KeyTerms::TwoLevels {
                top: self.lms,
                low: Some(low),
            },
        }
    }
}
