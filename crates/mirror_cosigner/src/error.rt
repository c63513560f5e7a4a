//! Why a mirror has a cosigner take no step.

ghost use Rattle.std.specs.Prelude.{◌≡◌};
ghost use Rattle.mirror_cosigner.specs.declared.error.MirrorStepError.TheVariants.{Cosign as NotCosigned};
ghost use Rattle.mirror_cosigner.specs.declared.error.MirrorStepError.TheVariants.{Failed as StepFailed};

use cosigner_core::CosignError;
use mtc_io::Failed;
use std::error::Error;
use std::fmt;

/// Why a mirror has a cosigner take no step. Each call says in which order it tests.
#[derive(Clone, Copy, Debug, PartialEq, Eq)]
pub enum MirrorStepError {
    /// The first items end after this: the size of the mirror, or of what the cosigner holds.
    Beyond(u64),
    /// What the cosigner holds is not of the first items of the mirror: its root, and the tree hash
    /// of as many of the first items, as far as they are there.
    NotMine { held: [u8; 32], own: [u8; 32] },
    /// The interval is no subtree.
    BadSubtree,
    /// The disk of the tiles failed.
    Failed,
    /// The cosigner refuses.
    Cosign(CosignError),
}

// The hexadecimal digits of a hash, as they are displayed.
#[derive(Drop)]
struct Digits<'a>(&'a [u8; 32]);

impl<'a> fmt::Display for Digits<'a> {
    ghost use Rattle.hex.specs.Hex.{encode_lower};
    ghost use Rattle.std.specs.Prelude.{Some};

    ghost output = { λ hash. Some (encode_lower hash.0.now) };

    fn fmt<W: fmt::Write>(&self, f: &mut fmt::Formatter<W>) -> fmt::Result {
        let mut digits = [0; 64];
        if hex::encode_to_slice(self.0.as_slice(), &mut digits).is_err() {
            return Err(fmt::Error);
        }
        match str::from_utf8(&digits) {
            Ok(text) => f.write_str(text),
            Err(_) => Err(fmt::Error),
        }
    }
}

impl fmt::Display for MirrorStepError {
    ghost use Rattle.std.specs.Prelude.{Some};
    ghost use Rattle.mirror_cosigner.specs.Reasons.{mirror_step_text};

    ghost output = { λ why. Some (mirror_step_text why) };

    fn fmt<W: fmt::Write>(&self, f: &mut fmt::Formatter<W>) -> fmt::Result {
        match self {
            MirrorStepError::Beyond(size) => write!(f, "Beyond {size}"),
            MirrorStepError::NotMine { held, own } => {
                write!(f, "NotMine {} {}", Digits(held), Digits(own))
            }
            MirrorStepError::BadSubtree => f.write_str("BadSubtree"),
            MirrorStepError::Failed => f.write_str("Failed"),
            MirrorStepError::Cosign(why) => why.fmt(f),
        }
    }
}

impl Error for MirrorStepError {}

impl From<Failed> for MirrorStepError {
    ghost from_gives = { λ _ e. e ≡ StepFailed };

    fn from(_: Failed) -> Self {
        MirrorStepError::Failed
    }
}

impl From<CosignError> for MirrorStepError {
    ghost from_gives = { λ why e. e ≡ NotCosigned why };

    fn from(why: CosignError) -> Self {
        MirrorStepError::Cosign(why)
    }
}
