//! Which records may follow the first one of a cosigner's journal.

ghost use Rattle.std.specs.Prelude.{◌≡◌, [], ◌∷◌, ◌++◌, option_and_then};
ghost use Rattle.cosigner_core.specs.Progress.{may_follow_cosigner, progress_after, terms_of};
ghost use Rattle.cosigner_core.specs.Records.{step_in};

use crate::progress::Progress;
use crate::record::read_step;
use crate::settings::CosignerSettings;
use crate::terms::KeyTerms;
use mtc_io::Bytes;
use tree_core::TreeHash;

// The progress after one record more of a cosigner with a key of these terms, if it may stand
// there.
fn next_progress<H: TreeHash>(progress: &Progress, terms: KeyTerms, body: &[u8]) -> Option<Progress>
    ensures { result ≡ option_and_then (progress_after H.hash terms progress.now)
        (step_in body.now) }
{
    match read_step(body) {
        Ok(step) => progress.after::<H>(terms, &step),
        Err(_) => None,
    }
}

/// Whether these records, and one more after them, may follow the first record of a cosigner with
/// these settings. Its secret has no part in it. It takes no memory.
pub fn may_follow<H: TreeHash>(settings: &CosignerSettings, bodies: &[Bytes], body: &[u8]) -> bool
    ensures { result
        ≡ may_follow_cosigner H.hash (terms_of settings.now.lms settings.now.low)
        (bodies.now ++ body.now ∷ []) }
{
    let terms = settings.terms();
    let mut progress = Progress::empty::<H>();
    for earlier in bodies {
        let Some(next) = next_progress::<H>(&progress, terms, earlier.as_slice()) else {
            return false;
        };
        progress = next;
    }
    next_progress::<H>(&progress, terms, body).is_some()
}
