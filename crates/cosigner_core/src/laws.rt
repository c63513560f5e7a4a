//! Laws of requests and records: the clauses are the laws, and the functions do nothing.

ghost use Rattle.std.specs.Prelude.{◌≡◌, ℕ, true, List, ◌∷◌, ◌++◌, drop, is_ok, Some, Ok};
ghost use Rattle.byte_formats.specs.Types.{Hash, HashFunction, Text};
ghost use Rattle.byte_formats.specs.Forms.{Anything, IsForm};
ghost use Rattle.byte_formats.specs.Offsets.{IsBytes};
ghost use Rattle.journal_core.specs.Format.{Represents};
ghost use Rattle.cosigner_core.specs.Counts.{AreCounted, CountsUp, FollowsItsTree};
ghost use Rattle.cosigner_core.specs.ExportReading.{IsExport, export_in, export_of};
ghost use Rattle.cosigner_core.specs.ExportReading.{export_progress, exported_text};
ghost use Rattle.cosigner_core.specs.Exports.{export_text};
ghost use Rattle.cosigner_core.specs.declared.lists.Export.{Export};
ghost use Rattle.cosigner_core.specs.Folds.{CosignerState, cosigner_of, progress_of};
ghost use Rattle.hss_keys.specs.Keys.{public_of};
ghost use Rattle.cosigner_core.specs.Openings.{FoundCosigner, cosigner_read};
ghost use Rattle.cosigner_core.specs.Progress.{may_follow_cosigner, steps_in, terms_of};
ghost use Rattle.cosigner_core.specs.Records.{FitsCosigner, FitsStep, cosigner_in, cosigner_record};
ghost use Rattle.cosigner_core.specs.Records.{step_in, step_record};
ghost use Rattle.cosigner_core.specs.declared.step.Step.{Step};
ghost use Rattle.cosigner_core.specs.declared.settings.CosignerSettings.{CosignerSettings};
ghost use Rattle.cosigner_core.specs.Reading.{advance_at, advance_in, subtree_at, subtree_in};
ghost use Rattle.cosigner_core.specs.Requests.{AdvanceParts, IsAdvance, IsSubtreeRequest};
ghost use Rattle.cosigner_core.specs.Requests.{SubtreeParts, advance_text, subtree_text};
ghost use Rattle.cosigner_core.specs.Signatures.{SignsInItsTree};
ghost use Rattle.cosigner_core.specs.declared.step.Step.TheVariants.{Sign};
ghost use Rattle.lms_core.specs.declared.heights.LmsType.{LmsType};

/// What is read as a request to hold a larger log is its encoding, and the encoding of each such
/// request is read as its parts. So a request has one encoding.
pub fn law_advance_requests_decode_as_encoded()
    ensures form { IsForm advance_text IsAdvance Anything advance_at }
    ensures only { (bytes : Text) (r : AdvanceParts) → IsBytes bytes → advance_in bytes ≡ Ok r
        → (bytes ≡ advance_text r) × IsAdvance r }
    ensures again { (r : AdvanceParts) → IsAdvance r → advance_in (advance_text r) ≡ Ok r }
{}

/// The same for a request to sign a subtree.
pub fn law_subtree_requests_decode_as_encoded()
    ensures form { IsForm subtree_text IsSubtreeRequest Anything subtree_at }
    ensures only { (bytes : Text) (r : SubtreeParts) → IsBytes bytes → subtree_in bytes ≡ Ok r
        → (bytes ≡ subtree_text r) × IsSubtreeRequest r }
    ensures again { (r : SubtreeParts) → IsSubtreeRequest r → subtree_in (subtree_text r) ≡ Ok r }
{}

/// The body of an Advance, a Sign or a Child is read as what it says, and only the encoding of a
/// step is read.
pub fn law_steps_decode_as_encoded()
    ensures again { (step : Step) → FitsStep step → step_in (step_record step) ≡ Some step }
    ensures only { (body : Text) (step : Step) → IsBytes body → step_in body ≡ Some step
        → (body ≡ step_record step) × FitsStep step }
{}

/// The body of a Cosigner or a Cosigner2 is read as the settings and the secret that it encodes,
/// and only such an encoding is read.
pub fn law_first_records_decode_as_encoded()
    ensures again { (s : CosignerSettings) (secret : Text) → FitsCosigner s secret
        → cosigner_in (cosigner_record s secret) ≡ Some (s, secret) }
    ensures only { (body : Text) (s : CosignerSettings) (secret : Text) → IsBytes body
        → cosigner_in body ≡ Some (s, secret)
        → (body ≡ cosigner_record s secret) × FitsCosigner s secret }
{}

/// A file is read as a cosigner's exactly if it represents records that make this cosigner.
pub fn law_cosigners_are_read_from_their_journals()
    ensures read { (h : HashFunction) (bytes : Text) (list : List Text) (s : CosignerState)
        → Represents bytes list → cosigner_of h list ≡ Ok s
        → cosigner_read h bytes ≡ Ok (record { records = list; state = s }) }
    ensures only { (h : HashFunction) (bytes : Text) (found : FoundCosigner) → IsBytes bytes
        → cosigner_read h bytes ≡ Ok found
        → Represents bytes found.records × (cosigner_of h found.records ≡ Ok found.state) }
{}

/// In the records of a cosigner no one-time key signs twice: the i-th Sign record, counted from 0,
/// has the number i. And no lower tree is signed twice: the i-th Child record has the number i.
pub fn law_one_time_keys_sign_once()
    ensures { (h : HashFunction) (list : List Text) (s : CosignerState)
        → cosigner_of h list ≡ Ok s → CountsUp list s }
{}

/// What is read as an export is its encoding, and its steps are those of a cosigner; and the
/// encoding of each export is read as it. What a cosigner exports of a file that represents its
/// records is read as their steps, which bring it as far as it is.
pub fn law_exports_decode_as_encoded()
    ensures only { (h : HashFunction) (bytes : Text) (e : Export) → IsBytes bytes
        → export_in h bytes ≡ Ok (Some e) → (bytes ≡ exported_text e) × IsExport h e }
    ensures written { (h : HashFunction) (e : Export) → IsExport h e
        → export_in h (exported_text e) ≡ Ok (Some e) }
    ensures again { (h : HashFunction) (bytes : Text) (list : List Text) (s : CosignerState)
        → IsBytes bytes → Represents bytes list → cosigner_of h list ≡ Ok s
        → (steps : List Step) × (steps_in (drop 1 list) ≡ Some steps)
        × (export_in h (export_text s list) ≡ Ok (Some (export_of s steps)))
        × (export_progress h (export_of s steps) ≡ Some (progress_of s)) }
{}

/// An export shows nothing of the first record, which holds the secret: cosigners with the same
/// ids, the same public key and the same records after the first one have the same export.
pub fn law_exports_never_show_the_secret()
    ensures { (s t : CosignerState) (first other : Text) (bodies : List Text) → s.id ≡ t.id
        → s.log ≡ t.log → public_of s.key.key ≡ public_of t.key.key
        → export_text s (first ∷ bodies) ≡ export_text t (other ∷ bodies) }
{}

/// Records make a cosigner exactly if the first one has settings and a secret, and the others may
/// follow it. The secret has no part in it, but for the key. No two of these have the number of one
/// one-time key, or of one lower tree: the i-th number among them is i. Each Sign follows the Child
/// of its lower tree, if there are lower trees.
pub fn law_cosigners_begin_with_their_settings()
    ensures following { (h : HashFunction) (first : Text) (s : CosignerSettings) (secret : Text)
        (bodies : List Text) → cosigner_in first ≡ Some (s, secret)
        → is_ok (cosigner_of h (first ∷ bodies))
        ≡ may_follow_cosigner h (terms_of s.lms s.low) bodies }
    ensures only { (h : HashFunction) (list : List Text) (t : CosignerState)
        → cosigner_of h list ≡ Ok t → (first : Text) × ((bodies : List Text)
        × ((s : CosignerSettings) × ((secret : Text) × ((list ≡ first ∷ bodies)
        × (cosigner_in first ≡ Some (s, secret))
        × (may_follow_cosigner h (terms_of s.lms s.low) bodies ≡ true))))) }
    ensures once { (h : HashFunction) (s : CosignerSettings) (bodies : List Text)
        → may_follow_cosigner h (terms_of s.lms s.low) bodies ≡ true → AreCounted bodies }
    ensures trees { (h : HashFunction) (s : CosignerSettings) (before : List Text) (body : Text)
        (after : List Text) (index start end : ℕ) (hash : Hash) (proof : List Hash)
        → may_follow_cosigner h (terms_of s.lms s.low) (before ++ body ∷ after) ≡ true
        → step_in body ≡ Some (Sign index start end hash proof)
        → FollowsItsTree s.lms s.low before index }
{}

/// A cosigner of two levels signs nothing by upper one-time key c but the public key of lower tree
/// c, whenever and however often a signature is made.
pub fn law_upper_keys_sign_their_trees()
    ensures { (s : CosignerState) (low : LmsType) → SignsInItsTree s low }
{}
