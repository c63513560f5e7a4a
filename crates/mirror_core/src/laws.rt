//! Laws of a mirror's records: the clauses are the laws, and the functions do nothing.

ghost use Rattle.std.specs.Prelude.{◌≡◌, ◌⊎◌, ℕ, ◌<◌, ◌≤◌, List, [], ◌∷◌, ◌++◌, length, take};
ghost use Rattle.std.specs.Prelude.{Some, None, Ok, option_map, true, false, min, slice_index_or};
ghost use Rattle.byte_formats.specs.Offsets.{IsBytes};
ghost use Rattle.byte_formats.specs.Types.{HashFunction, Text};
ghost use Rattle.issuance_log.specs.Batches.{has_large, most_listed};
ghost use Rattle.issuance_log.specs.Records.{CanBeBatch, tiles_record};
ghost use Rattle.journal_core.specs.Format.{Represents};
ghost use Rattle.tls_wire.specs.Arcs.{IsAnchorId};
ghost use Rattle.mirror_core.specs.Folds.{MirrorState, begun_mirror, mirror_of, mirror_with};
ghost use Rattle.mirror_core.specs.Folds.{next_mirror, next_mirror_view, view_in_mirror};
ghost use Rattle.mirror_core.specs.Openings.{FoundMirror, mirror_read};
ghost use Rattle.mirror_core.specs.Records.{all_mirrored, mirror_batch_record, mirror_log_in};
ghost use Rattle.mirror_core.specs.Records.{mirror_record, mirrored_in};
ghost use Rattle.mirror_core.specs.Refusals.{batch_count, first_difference, next_batch};
ghost use Rattle.mirror_core.specs.Rules.{IsFirstOfMirror, IsNextOfMirror, IsSoundMirror};

/// The body of a Mirror is read as the id that it encodes, and only such an encoding is read.
pub fn law_mirrors_decode_as_encoded()
    ensures again { (id : Text) → IsAnchorId id → mirror_log_in (mirror_record id) ≡ Some id }
    ensures only { (body id : Text) → IsBytes body → mirror_log_in body ≡ Some id
        → (body ≡ mirror_record id) × IsAnchorId id }
{}

/// The body of a Batch is read as the items that it encodes, and only such an encoding is read.
pub fn law_batches_decode_as_encoded()
    ensures again { (items : List (Text × Text)) → CanBeBatch items
        → mirrored_in (mirror_batch_record items) ≡ Some items }
    ensures only { (body : Text) (items : List (Text × Text)) → IsBytes body
        → mirrored_in body ≡ Some items → (body ≡ mirror_batch_record items) × CanBeBatch items }
{}

/// A record makes of what a mirror shows over every disk what the mirror that it makes shows.
pub fn law_views_follow_the_records()
    ensures { (h : HashFunction) (s : MirrorState) (body : Text)
        → next_mirror_view h (view_in_mirror s) body
        ≡ option_map view_in_mirror (next_mirror h s body) }
{}

/// A record begins a mirror, or makes a mirror of another one, exactly if it follows the rules.
pub fn law_records_keep_to_the_rules()
    ensures first { (body : Text) (s : MirrorState) → IsFirstOfMirror body s
        → begun_mirror body ≡ Some s }
    ensures only_first { (body : Text) (s : MirrorState) → IsBytes body
        → begun_mirror body ≡ Some s → IsFirstOfMirror body s }
    ensures next { (h : HashFunction) (s : MirrorState) (body : Text) (t : MirrorState)
        → IsNextOfMirror h s body t → next_mirror h s body ≡ Some t }
    ensures only_next { (h : HashFunction) (s : MirrorState) (body : Text) (t : MirrorState)
        → IsBytes body → next_mirror h s body ≡ Some t → IsNextOfMirror h s body t }
{}

/// A file is read as a mirror exactly if it represents records that make this mirror.
pub fn law_mirrors_are_read_from_their_journals()
    ensures read { (h : HashFunction) (bytes : Text) (list : List Text) (s : MirrorState)
        → Represents bytes list → mirror_of h list ≡ Ok s
        → mirror_read h bytes ≡ Ok (record { records = list; state = s }) }
    ensures only { (h : HashFunction) (bytes : Text) (found : FoundMirror) → IsBytes bytes
        → mirror_read h bytes ≡ Ok found
        → Represents bytes found.records × (mirror_of h found.records ≡ Ok found.state) }
{}

/// A mirror that records make is what it shows over every disk, with the items in the records. A
/// Batch more has its items after the others, and a Tiles has none.
pub fn law_records_determine_the_items()
    ensures whole { (h : HashFunction) (list : List Text) (s : MirrorState) → mirror_of h list ≡ Ok
        s
        → mirror_with (view_in_mirror s) list ≡ s }
    ensures sound { (h : HashFunction) (list : List Text) (s : MirrorState) → mirror_of h list ≡ Ok
        s
        → IsSoundMirror h s }
    ensures batched { (list : List Text) (items : List (Text × Text)) → CanBeBatch items
        → all_mirrored (list ++ mirror_batch_record items ∷ []) ≡ all_mirrored list ++ items }
    ensures tiled { (list : List Text) (size : ℕ)
        → all_mirrored (list ++ tiles_record size ∷ []) ≡ all_mirrored list }
{}

/// The first difference of two lists of items is where the one after it differs in each, and those
/// before it don't; where there is none, one list begins with the other.
pub fn law_the_first_difference_is_first()
    ensures some { (held items : List (Text × Text)) (number : ℕ)
        → first_difference held items ≡ Some number
        → (take number held ≡ take number items) × (number < length held)
        × (number < length items) × (slice_index_or held number ([], [])
        ≡ slice_index_or items number ([], []) → ⊥) }
    ensures none { (held items : List (Text × Text)) → first_difference held items ≡ None
        → take (min (length held) (length items)) held
        ≡ take (min (length held) (length items)) items }
{}

/// The next Batch is the longest beginning of the new items that a record holds, without a large
/// one; and it has one at least if the first new item isn't large. A record never holds more than
/// 65,535 items.
pub fn law_batches_are_the_longest()
    ensures fits { (size : ℕ) (items : List (Text × Text))
        → length (mirror_batch_record (next_batch size items)) ≤ 131072 }
    ensures few { (size : ℕ) (items : List (Text × Text)) → length (next_batch size items) ≤ 65535 }
    ensures small { (size : ℕ) (items : List (Text × Text))
        → has_large (next_batch size items) ≡ false }
    ensures longest { (items : List (Text × Text)) (n : ℕ) → batch_count most_listed items < n
        → n ≤ length items → (has_large (take n items) ≡ true)
        ⊎ (131072 < length (mirror_batch_record (take n items))) }
    ensures some { (x : Text × Text) (items : List (Text × Text)) → has_large (x ∷ []) ≡ false
        → 1 ≤ batch_count most_listed (x ∷ items) }
{}
