//! Laws of a log's records: the clauses are the laws, and the functions do nothing.

ghost use Rattle.std.specs.Prelude.{◌≡◌, ◌+◌, ◌<◌, ◌≤◌, ◌^◌, ℕ, List, [], ◌∷◌, ◌++◌, length};
ghost use Rattle.std.specs.Prelude.{Some, Ok, option_map, take};
ghost use Rattle.byte_formats.specs.Types.{Text, HashFunction};
ghost use Rattle.byte_formats.specs.Offsets.{IsBytes};
ghost use Rattle.journal_core.specs.Format.{Represents};
ghost use Rattle.issuance_log.specs.Batches.{fitting, most_listed};
ghost use Rattle.issuance_log.specs.Folds.{LogState, LogView, begun_log, next_log, next_view};
ghost use Rattle.issuance_log.specs.Folds.{log_after, log_of, view_in, with_item, with_items};
ghost use Rattle.issuance_log.specs.Openings.{FoundLog, log_read};
ghost use Rattle.issuance_log.specs.Records.{CanBeBatch, batch_in, batch_record};
ghost use Rattle.issuance_log.specs.Records.{IsShort, entry_record, item_in, landmark_record};
ghost use Rattle.issuance_log.specs.Records.{mark_in, settings_in, switch_in, switch_record};
ghost use Rattle.issuance_log.specs.Records.{tiled_in, tiles_record};
ghost use Rattle.issuance_log.specs.Rules.{IsFirst, IsNext};
ghost use Rattle.issuance_log.specs.Settings.{Settings};
ghost use Rattle.issuance_log.specs.Shown.{recorded_items, shown_with};

/// The body of an Entry is read as the entry and the key that it encodes, and only such an encoding
/// is read.
pub fn law_items_decode_as_encoded()
    ensures again { (entry key : Text) → IsShort entry → IsShort key
        → item_in (entry_record entry key) ≡ Some (entry, key) }
    ensures only { (body entry key : Text) → IsBytes body → item_in body ≡ Some (entry, key)
        → (body ≡ entry_record entry key) × IsShort entry × IsShort key }
{}

/// The body of a Batch is read as the items that it encodes, and only such an encoding is read.
pub fn law_batches_decode_as_encoded()
    ensures again { (items : List (Text × Text)) → CanBeBatch items
        → batch_in (batch_record items) ≡ Some items }
    ensures only { (body : Text) (items : List (Text × Text)) → IsBytes body
        → batch_in body ≡ Some items → (body ≡ batch_record items) × CanBeBatch items }
{}

/// The body of a Landmark is read as the size that it encodes, and only such an encoding is read.
pub fn law_landmarks_decode_as_encoded()
    ensures again { (size : ℕ) → size < 2 ^ 64 → mark_in (landmark_record size) ≡ Some size }
    ensures only { (body : Text) (size : ℕ) → IsBytes body → mark_in body ≡ Some size
        → (body ≡ landmark_record size) × (size < 2 ^ 64) }
{}

/// The body of a Tiles is read as the size that it encodes, and only such an encoding is read.
pub fn law_tiles_decode_as_encoded()
    ensures again { (size : ℕ) → size < 2 ^ 64 → tiled_in (tiles_record size) ≡ Some size }
    ensures only { (body : Text) (size : ℕ) → IsBytes body → tiled_in body ≡ Some size
        → (body ≡ tiles_record size) × (size < 2 ^ 64) }
{}

/// The body of a Switch is read as the size that it encodes, and only such an encoding is read.
pub fn law_switches_decode_as_encoded()
    ensures again { (size : ℕ) → size < 2 ^ 64 → switch_in (switch_record size) ≡ Some size }
    ensures only { (body : Text) (size : ℕ) → IsBytes body → switch_in body ≡ Some size
        → (body ≡ switch_record size) × (size < 2 ^ 64) }
{}

/// How many of the first items fit a Batch: all of them exactly if its body is within the bytes of
/// a record, and else as many as make such a body, and no more.
pub fn law_batches_hold_as_many_as_fit()
    ensures all { (items : List (Text × Text)) → fitting most_listed items ≡ length items
        → length (batch_record items) ≤ 131072 }
    ensures only { (items : List (Text × Text)) → length (batch_record items) ≤ 131072
        → fitting most_listed items ≡ length items }
    ensures first { (items : List (Text × Text))
        → length (batch_record (take (fitting most_listed items) items)) ≤ 131072 }
    ensures more { (items : List (Text × Text)) (n : ℕ) → fitting most_listed items < n
        → n ≤ length items → 131072 < length (batch_record (take n items)) }
{}

/// A record makes of what a log shows over every disk what the log that it makes shows.
pub fn law_views_follow_the_records()
    ensures { (h : HashFunction) (s : LogState) (body : Text)
        → next_view h (view_in s) body ≡ option_map view_in (next_log h s body) }
{}

/// A record begins a log, or makes a log of another one, exactly if it follows the rules.
pub fn law_records_keep_to_the_rules()
    ensures first { (body : Text) (s : LogState) → IsFirst body s → begun_log body ≡ Some s }
    ensures only_first { (body : Text) (s : LogState) → IsBytes body → begun_log body ≡ Some s
        → IsFirst body s }
    ensures next { (h : HashFunction) (s : LogState) (body : Text) (t : LogState)
        → IsNext h s body t
        → next_log h s body ≡ Some t }
    ensures only_next { (h : HashFunction) (s : LogState) (body : Text) (t : LogState)
        → IsBytes body
        → next_log h s body ≡ Some t → IsNext h s body t }
{}

/// A file is read as a log exactly if it represents records that make this log.
pub fn law_logs_are_read_from_their_journals()
    ensures read { (h : HashFunction) (bytes : Text) (list : List Text) (s : LogState)
        → Represents bytes list
        → log_of h list ≡ Ok s → log_read h bytes ≡ Ok (record { records = list; state = s }) }
    ensures only { (h : HashFunction) (bytes : Text) (found : FoundLog) → IsBytes bytes
        → log_read h bytes ≡ Ok found
        → Represents bytes found.records × (log_of h found.records ≡ Ok found.state) }
{}

/// A log that records make is what it shows over every disk, with the first items in the records.
/// It stays so if one more record follows them. If all of the items are shown, the record of an
/// item adds this one, a Batch adds its items in their order, and the record of a landmark, of
/// tiles or of a switch adds none.
pub fn law_records_determine_the_items()
    ensures whole { (h : HashFunction) (list : List Text) (s : LogState) → log_of h list ≡ Ok s
        → shown_with (view_in s) list ≡ s }
    ensures longer { (v : LogView) (list : List Text) (body : Text)
        → v.size ≤ length (recorded_items list)
        → shown_with v (list ++ body ∷ []) ≡ shown_with v list }
    ensures added { (v : LogView) (list : List Text) (entry key : Text) → IsShort entry
        → IsShort key → 1 ≤ v.size → v.size ≡ length (recorded_items list)
        → shown_with (record v { size = v.size + 1 }) (list ++ entry_record entry key ∷ [])
        ≡ with_item entry key (shown_with v list) }
    ensures batched { (v : LogView) (list : List Text) (items : List (Text × Text))
        → CanBeBatch items → 1 ≤ v.size → v.size ≡ length (recorded_items list)
        → shown_with (record v { size = v.size + length items }) (list ++ batch_record items ∷ [])
        ≡ with_items items (shown_with v list) }
    ensures marked { (list : List Text) (size : ℕ) → 1 ≤ length (recorded_items list)
        → recorded_items (list ++ landmark_record size ∷ []) ≡ recorded_items list }
    ensures tiled { (list : List Text) (size : ℕ) → 1 ≤ length (recorded_items list)
        → recorded_items (list ++ tiles_record size ∷ []) ≡ recorded_items list }
    ensures switched { (list : List Text) (size : ℕ) → 1 ≤ length (recorded_items list)
        → recorded_items (list ++ switch_record size ∷ []) ≡ recorded_items list }
{}

/// Records make a log exactly if the first one has settings, and the others may follow it: then the
/// log is the one that these make of the settings.
pub fn law_logs_begin_with_their_settings()
    ensures following { (h : HashFunction) (first : Text) (s : Settings) (bodies : List Text)
        → settings_in first ≡ Some s → log_of h (first ∷ bodies) ≡ log_after h s bodies }
    ensures only { (h : HashFunction) (list : List Text) (t : LogState) → log_of h list ≡ Ok t
        → (first : Text) × ((bodies : List Text) × ((list ≡ first ∷ bodies)
        × (settings_in first ≡ Some t.settings) × (log_after h t.settings bodies ≡ Ok t))) }
{}
