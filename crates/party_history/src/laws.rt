//! Laws of histories: the clauses are the laws, and the functions do nothing.

ghost use Rattle.std.specs.Prelude.{◌≡◌, ℕ, ◌+◌, true, List, [], ◌∷◌, ◌++◌, length, slice_get};
ghost use Rattle.std.specs.Prelude.{Some, IfSome, Contains, Ok};
ghost use Rattle.byte_formats.specs.Types.{HashFunction, Text};
ghost use Rattle.cosigner_core.specs.declared.settings.CosignerSettings.{CosignerSettings};
ghost use Rattle.journal_core.specs.Format.{Represents};
ghost use Rattle.file_events.specs.Histories.{ReachesAll, TakesSteps};
ghost use Rattle.issuance_log.specs.Folds.{LogState, log_of};
ghost use Rattle.issuance_log.specs.Records.{added_items, item_in, switch_record};
ghost use Rattle.file_events.specs.Executions.{IsPrefix};
ghost use Rattle.mirror_core.specs.Folds.{MirrorState, mirror_of};
ghost use Rattle.mirror_core.specs.Records.{mirrored_by};
ghost use Rattle.party_history.specs.Histories.{history_of, moved};
ghost use Rattle.party_history.specs.Journals.{Continues, HasHistory};
ghost use Rattle.party_history.specs.KeyUses.{UseKeysInOrder};
ghost use Rattle.party_history.specs.Laws.{HasGrown, HasItemAt, IsOfDurable, IsSoundParty};
ghost use Rattle.party_history.specs.Laws.{KeepsItems, KeepsMirroredItems, LeadsTo, WerePending};
ghost use Rattle.party_history.specs.Parties.{HistoryState, fresh_party, party_of_step};
ghost use Rattle.party_history.specs.Rules.{AreRecords, IsReadAs, StartsWith, may_follow as valid};
ghost use Rattle.party_history.specs.declared.start.PartyStart.{PartyStart};
ghost use Rattle.party_history.specs.declared.start.PartyStart.TheVariants.{Cosigner};
ghost use Rattle.party_history.specs.declared.step.PartyStep.{PartyStep};

/// In each state to which a history leads, the records of a party are valid with the pending one
/// and without it; each body is one that a step of the party began; and the numbers of the released
/// records rise strictly, each that of a durable record whose body a step began.
pub fn law_histories_keep_to_the_rules()
    ensures sound { (h : HashFunction) (starts : List PartyStart) (steps : List PartyStep)
        (place : ℕ)
        (s : HistoryState) → LeadsTo (valid h) starts steps place s → IsSoundParty (valid h) s }
    ensures was_pending { (h : HashFunction) (starts : List PartyStart) (steps : List PartyStep)
        (place : ℕ)
        (s : HistoryState) → LeadsTo (valid h) starts steps place s → WerePending steps place s }
    ensures released { (h : HashFunction) (starts : List PartyStart) (steps : List PartyStep)
        (place : ℕ) (s : HistoryState) → LeadsTo (valid h) starts steps place s
        → (number : ℕ) → Contains s.released number → IsOfDurable steps place s number }
{}

/// What is durable at an earlier time is a prefix of what is durable at each later one, and so are
/// the numbers of the released records. A party is as it began.
pub fn law_states_only_grow()
    ensures grown { (h : HashFunction) (starts : List PartyStart) (earlier later : List PartyStep)
        (place : ℕ) (old : HistoryState) (news : List HistoryState)
        → LeadsTo (valid h) starts earlier place old
        → history_of (valid h) starts (earlier ++ later) ≡ Ok news
        → (new : HistoryState) × ((slice_get news place ≡ Some new) × HasGrown old new) }
    ensures begins { (h : HashFunction) (starts : List PartyStart) (steps : List PartyStep)
        (place : ℕ) (s : HistoryState) → LeadsTo (valid h) starts steps place s
        → slice_get starts place ≡ Some s.start }
{}

/// A history begins with parties that have begun, and continues by each step that is allowed.
pub fn law_histories_continue()
    ensures begins { (h : HashFunction) (starts : List PartyStart) (place : ℕ) (start : PartyStart)
        → slice_get starts place ≡ Some start
        → LeadsTo (valid h) starts [] place (fresh_party start) }
    ensures on { (h : HashFunction) (starts : List PartyStart) (steps : List PartyStep) (place : ℕ)
        (s t : HistoryState) (step : PartyStep) → LeadsTo (valid h) starts steps place s
        → party_of_step step ≡ place → moved (valid h) s step ≡ Some t
        → LeadsTo (valid h) starts (steps ++ step ∷ []) place t }
{}

/// In no history two records of a cosigner use the same one-time key, the pending record among
/// them: the i-th Sign record, counted from 0, has the number i, and the c-th Child record has the
/// number c. With two levels, each Sign uses a key of a lower tree whose Child record is before it.
pub fn law_one_time_keys_are_used_once()
    ensures { (h : HashFunction) (starts : List PartyStart) (steps : List PartyStep) (place : ℕ)
        (s : HistoryState) (settings : CosignerSettings) (public : Text)
        → LeadsTo (valid h) starts steps place s → s.start ≡ Cosigner settings public
        → UseKeysInOrder settings s.durable
        × IfSome s.pending (λ body. UseKeysInOrder settings (s.durable ++ body ∷ [])) }
{}

/// Bodies may follow the first record of a party's journal exactly if a history may begin them, and
/// each file that represents such records is opened with them. Each journal of a log, a cosigner or
/// a mirror is that of a party.
pub fn law_journals_and_histories_agree()
    ensures start { (h : HashFunction) (first : Text) (bodies : List Text)
        → AreRecords h (first ∷ bodies) → (start : PartyStart) × StartsWith start first }
    ensures alone { (h : HashFunction) (start : PartyStart) → valid h start [] ≡ true }
    ensures agree { (h : HashFunction) (start : PartyStart) (first : Text) (bodies : List Text)
        → StartsWith start first → AreRecords h (first ∷ bodies) → valid h start bodies ≡ true }
    ensures back { (h : HashFunction) (start : PartyStart) (first : Text) (bodies : List Text)
        → StartsWith start first → valid h start bodies ≡ true → AreRecords h (first ∷ bodies) }
    ensures read { (h : HashFunction) (start : PartyStart) (first : Text) (bodies : List Text)
        (bytes : Text) → StartsWith start first → valid h start bodies ≡ true
        → Represents bytes (first ∷ bodies) → IsReadAs h start bytes (first ∷ bodies) }
{}

/// What runs and stops do to a journal are steps of its party: after a stop a pending record is
/// durable or gone; and if none is pending, a record that is valid with the others becomes pending,
/// durable, and released. So each history that led to the journal continues. Whatever valid records
/// there are, each party that begins with the first of them has a history in which they are durable
/// and none is released.
pub fn law_journals_have_histories()
    ensures on { (h : HashFunction) (starts : List PartyStart) (place : ℕ) (start : PartyStart)
        (first : Text) (steps : List PartyStep) → slice_get starts place ≡ Some start
        → StartsWith start first
        → TakesSteps (AreRecords h) (Continues h starts place first steps) }
    ensures steps { (h : HashFunction) → TakesSteps (AreRecords h) (HasHistory h) }
    ensures reaches { (h : HashFunction) → ReachesAll (AreRecords h) (HasHistory h) }
{}

/// The entries of a log and their keys keep their indices, whatever records follow its own. The
/// item of a record is the next one after those of the records before it, and of a record that adds
/// several each is the next one after those before it.
pub fn law_logs_keep_their_items()
    ensures added { (h : HashFunction) (list : List Text) (body : Text) (more : List Text)
        (entry key : Text) (s t : LogState) → log_of h list ≡ Ok s
        → item_in body ≡ Some (entry, key) → log_of h ((list ++ body ∷ []) ++ more) ≡ Ok t
        → HasItemAt (length s.entries) entry key t }
    ensures each { (h : HashFunction) (list : List Text) (body : Text) (more : List Text) (i : ℕ)
        (entry key : Text) (s t : LogState) → log_of h list ≡ Ok s
        → slice_get (added_items body) i ≡ Some (entry, key)
        → log_of h ((list ++ body ∷ []) ++ more) ≡ Ok t
        → HasItemAt (length s.entries + i) entry key t }
    ensures kept { (h : HashFunction) (list more : List Text) (s t : LogState)
        → log_of h list ≡ Ok s → log_of h (list ++ more) ≡ Ok t → KeepsItems s t }
{}

/// A Switch that a log takes makes it one that was switched, at its size. It stays so, at the same
/// index, whatever records follow.
pub fn law_logs_stay_switched()
    ensures added { (h : HashFunction) (list more : List Text) (size : ℕ) (s t : LogState)
        → log_of h list ≡ Ok s → log_of h ((list ++ switch_record size ∷ []) ++ more) ≡ Ok t
        → t.switched ≡ Some (length s.entries) }
    ensures kept { (h : HashFunction) (list more : List Text) (s t : LogState) (index : ℕ)
        → log_of h list ≡ Ok s → log_of h (list ++ more) ≡ Ok t → s.switched ≡ Some index
        → t.switched ≡ Some index }
{}

/// A mirror keeps its log and its items, at their indices, whatever records follow its own. The
/// items of a Batch stand right after those of the records before it, in their order.
pub fn law_mirrors_keep_their_items()
    ensures added { (h : HashFunction) (list : List Text) (body : Text) (more : List Text)
        (s t : MirrorState) → mirror_of h list ≡ Ok s
        → mirror_of h ((list ++ body ∷ []) ++ more) ≡ Ok t
        → IsPrefix (s.items ++ mirrored_by body) t.items }
    ensures kept { (h : HashFunction) (list more : List Text) (s t : MirrorState)
        → mirror_of h list ≡ Ok s → mirror_of h (list ++ more) ≡ Ok t → KeepsMirroredItems s t }
{}
