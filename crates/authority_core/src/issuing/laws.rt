//! Laws of what is issued: the clauses are the laws, and the functions do nothing.

ghost use Rattle.std.specs.Prelude.{◌≡◌, ◌+◌, ◌<◌, ◌≤◌, ℕ, true, false, List, [], ◌∷◌, ◌++◌};
ghost use Rattle.std.specs.Prelude.{length, slice_index_or, Some, Ok};
ghost use Rattle.byte_formats.specs.Types.{HashFunction, Text};
ghost use Rattle.tls_wire.specs.Arcs.{IsAnchorId};
ghost use Rattle.tls_wire.specs.Anchors.{text_of};
ghost use Rattle.cert_names.specs.LogNames.{log_in};
ghost use Rattle.cert_fields.specs.Extensions.{dns_names_in, has_unknown_critical};
ghost use Rattle.log_entry.specs.Entries.{TbsParts};
ghost use Rattle.log_entry.specs.Forms.{form_of};
ghost use Rattle.log_entry.specs.Matching.{has_form, matches};
ghost use Rattle.log_entry.specs.declared.entry.Form.{Form};
ghost use Rattle.log_entry.specs.Reading.{entry_in};
ghost use Rattle.std.specs.List.{AllByRecursion};
ghost use Rattle.issuance_log.specs.Batches.{fitting, has_large, most_listed};
ghost use Rattle.issuance_log.specs.Folds.{LogState, log_of, view_in, with_item, with_items};
ghost use Rattle.issuance_log.specs.Settings.{most_item};
ghost use Rattle.issuance_log.specs.Sound.{IsSound};
ghost use Rattle.policy_core.specs.Judgement.{form_by};
ghost use Rattle.policy_core.specs.declared.store.Store.{Store};
ghost use Rattle.authority_core.specs.Acceptance.{IsOwnEntry};
ghost use Rattle.authority_core.specs.Issues.{issued_batch, issued_entry, issued_items};
ghost use Rattle.authority_core.specs.Issues.{issued_record};
ghost use Rattle.authority_core.specs.Issuing.{entry_for, tbs_for};
ghost use Rattle.authority_core.specs.Requests.{CanBeIssued, RequestParts};

/// The entry of a request, in either form, is read as its fields; its issuer names the log, its
/// names are those of the request in their order, it has no critical extension that is unknown, the
/// key of the request belongs to it, and it has its form. So stores that are set up for the log
/// accept its certificates.
pub fn law_entries_say_what_was_asked()
    ensures read { (h : HashFunction) (form : Form) (id : Text) (r : RequestParts)
        → ((bytes : Text) → length (h bytes) ≡ 32) → IsAnchorId id → CanBeIssued r
        → entry_in (entry_for h form id r) ≡ Ok (Some (tbs_for h form id r)) }
    ensures belongs { (h : HashFunction) (form : Form) (id : Text) (r : RequestParts)
        → ((bytes : Text) → length (h bytes) ≡ 32) → IsAnchorId id → CanBeIssued r
        → matches h (entry_for h form id r) r.key ≡ true }
    ensures form { (h : HashFunction) (form : Form) (id : Text) (r : RequestParts)
        → ((bytes : Text) → length (h bytes) ≡ 32) → IsAnchorId id → CanBeIssued r
        → has_form form (entry_for h form id r) ≡ true }
    ensures issuer { (h : HashFunction) (form : Form) (id : Text) (r : RequestParts) → IsAnchorId id
        → log_in (tbs_for h form id r).issuer ≡ Some (text_of id) }
    ensures names { (h : HashFunction) (form : Form) (id : Text) (r : RequestParts) → CanBeIssued r
        → dns_names_in (tbs_for h form id r).extensions ≡ r.names }
    ensures known { (h : HashFunction) (form : Form) (id : Text) (r : RequestParts) → CanBeIssued r
        → has_unknown_critical (tbs_for h form id r).extensions ≡ false }
    ensures own { (h : HashFunction) (form : Form) (id : Text) (r : RequestParts)
        → ((bytes : Text) → length (h bytes) ≡ 32) → IsAnchorId id → CanBeIssued r
        → IsOwnEntry id (entry_for h form id r) }
{}

/// The record of what is issued follows the rules of a log's journal. After records that make a log
/// which has capacity, it makes that log with the entry and its key, if these are within the limit
/// for both together.
pub fn law_issued_entries_keep_to_the_rules()
    ensures { (h : HashFunction) (list : List Text) (s : LogState) (r : RequestParts)
        → ((bytes : Text) → length (h bytes) ≡ 32) → IsAnchorId s.settings.id → CanBeIssued r
        → log_of h list ≡ Ok s → length s.entries < s.settings.limit
        → length (issued_entry h (view_in s) r) + length r.key ≤ most_item
        → log_of h (list ++ issued_record h (view_in s) r ∷ [])
        ≡ Ok (with_item (issued_entry h (view_in s) r) r.key s) }
{}

/// The one record of what is issued for several requests follows the rules too. After records that
/// make a log which has capacity for all of them, it makes that log with their entries and keys in
/// their order, if they fit one record and no entry and key are too large together.
pub fn law_issued_lists_keep_to_the_rules()
    ensures { (h : HashFunction) (list : List Text) (s : LogState) (rs : List RequestParts)
        → ((bytes : Text) → length (h bytes) ≡ 32) → IsAnchorId s.settings.id
        → AllByRecursion CanBeIssued rs → 1 ≤ length rs
        → log_of h list ≡ Ok s → length s.entries + length rs ≤ s.settings.limit
        → fitting most_listed (issued_items h (view_in s) rs) ≡ length rs
        → has_large (issued_items h (view_in s) rs) ≡ false
        → log_of h (list ++ issued_batch h (view_in s) rs ∷ [])
        ≡ Ok (with_items (issued_items h (view_in s) rs) s) }
{}

/// A store that has the index at which the log was switched, or none if it wasn't, gives each entry
/// of type 1 in the log the form that it has. So the form is no further condition on a store that
/// follows the log.
pub fn law_stores_that_follow_the_log_give_its_forms()
    ensures { (h : HashFunction) (s : LogState) (store : Store) (index : ℕ) (fields : TbsParts)
        → IsSound h s → store.algorithm_from ≡ s.switched → 1 ≤ index → index < length s.entries
        → entry_in (slice_index_or s.entries index []) ≡ Ok (Some fields)
        → form_by store index ≡ form_of fields }
{}
