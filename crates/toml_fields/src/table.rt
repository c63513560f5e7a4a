//! The keys and the values of a table.

ghost use Rattle.std.specs.Prelude.{◌≡◌, map, option_map, string_bytes};
ghost use Rattle.std.specs.BTreeMap.{keys};
ghost use Rattle.std.specs.List.{list_all};
ghost use Rattle.toml.specs.Data.{get_member};
ghost use Rattle.toml.specs.View.{table_view, view};
ghost use Rattle.toml_fields.specs.Tree.{has_name, has_only};

use toml::{Table, Value};

/// The value at a key.
pub fn value_at<'a>(table: &'a Table, key: &str) -> Option<&'a Value>
    ensures { option_map (λ v. view v.now) result ≡ get_member key.now (table_view table.now) }
{
    table.get(key)
}

// The key is one of these names.
fn is_among(key: &str, names: &[&str]) -> bool
    ensures { result ≡ has_name (map (λ n. n.now) names.now) key.now }
{
    for name in names {
        if *name == key {
            return true;
        }
    }
    false
}

// Each key passes.
fn all_among(table: &Table, names: &[&str]) -> bool
    ensures { result
        ≡ list_all (λ k. has_name (map (λ n. n.now) names.now) (string_bytes k)) (keys table.now) }
{
    table.keys().all(|key| is_among(key.as_str(), names))
}

/// Each key of the table is one of these names.
pub fn keys_are_among(table: &Table, names: &[&str]) -> bool
    ensures { result ≡ has_only (map (λ n. n.now) names.now) (table_view table.now) }
{
    all_among(table, names)
}
