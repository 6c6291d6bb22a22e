//! The keys of a table.

ghost use Rattle.std.specs.Prelude.{◌≡◌, not, option_copied, option_map, string_bytes};
ghost use Rattle.std.specs.List.{find};
ghost use Rattle.std.specs.Map.{keys_of};
ghost use Rattle.toml.specs.Data.{get_member};
ghost use Rattle.toml.specs.View.{view, table_view};
ghost use Rattle.mon_settings.specs.Key.{key_name};
ghost use Rattle.mon_settings.specs.Keys.{first_unknown, is_one_of};

use crate::key::Key;
use toml::{Table, Value};

/// Returns the value at a key, if there is one.
pub fn find(table: &Table, key: Key) -> Option<&Value>
    ensures { option_map (λ v. view v.now) result
        ≡ get_member (key_name key) (table_view table.now) }
{
    table.get(key.name())
}

/// Returns `true` if a name is that of one of the keys.
pub fn is_one_of(name: &str, keys: &[Key]) -> bool
    ensures { result ≡ is_one_of keys.now name.now }
{
    for key in keys {
        if name == key.name() {
            return true;
        }
    }
    false
}

fn found<'t>(table: &'t Table, keys: &[Key]) -> Option<&'t String>
    ensures { option_copied result ≡ find (λ n. not (is_one_of keys.now (string_bytes n)))
        (keys_of table.now.entries) }
{
    table.keys().find(|name| !is_one_of(name.as_str(), keys))
}

/// Returns the first key of a table, in the order of its octets, that is none of these.
pub fn first_unknown<'t>(table: &'t Table, keys: &[Key]) -> Option<&'t String>
    ensures { option_map (λ n. string_bytes n.now) result ≡ first_unknown keys.now
        (table_view table.now) }
{
    found(table, keys)
}
