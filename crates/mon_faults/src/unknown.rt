//! Which key of a table is unknown.

ghost use Rattle.std.specs.Prelude.{◌≡◌, IfOk, option_and_then, option_map, string_bytes};
ghost use Rattle.mon_faults.specs.Unknown.{is_of_other, known_keys, table_at, table_of, unknown_at};
ghost use Rattle.toml.specs.Parse.{parse_document};
ghost use Rattle.toml.specs.View.{table_view};

use mon_settings::{
    Key, PathPart, Place, SettingsKind, find, first_unknown, is_one_of, table_keys, top_keys,
};
use std::alloc::{AllocError, Global};
use toml::Table;

/// Returns the table to which a step leads. The first entry of a list is 1.
fn table_of(table: &Table, step: PathPart) -> Option<&Table>
    ensures { option_map (λ t. table_view t.now) result ≡ table_of step (table_view table.now) }
{
    let value = match step {
        PathPart::Value(key) => find(table, key)?,
        PathPart::Entry(key, number) => find(table, key)?.get(number.checked_sub(1)?)?,
    };
    value.as_table()
}

/// Returns the table at a place.
fn table_at(tree: &Table, place: Place) -> Option<&Table>
    ensures { option_map (λ t. table_view t.now) result ≡ table_at place (table_view tree.now) }
{
    match place {
        Place::Whole => Some(tree),
        Place::At(last) => table_of(tree, last),
        Place::In(first, last) => table_of(table_of(tree, first)?, last),
        Place::Inside(first, second, last) => {
            table_of(table_of(table_of(tree, first)?, second)?, last)
        }
    }
}

/// Returns the keys that the table at a place may have, and none for a place of which the settings
/// have no table.
pub(crate) fn known_keys(kind: SettingsKind, place: Place) -> &'static [Key]
    ensures { result.now ≡ known_keys kind place }
{
    match place {
        Place::Whole => top_keys(kind),
        Place::At(last) | Place::In(_, last) | Place::Inside(_, _, last) => match last {
            PathPart::Value(key) | PathPart::Entry(key, _) => table_keys(key),
        },
    }
}

/// Returns `true` if a name at this place is a key of the settings of the other kind: so are the
/// keys of an agent's file where a station's is read.
pub(crate) fn is_of_other(kind: SettingsKind, place: Place, name: &str) -> bool
    ensures { result ≡ is_of_other kind place name.now }
{
    let other = match kind {
        SettingsKind::Agent => SettingsKind::Station,
        SettingsKind::Station => SettingsKind::Agent,
    };
    matches!(place, Place::Whole) && is_one_of(name, top_keys(other))
}

/// Returns which key of the table at a place is unknown: the first, in the order of octets, that is
/// none of `known_keys`; None if the text is not TOML, has no table at this place or no unknown key
/// in it. The place is that of an `UnknownKey` of `read_agent` or `read_station`.
///
/// # Errors
/// Out of memory.
pub(crate) fn unknown_key(
    alloc: Global,
    text: &str,
    kind: SettingsKind,
    place: Place,
) -> Result<Option<String>, AllocError>
    ensures { IfOk result (λ o. option_map string_bytes o ≡ option_and_then (unknown_at kind place)
        (parse_document text.now)) }
{
    let tree = match toml::table_from_str(alloc, text) {
        Ok(tree) => tree,
        Err(error) if error.is_memory() => return Err(AllocError),
        Err(_) => return Ok(None),
    };
    let Some(table) = table_at(&tree, place) else {
        return Ok(None);
    };
    match first_unknown(table, known_keys(kind, place)) {
        Some(name) => Ok(Some(String::from_str(alloc, name.as_str())?)),
        None => Ok(None),
    }
}
