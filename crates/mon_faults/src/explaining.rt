//! A fault of a settings text, explained for who wrote it.

use crate::line_column::{LineColumn, line_column_at};
use crate::unknown::{is_of_other, known_keys, unknown_key};
use mon_settings::{Key, Place, SettingsFault, SettingsKind};
use std::alloc::{AllocError, Global};

/// The names of keys, with commas between them.
fn list_keys(alloc: Global, keys: &[Key]) -> Result<String, AllocError> {
    let mut names = String::new(alloc);
    for key in keys {
        if !names.is_empty() {
            names.push_str(", ")?;
        }
        names.push_str(key.name())?;
    }
    Ok(names)
}

/// Says which key is unknown, whose it is where it is one of settings of the other kind, and which
/// keys are known.
fn unknown(
    alloc: Global,
    text: &str,
    kind: SettingsKind,
    place: Place,
) -> Result<String, AllocError> {
    let keys = list_keys(alloc, known_keys(kind, place))?;
    match unknown_key(alloc, text, kind, place)? {
        Some(name) => {
            let whose = match (is_of_other(kind, place, &name), kind) {
                (false, _) => "",
                (true, SettingsKind::Agent) => ", but a station's",
                (true, SettingsKind::Station) => ", but an agent's",
            };
            format!(in alloc; "{place}: {name:?} is no key here{whose}; the keys are {keys}")
        }
        None => format!(in alloc; "{place}: a key is unknown; the keys are {keys}"),
    }
}

/// Says what is wrong with a text that is refused as settings of this kind for this fault, and
/// where, in one line without its end: `access[2].model: 0 or 2 is wanted`; of an unknown key its
/// name and those that are known; of what is not TOML the line and column.
/// The text is read again if a key is unknown.
///
/// # Errors
/// Out of memory.
pub fn explain(
    alloc: Global,
    fault: SettingsFault,
    kind: SettingsKind,
    text: &str,
) -> Result<String, AllocError> {
    match fault {
        SettingsFault::NotToml(from) => {
            let LineColumn { line, column } = line_column_at(text, from);
            format!(in alloc; "line {line}, column {column}: the text is not TOML from here on")
        }
        SettingsFault::UnknownKey(place) => unknown(alloc, text, kind, place),
        _ => format!(in alloc; "{fault}"),
    }
}
