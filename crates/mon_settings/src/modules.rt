//! The module files that settings name.

ghost use Rattle.std.specs.Prelude.{[], IfErr, map, string_bytes};
ghost use Rattle.mon_settings.specs.Accepted.{HoldsOr};
ghost use Rattle.mon_settings.specs.Keys.{Reads, or_bad};
ghost use Rattle.mon_settings.specs.Leaf.{text_in, texts_in, texts_of};
ghost use Rattle.mon_settings.specs.Station.{modules_at};
ghost use Rattle.mon_settings.specs.Text.{IsReadAs, IsRefusal, Says};
ghost use Rattle.toml.specs.View.{view, table_view, items_view};

use crate::fault::{Read, SettingsFault, given};
use crate::key::Key;
use crate::keys::find;
use crate::leaf::{Reader, text_in};
use crate::list::list_between;
use crate::text::tree;
use std::alloc::Global;
use toml::Value;

fn text_of(alloc: Global, value: &Value) -> Read<String>
    ensures { Reads (λ s. string_bytes s) (or_bad Key.Modules (text_in 0 4095 (view value.now)))
        result }
{
    match text_in(value, 0, 4095) {
        Some(text) => Ok(String::from_str(alloc, text)?),
        None => Err(SettingsFault::bad(Key::Modules)),
    }
}

fn texts_of(alloc: Global, values: &[Value]) -> Read<Vec<String>>
    ensures { Reads (λ v. map string_bytes v.items) (or_bad Key.Modules
        (texts_of (items_view values.now))) result }
{
    let mut texts = Vec::new(alloc);
    for value in values {
        let text = given!(text_of(alloc, value));
        texts.push(text)?;
    }
    Ok(texts)
}

/// The module files, none where the key is left out.
pub(crate) fn modules_at(reader: &Reader<'_>) -> Read<Vec<String>>
    ensures { Reads (λ v. map string_bytes v.items) (modules_at (table_view reader.now.table.now))
        result }
{
    let Some(value) = find(reader.table, Key::Modules) else {
        return Ok(Vec::new(reader.alloc));
    };
    match list_between(value, 0, 256) {
        Some(values) => texts_of(reader.alloc, values),
        None => Err(SettingsFault::bad(Key::Modules)),
    }
}

/// The module files that a text in TOML 1.1 names by its key `modules`, at most 256 of at most 4095
/// octets each, and none where the key is missing. Other keys are not looked at.
///
/// # Errors
/// `NotToml`; `BadValue` of `modules`; `OutOfMemory`.
pub fn module_files(alloc: Global, text: &str) -> Result<Vec<String>, SettingsFault>
    ensures accepted { IsReadAs (λ v. map string_bytes v.items)
        (Says (HoldsOr Key.Modules [] texts_in) text.now) result }
    ensures refused { IfErr result (IsRefusal modules_at text.now) }
{
    match tree(alloc, text) {
        Ok(table) => modules_at(&Reader {
            alloc,
            table: &table,
        }),
        Err(fault) => Err(fault),
    }
}
