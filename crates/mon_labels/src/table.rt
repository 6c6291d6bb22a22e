//! What the keys of a table give.

ghost use Rattle.std.specs.Prelude.{◌≡◌, IfErr, IfOk, None, Some, not, option_copied, option_map, string_bytes};
ghost use Rattle.std.specs.List.{find};
ghost use Rattle.std.specs.Map.{keys_of};
ghost use Rattle.toml.specs.Data.{as_str, get_member};
ghost use Rattle.toml.specs.View.{view, table_view};
ghost use Rattle.mon_labels.specs.Key.{key_name};
ghost use Rattle.mon_labels.specs.Table.{Reads, engine_in, first_unknown, index_in, is_one_of, needed_at, only, optional_at, speed_in};

use crate::fault::{LabelsFault, Place, Read};
use crate::key::Key;
use hex::FromHexError;
use std::alloc::Global;
use toml::{Table, Value};

/// A table that is read, where it is, and the memory for what it gives.
#[derive(Clone, Copy)]
pub(crate) struct Reader<'t> {
    pub(crate) alloc: Global,
    pub(crate) place: Place,
    pub(crate) table: &'t Table,
}

/// Returns the value at a key, if there is one.
pub(crate) fn find(table: &Table, key: Key) -> Option<&Value>
    ensures { option_map (λ v. view v.now) result
        ≡ get_member (key_name key) (table_view table.now) }
{
    table.get(key.name())
}

/// Returns `true` if a name is that of one of the keys.
fn is_one_of(name: &str, keys: &[Key]) -> bool
    ensures { result ≡ is_one_of keys.now name.now }
{
    for key in keys {
        if name == key.name() {
            return true;
        }
    }
    false
}

fn found<'t>(table: &'t Table, keys: &[Key]) -> Option<&'t String>
    ensures { option_copied result ≡ find (λ n. not (is_one_of keys.now (string_bytes n)))
        (keys_of table.now.entries) }
{
    table.keys().find(|name| !is_one_of(name.as_str(), keys))
}

/// Returns the first key of a table, in the order of its octets, that is none of these.
fn first_unknown<'t>(table: &'t Table, keys: &[Key]) -> Option<&'t String>
    ensures { option_map (λ n. string_bytes n.now) result ≡ first_unknown keys.now
        (table_view table.now) }
{
    found(table, keys)
}

impl<'t> Reader<'t> {
    /// Refuses a table that has a key besides these.
    #[tactic(auto, unfolding(crate::specs::Table::only))]
    pub(crate) fn only(&self, keys: &[Key]) -> Read<()>
        ensures { result ≡ only self.now.place keys.now (table_view self.now.table.now) }
    {
        match first_unknown(self.table, keys) {
            Some(_) => Err(LabelsFault::UnknownKey(self.place)),
            None => Ok(()),
        }
    }

    /// Returns the fault of a bad value at a key.
    fn bad(&self, key: Key) -> LabelsFault
        ensures { result ≡ LabelsFault.BadValue self.now.place key }
    {
        LabelsFault::BadValue(self.place, key)
    }

    /// Returns the value at a key, which must be there.
    fn need(&self, key: Key) -> Read<&'t Value>
        ensures there { IfOk result (λ v. get_member (key_name key) (table_view self.now.table.now)
            ≡ Some (view v.now)) }
        ensures missing { IfErr result (λ e. (get_member (key_name key)
            (table_view self.now.table.now) ≡ None)
            × (e ≡ LabelsFault.Missing self.now.place key)) }
    {
        find(self.table, key).ok_or(LabelsFault::Missing(self.place, key))
    }

    /// Returns the ifIndex.
    pub(crate) fn index(&self) -> Read<u32>
        ensures { result ≡ needed_at self.now.place Key.Index index_in
            (table_view self.now.table.now) }
    {
        index_in(self.need(Key::Index)?).ok_or(self.bad(Key::Index))
    }

    /// Returns the octets of the engine id.
    pub(crate) fn engine(&self) -> Read<Vec<u8>>
        ensures { Reads (λ v. v.items) (needed_at self.now.place Key.Engine engine_in
            (table_view self.now.table.now)) result }
    {
        let Some(text) = self.need(Key::Engine)?.as_str() else {
            return Err(self.bad(Key::Engine));
        };
        match hex::decode(self.alloc, text) {
            Ok(octets) if 5 <= octets.len() && octets.len() <= 32 => Ok(octets),
            Ok(_) => Err(self.bad(Key::Engine)),
            Err(FromHexError::OutOfMemory) => Err(LabelsFault::OutOfMemory),
            Err(_) => Err(self.bad(Key::Engine)),
        }
    }

    /// Returns the speed, or nothing if the key is left out.
    pub(crate) fn speed(&self) -> Read<Option<u64>>
        ensures { result ≡ optional_at self.now.place Key.Speed speed_in
            (table_view self.now.table.now) }
    {
        match find(self.table, Key::Speed) {
            Some(value) => match speed_in(value) {
                Some(speed) => Ok(Some(speed)),
                None => Err(self.bad(Key::Speed)),
            },
            None => Ok(None),
        }
    }

    /// Returns the text at a key, or nothing if the key is left out.
    pub(crate) fn text(&self, key: Key) -> Read<Option<String>>
        ensures { Reads (option_map string_bytes) (optional_at self.now.place key as_str
            (table_view self.now.table.now)) result }
    {
        match find(self.table, key) {
            Some(value) => match value.as_str() {
                Some(text) => Ok(Some(String::from_str(self.alloc, text)?)),
                None => Err(self.bad(key)),
            },
            None => Ok(None),
        }
    }
}

/// Returns the speed in bits a second that a value is.
fn speed_in(value: &Value) -> Option<u64>
    ensures { result ≡ speed_in (view value.now) }
{
    match u64::try_from(value.as_integer()?) {
        Ok(speed) if 1 <= speed => Some(speed),
        _ => None,
    }
}

/// Returns the ifIndex that a value is.
fn index_in(value: &Value) -> Option<u32>
    ensures { result ≡ index_in (view value.now) }
{
    match u32::try_from(value.as_integer()?) {
        Ok(index) if 1 <= index && index <= 2_147_483_647 => Some(index),
        _ => None,
    }
}
