//! What the keys of a table give.

ghost use Rattle.std.specs.Prelude.{◌≡◌, ◌≢◌, ◌<◌, ◌≤◌, ◌^◌, [], IfOk, IfSome, option_map, Err};
ghost use Rattle.toml.specs.Data.{as_bool, as_integer};
ghost use Rattle.toml.specs.View.{view, table_view};
ghost use Rattle.mon_settings.specs.Keys.{needed_at, default_at, only, optional_at, Reads};
ghost use Rattle.mon_settings.specs.Leaf.{number_in, int_in, text_in, hex_in, oid_in, refuse, addr_in, model_of, model_in};
ghost use Rattle.mon_settings.specs.Resolving.{resolution, or_unknown, unresolved, name_at, name_or_none};

use crate::fault::{Read, SettingsFault, given};
use crate::key::Key;
use crate::keys::{find, first_unknown};
use crate::label::Label;
use crate::place::{PathPart, Place};
use hex::FromHexError;
use mon_ber::Octets;
use mon_oid::{Oid, OidFault};
use mon_smi::{Names, NamesFault};
use mon_udp::Addr;
use mon_vacm::SecurityModel;
use std::alloc::Global;
use toml::{Table, Value};

/// A table that is read, and the memory for what it gives.
#[derive(Clone, Copy)]
pub(crate) struct Reader<'t> {
    pub(crate) alloc: Global,
    pub(crate) table: &'t Table,
}

impl<'t> Reader<'t> {
    /// Refuses a table that has a key besides these.
    #[tactic(auto, unfolding(crate::specs::Keys::only))]
    pub(crate) fn only(&self, keys: &[Key]) -> Read<()>
        ensures { result ≡ only keys.now (table_view self.now.table.now) }
    {
        match first_unknown(self.table, keys) {
            Some(_) => Err(SettingsFault::UnknownKey(Place::Whole)),
            None => Ok(()),
        }
    }

    /// The number at a key, from least to most.
    pub(crate) fn number(&self, key: Key, least: u64, most: u64) -> Read<u64>
        ensures value { result ≡ needed_at key (number_in least most)
            (table_view self.now.table.now) }
        ensures great { IfOk result (λ n. least ≤ n) }
        ensures small { IfOk result (λ n. n ≤ most) }
    {
        match find(self.table, key) {
            Some(value) => number_in(value, least, most).ok_or(SettingsFault::bad(key)),
            None => Err(SettingsFault::missing(key)),
        }
    }

    /// Returns the number at a key, from 1 to most, or another number if the key is left out.
    pub(crate) fn size_or(&self, key: Key, default: usize, most: usize) -> Read<usize>
        ensures { result ≡ default_at key default (number_in 1 most)
            (table_view self.now.table.now) }
    {
        match find(self.table, key) {
            Some(_) => Ok(given!(self.number(key, 1, most as u64)) as usize),
            None => Ok(default),
        }
    }

    /// The number at a key, from least to most, as a signed one.
    pub(crate) fn int(&self, key: Key, least: u64, most: u64) -> Read<i32>
        requires { most < 2 ^ 31 }
        ensures { result ≡ needed_at key (int_in least most) (table_view self.now.table.now) }
    {
        let Some(value) = find(self.table, key) else {
            return Err(SettingsFault::missing(key));
        };
        match number_in(value, least, most) {
            Some(number) => Ok(number as i32),
            None => Err(SettingsFault::bad(key)),
        }
    }

    /// Returns the signed number at a key, or another number if the key is left out.
    pub(crate) fn int_or(&self, key: Key, default: i32, least: u64, most: u64) -> Read<i32>
        requires { most < 2 ^ 31 }
        ensures { result ≡ default_at key default (int_in least most)
            (table_view self.now.table.now) }
    {
        match find(self.table, key) {
            Some(_) => self.int(key, least, most),
            None => Ok(default),
        }
    }

    /// The integer at a key, whichever.
    pub(crate) fn long(&self, key: Key) -> Read<i64>
        ensures { result ≡ needed_at key as_integer (table_view self.now.table.now) }
    {
        match find(self.table, key) {
            Some(value) => value.as_integer().ok_or(SettingsFault::bad(key)),
            None => Err(SettingsFault::missing(key)),
        }
    }

    /// The truth value at a key.
    pub(crate) fn truth(&self, key: Key) -> Read<bool>
        ensures { result ≡ needed_at key as_bool (table_view self.now.table.now) }
    {
        match find(self.table, key) {
            Some(value) => value.as_bool().ok_or(SettingsFault::bad(key)),
            None => Err(SettingsFault::missing(key)),
        }
    }

    /// The address at a key.
    pub(crate) fn addr(&self, key: Key) -> Read<Addr>
        ensures { result ≡ needed_at key addr_in (table_view self.now.table.now) }
    {
        match find(self.table, key) {
            Some(value) => {
                let text = value.as_str();
                text.and_then(Addr::parse).ok_or(SettingsFault::bad(key))
            }
            None => Err(SettingsFault::missing(key)),
        }
    }

    /// The security model at a key.
    pub(crate) fn model(&self, key: Key) -> Read<SecurityModel>
        ensures { result ≡ needed_at key model_in (table_view self.now.table.now) }
    {
        match find(self.table, key) {
            Some(value) => {
                let number = value.as_integer();
                number.and_then(model_of).ok_or(SettingsFault::bad(key))
            }
            None => Err(SettingsFault::missing(key)),
        }
    }

    /// The text at a key, of least to most octets.
    pub(crate) fn text(&self, key: Key, least: usize, most: usize) -> Read<&'t str>
        ensures gives { Reads (λ s. s.now) (needed_at key (text_in least most)
            (table_view self.now.table.now)) result }
        ensures no_memory { result ≢ Err SettingsFault.OutOfMemory }
    {
        match find(self.table, key) {
            Some(value) => text_in(value, least, most).ok_or(SettingsFault::bad(key)),
            None => Err(SettingsFault::missing(key)),
        }
    }

    /// The octets of the text at a key, least to most of them.
    pub(crate) fn octets(&self, key: Key, least: usize, most: usize) -> Read<Octets>
        ensures { Reads (λ o. o) (needed_at key (text_in least most)
            (table_view self.now.table.now)) result }
    {
        let text = given!(self.text(key, least, most));
        Ok(Octets::from_slice(self.alloc, text.as_bytes())?)
    }

    /// The name at a key, of 1 to this many octets, or nothing where the key is left out.
    pub(crate) fn name_or_none(&self, key: Key, most: usize) -> Read<Option<Octets>>
        ensures { Reads (λ o. o) (optional_at key (text_in 1 most) (table_view self.now.table.now))
            result }
    {
        match find(self.table, key) {
            Some(value) => match text_in(value, 1, most) {
                Some(text) => Ok(Some(Octets::from_slice(self.alloc, text.as_bytes())?)),
                None => Err(SettingsFault::bad(key)),
            },
            None => Ok(None),
        }
    }

    /// Returns the label, a text of 1 to 64 octets, or nothing if the key is left out.
    pub(crate) fn label(&self) -> Read<Option<Label>>
        ensures { Reads (λ o. o) (optional_at Key.Label (text_in 1 64)
            (table_view self.now.table.now)) result }
    {
        match find(self.table, Key::Label) {
            Some(value) => match text_in(value, 1, 64) {
                Some(text) => Ok(Some(Label::from_str(self.alloc, text)?)),
                None => Err(SettingsFault::bad(Key::Label)),
            },
            None => Ok(None),
        }
    }

    /// The octets of the hex text at a key, least to most of them.
    pub(crate) fn hex(&self, key: Key, least: usize, most: usize) -> Read<Octets>
        ensures { Reads (λ o. o) (needed_at key (hex_in least most) (table_view self.now.table.now))
            result }
    {
        let Some(value) = find(self.table, key) else {
            return Err(SettingsFault::missing(key));
        };
        let Some(text) = value.as_str() else {
            return Err(SettingsFault::bad(key));
        };
        match hex::decode(self.alloc, text) {
            Ok(octets) if least <= octets.len() && octets.len() <= most => Ok(Octets::new(octets)),
            Ok(_) => Err(SettingsFault::bad(key)),
            Err(FromHexError::OutOfMemory) => Err(SettingsFault::OutOfMemory),
            Err(_) => Err(SettingsFault::bad(key)),
        }
    }

    /// Returns the octets of the hex text at a key, at most this many, or none if the key is left
    /// out.
    pub(crate) fn hex_or_none(&self, key: Key, most: usize) -> Read<Octets>
        ensures { Reads (λ o. o) (default_at key [] (hex_in 0 most) (table_view self.now.table.now))
            result }
    {
        match find(self.table, key) {
            Some(_) => self.hex(key, 0, most),
            None => Ok(Octets::new(Vec::new(self.alloc))),
        }
    }

    /// The dotted object identifier at a key.
    #[tactic(auto, using(crate::proofs::Oids::oid_complete, crate::proofs::Oids::refused_is))]
    pub(crate) fn oid(&self, key: Key) -> Read<Oid>
        ensures { Reads (λ o. o) (needed_at key oid_in (table_view self.now.table.now)) result }
    {
        let Some(value) = find(self.table, key) else {
            return Err(SettingsFault::missing(key));
        };
        let Some(text) = value.as_str() else {
            return Err(SettingsFault::bad(key));
        };
        match Oid::parse(self.alloc, text) {
            Ok(oid) => Ok(oid),
            Err(fault) => Err(refuse(fault, key)),
        }
    }

    /// The identifier that a key names.
    #[tactic(auto, unfolding(crate::specs::Resolving::name_at))]
    pub(crate) fn object(&self, names: &Names, key: Key) -> Read<Oid>
        ensures { Reads (λ o. o) (name_at (resolution names.now) key
            (table_view self.now.table.now)) result }
    {
        let Some(value) = find(self.table, key) else {
            return Err(SettingsFault::missing(key));
        };
        match value.as_str() {
            Some(text) => resolve_name(self.alloc, names, key, text),
            None => Err(SettingsFault::bad(key)),
        }
    }

    /// The identifier that a key names, or nothing where the key is left out.
    #[tactic(auto, unfolding(crate::specs::Resolving::name_at, crate::specs::Resolving::name_in, crate::specs::Resolving::name_in_some))]
    pub(crate) fn object_or_none(&self, names: &Names, key: Key) -> Read<Option<Oid>>
        ensures { Reads (λ o. o) (name_or_none (resolution names.now) key
            (table_view self.now.table.now)) result }
    {
        match find(self.table, key) {
            Some(_) => Ok(Some(given!(self.object(names, key)))),
            None => Ok(None),
        }
    }
}

/// The number that a value is, from least to most.
fn number_in(value: &Value, least: u64, most: u64) -> Option<u64>
    ensures value { result ≡ number_in least most (view value.now) }
    ensures great { IfSome result (λ n. least ≤ n) }
    ensures small { IfSome result (λ n. n ≤ most) }
{
    match u64::try_from(value.as_integer()?) {
        Ok(n) if least <= n && n <= most => Some(n),
        _ => None,
    }
}

fn model_of(number: i64) -> Option<SecurityModel>
    ensures { result ≡ model_of number }
{
    match number {
        0 => Some(SecurityModel::Any),
        2 => Some(SecurityModel::V2c),
        _ => None,
    }
}

/// The text that a value is, of least to most octets.
pub(crate) fn text_in(value: &Value, least: usize, most: usize) -> Option<&str>
    ensures { option_map (λ s. s.now) result ≡ text_in least most (view value.now) }
{
    match value.as_str() {
        Some(text) if least <= text.len() && text.len() <= most => Some(text),
        _ => None,
    }
}

fn refuse(fault: OidFault, key: Key) -> SettingsFault
    ensures { result ≡ refuse key fault }
{
    match fault {
        OidFault::OutOfMemory => SettingsFault::OutOfMemory,
        _ => SettingsFault::bad(key),
    }
}

/// What the text at a key resolves to.
fn resolve_name(alloc: Global, names: &Names, key: Key, text: &str) -> Read<Oid>
    ensures { Reads (λ o. o) (or_unknown key (resolution names.now text.now)) result }
{
    crate::laws::resolving();
    match names.resolve(alloc, text) {
        Ok(oid) => Ok(oid),
        Err(fault) => Err(refuse_name(fault, key)),
    }
}

/// What a name at a key that does not resolve is to the settings.
fn refuse_name(fault: NamesFault, key: Key) -> SettingsFault
    ensures { result ≡ unresolved key fault }
{
    match fault {
        NamesFault::OutOfMemory => SettingsFault::OutOfMemory,
        _ => SettingsFault::UnknownObject(Place::At(PathPart::Value(key))),
    }
}
