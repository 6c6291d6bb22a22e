//! Labels, read from a text.

ghost use Rattle.std.specs.Prelude.{◌≡◌, [], IfErr, IfOk, map};
ghost use Rattle.toml.specs.View.{items_view, table_view, view};
ghost use Rattle.mon_labels.specs.Described.{described};
ghost use Rattle.mon_labels.specs.Reading.{IsRefusal, Says, entries, entry, entry_after, interface_of, labels_of, list_of, unless_twice};
ghost use Rattle.mon_labels.specs.Table.{Reads};

use crate::fault::{LabelsFault, Place, Read};
use crate::interface::{InterfaceLabels, is_there};
use crate::key::Key;
use crate::labels::Labels;
use crate::table::{Reader, find};
use std::alloc::Global;
use toml::{Table, Value};

/// The most interfaces of a text.
const MAX_INTERFACES: usize = 4096;

/// Reads an interface.
#[tactic(auto, unfolding(crate::specs::Reading::interface_of))]
fn read_interface(reader: &Reader<'_>) -> Read<InterfaceLabels>
    ensures { Reads described (interface_of reader.now.place (table_view reader.now.table.now))
        result }
{
    reader.only(&[
        Key::Engine,
        Key::Index,
        Key::IfName,
        Key::IfAlias,
        Key::Speed,
    ])?;
    let engine = reader.engine()?;
    let index = reader.index()?;
    let if_name = reader.text(Key::IfName)?;
    let if_alias = reader.text(Key::IfAlias)?;
    let speed = reader.speed()?;
    Ok(InterfaceLabels {
        engine,
        index,
        if_name,
        if_alias,
        speed,
    })
}

/// Reads the interface of this number in the list.
#[tactic(auto, unfolding(crate::specs::Reading::entry))]
fn read_entry(alloc: Global, number: usize, value: &Value) -> Read<InterfaceLabels>
    ensures { Reads described (entry number (view value.now)) result }
{
    let place = Place::Interface(number);
    match value.as_table() {
        Some(table) => read_interface(&Reader {
            alloc,
            place,
            table,
        }),
        None => Err(LabelsFault::BadValue(place, Key::Interface)),
    }
}

/// Returns the interface of this number, unless one of those before it has its index at its engine.
#[tactic(auto, using(crate::proofs::Entries::any_described))]
fn unless_twice(
    number: usize,
    done: &[InterfaceLabels],
    labels: InterfaceLabels,
) -> Read<InterfaceLabels>
    ensures { Reads described (unless_twice number (map described done.now) (described labels))
        result }
{
    if is_there(done, labels.engine.as_slice(), labels.index) {
        return Err(LabelsFault::Twice(number));
    }
    Ok(labels)
}

/// Reads the interface of this number after those before it.
#[tactic(auto, unfolding(crate::specs::Reading::entry_after))]
fn read_entry_after(
    alloc: Global,
    number: usize,
    done: &[InterfaceLabels],
    value: &Value,
) -> Read<InterfaceLabels>
    ensures { Reads described (entry_after number (map described done.now) (view value.now))
        result }
{
    let labels = read_entry(alloc, number, value)?;
    unless_twice(number, done, labels)
}

/// Reads the interfaces of a list.
fn read_entries(alloc: Global, values: &[Value]) -> Read<Vec<InterfaceLabels>>
    ensures { Reads (λ v. map described v.items) (entries 1 [] (items_view values.now)) result }
{
    let mut done = Vec::new(alloc);
    for (index, value) in values.iter().enumerate() {
        let labels = read_entry_after(alloc, index + 1, done.as_slice(), value)?;
        done.push(labels)?;
    }
    Ok(done)
}

/// Returns the values of the list of interfaces, none if it is left out.
#[tactic(auto, using(crate::proofs::Entries::few_values), unfolding(crate::specs::Reading::list_of))]
fn list_of(table: &Table) -> Read<&[Value]>
    ensures { Reads (λ vs. items_view vs.now) (list_of (table_view table.now)) result }
{
    let Some(value) = find(table, Key::Interface) else {
        return Ok(&[]);
    };
    let Some(values) = value.as_array() else {
        return Err(LabelsFault::BadValue(Place::Top, Key::Interface));
    };
    if values.len() > MAX_INTERFACES {
        return Err(LabelsFault::TooMany);
    }
    Ok(values.as_slice())
}

/// Reads the interfaces of a text's tree.
#[tactic(auto, unfolding(crate::specs::Reading::labels_of))]
fn read_tree(reader: &Reader<'_>) -> Read<Vec<InterfaceLabels>>
    requires { reader.now.place ≡ Place.Top }
    ensures { Reads (λ v. map described v.items) (labels_of (table_view reader.now.table.now))
        result }
{
    reader.only(&[Key::Interface])?;
    let values = list_of(reader.table)?;
    read_entries(reader.alloc, values)
}

/// Reads labels of interfaces from a text in TOML 1.1: a list `interface` of at most 4,096 tables,
/// which may be left out. Of each table the keys, in the order in which they are read: `engine`,
/// the engine id of its agent in hex digits, 5 to 32 octets; `index`, its ifIndex, 1 to 2147483647;
/// and the texts `ifName` and `ifAlias` and the number `speed`, its bits a second, at least 1,
/// which may be left out. Unknown keys are refused first.
///
/// # Errors
/// The first fault: `NotToml`; `UnknownKey`, `Missing` and `BadValue` with their place; `Twice` for
/// an interface whose index at its engine is that of one before it; `TooMany`; `OutOfMemory`.
pub fn read_labels(alloc: Global, text: &str) -> Result<Labels, LabelsFault>
    ensures read { IfOk result (λ labels. Says text.now (map described labels.interfaces.items)) }
    ensures refused { IfErr result (IsRefusal text.now) }
{
    let table = match toml::table_from_str(alloc, text) {
        Ok(table) => table,
        Err(error) => match error.span() {
            Some(span) => return Err(LabelsFault::NotToml(span.start)),
            None => return Err(LabelsFault::OutOfMemory),
        },
    };
    let interfaces = read_tree(&Reader {
        alloc,
        place: Place::Top,
        table: &table,
    })?;
    Ok(Labels { interfaces })
}
