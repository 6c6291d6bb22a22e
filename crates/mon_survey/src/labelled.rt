//! What a file of the texts of interfaces is read as.

ghost use Rattle.std.specs.Prelude.{◌≡◌, ◌<◌, ◌≤◌, ◌^◌, ◌+◌, ◌⊎◌, ◌↔◌, IfErr, IfOk, IsTrue, None, OnOk, Some, codes, false, length, option_copied, option_map, string_bytes};
ghost use Rattle.hex.specs.Hex.{encode_lower};
ghost use Rattle.toml.specs.Data.{get_member};
ghost use Rattle.toml.specs.Parse.{parse_document};
ghost use Rattle.toml.specs.View.{items_view, table_view, view};
ghost use Rattle.mon_survey.specs.Meant.{IsUnlike};
ghost use Rattle.mon_survey.specs.Labels.{AreInterfaces, Continue, ContinueIn, IsInterface, IsLabels, IsNoLabels, IsSameInterface, ReadsOn, count_items, has_engine, indexes_of, interfaces_in, is_of, items_at, known_speed, labels_text, number_at, text_at, text_of};

use crate::choice::Choice;
use crate::fault::{SurveyFault, given};
use crate::planning::counters_of;
use crate::surveying::Surveyed;
use crate::tables::{Source, indexes_of, text_of};
use std::alloc::{AllocError, Global};
use toml::{Table, Value};

/// The most interfaces of a file.
const MAX_INTERFACES: usize = 4096;

/// The tree of a text.
pub(crate) fn tree(alloc: Global, text: &str) -> Result<Table, SurveyFault>
    ensures tree { IfOk result (λ t. parse_document text.now ≡ Some (table_view t)) }
    ensures none { IfErr result (λ e. (e ≡ SurveyFault.OutOfMemory)
        ⊎ ((e ≡ SurveyFault.BadLabels) × (parse_document text.now ≡ None))) }
{
    match toml::table_from_str(alloc, text) {
        Ok(table) => Ok(table),
        Err(error) => match error.span() {
            Some(_) => Err(SurveyFault::BadLabels),
            None => Err(SurveyFault::OutOfMemory),
        },
    }
}

/// The value at a key of a tree.
fn find<'t>(table: &'t Table, key: &str) -> Option<&'t Value>
    ensures { option_map (λ v. view v.now) result ≡ get_member key.now (table_view table.now) }
{
    table.get(key)
}

/// The tables of interfaces in a tree: none where it names none; `None` where they are no list.
pub(crate) fn interfaces(table: &Table) -> Option<&[Value]>
    ensures { option_map (λ v. items_view v.now) result ≡ items_at
        (get_member (codes "interface") (table_view table.now)) }
{
    match find(table, "interface") {
        Some(value) => match value.as_array() {
            Some(values) => Some(values.as_slice()),
            None => None,
        },
        None => Some(&[]),
    }
}

/// The text at a key.
pub(crate) fn text_at<'v>(value: &'v Value, key: &str) -> Option<&'v str>
    ensures { option_copied result ≡ text_at key.now (view value.now) }
{
    match value.get(key) {
        Some(found) => found.as_str(),
        None => None,
    }
}

/// The number at a key.
pub(crate) fn number_at(value: &Value, key: &str) -> Option<i64>
    ensures { result ≡ number_at key.now (view value.now) }
{
    match value.get(key) {
        Some(found) => found.as_integer(),
        None => None,
    }
}

/// Returns `true` if the texts are the same, or there are none.
fn are_alike(one: Option<&str>, other: Option<&str>) -> bool
    ensures { IsTrue result ↔ (option_copied one.entry ≡ option_copied other.entry) }
{
    match one {
        Some(text) => match other {
            Some(same) => text == same,
            None => false,
        },
        None => other.is_none(),
    }
}

/// Returns `true` if the text is this one, or there are none.
fn is_text(found: Option<&str>, wanted: &Option<String>) -> bool
    ensures { IsTrue result ↔ (option_copied found.entry ≡ option_map string_bytes wanted.now) }
{
    match found {
        Some(text) => match wanted {
            Some(same) => text == same.as_str(),
            None => false,
        },
        None => wanted.is_none(),
    }
}

/// Returns `true` if the table has the octets as its text at a key, or no text if there are none.
fn has_text(alloc: Global, value: &Value, key: &str, octets: &[u8]) -> Result<bool, AllocError>
    ensures { IfOk result (λ has. IsTrue has ↔ (text_at key.now (view value.now)
        ≡ text_of octets.now)) }
{
    let text = text_of(alloc, octets)?;
    Ok(is_text(text_at(value, key), &text))
}

/// Returns a speed in bits a second as a number of TOML, unless it is 0.
fn known_speed(speed: u64) -> Option<i64>
    requires { speed < 2 ^ 63 }
    ensures { result ≡ known_speed speed }
{
    if speed == 0 {
        return None;
    }
    Some(speed as i64)
}

/// Returns `true` if the table is that of the interface.
fn is_interface(source: &Source<'_>, index: u32, value: &Value) -> Result<bool, AllocError>
    ensures { IfOk result (λ is. IsTrue is ↔ IsInterface source.now.engine.now
        source.now.answers.now index (view value.now)) }
{
    let name = has_text(source.alloc, value, "ifName", source.name(index))?;
    let alias = has_text(source.alloc, value, "ifAlias", source.alias(index))?;
    let speed = number_at(value, "speed") == known_speed(source.speed(index));
    Ok(
        are_alike(text_at(value, "engine"), Some(source.engine))
            && number_at(value, "index") == Some(i64::from(index))
            && name
            && alias
            && speed,
    )
}

/// Returns `true` if the tables are those of the interfaces.
fn are_interfaces(
    source: &Source<'_>,
    indexes: &[u32],
    values: &[Value],
) -> Result<bool, AllocError>
    ensures { IfOk result (λ are. IsTrue are ↔ AreInterfaces source.now.engine.now
        source.now.answers.now indexes.now (items_view values.now)) }
{
    let [index, indexes @ ..] = indexes else {
        return Ok(values.is_empty());
    };
    let [value, values @ ..] = values else {
        return Ok(false);
    };
    if !is_interface(source, *index, value)? {
        return Ok(false);
    }
    are_interfaces(source, indexes, values)
}

/// Returns `true` if the tables say the same.
pub(crate) fn is_same(one: &Value, other: &Value) -> bool
    ensures { IsTrue result ↔ IsSameInterface (view one.now) (view other.now) }
{
    are_alike(text_at(one, "engine"), text_at(other, "engine"))
        && number_at(one, "index") == number_at(other, "index")
        && are_alike(text_at(one, "ifName"), text_at(other, "ifName"))
        && are_alike(text_at(one, "ifAlias"), text_at(other, "ifAlias"))
        && number_at(one, "speed") == number_at(other, "speed")
}

/// Returns `true` if the new tables are the old ones, and then those of the interfaces.
fn continues(
    source: &Source<'_>,
    indexes: &[u32],
    old: &[Value],
    new: &[Value],
) -> Result<bool, AllocError>
    ensures { IfOk result (λ is. IsTrue is ↔ Continue source.now.engine.now source.now.answers.now
        indexes.now (items_view old.now) (items_view new.now)) }
{
    let [one, old @ ..] = old else {
        return are_interfaces(source, indexes, new);
    };
    let [other, new @ ..] = new else {
        return Ok(false);
    };
    if !is_same(one, other) {
        return Ok(false);
    }
    continues(source, indexes, old, new)
}

/// Returns `true` if one of the tables is of the engine.
fn has_engine(engine: &str, values: &[Value]) -> bool
    ensures { result ≡ has_engine engine.now (items_view values.now) }
{
    let [value, values @ ..] = values else {
        return false;
    };
    is_of(engine, text_at(value, "engine")) || has_engine(engine, values)
}

pub(crate) fn is_of(engine: &str, found: Option<&str>) -> bool
    ensures { result ≡ is_of engine.now (option_copied found.entry) }
{
    match found {
        Some(text) => text == engine,
        None => false,
    }
}

/// Requires that the interfaces may follow the old tables: that none of these is of the engine, and
/// that there are at most 4,096 in all.
fn require_room(
    source: &Source<'_>,
    old: &str,
    before: &[Value],
    indexes: &[u32],
) -> Result<(), SurveyFault>
    requires { interfaces_in old.now ≡ Some (items_view before.now) }
    ensures other { OnOk result (has_engine source.now.engine.now (items_view before.now) ≡ false) }
    ensures few { OnOk result (count_items (items_view before.now) + length indexes.now ≤ 4096) }
    ensures fault { IfErr result (IsNoLabels old.now source.now.engine.now source.now.answers.now
        indexes.now) }
{
    if has_engine(source.engine, before) {
        return Err(SurveyFault::SameEngine);
    }
    let count = before.len() + indexes.len();
    if count > MAX_INTERFACES {
        return Err(SurveyFault::TooManyInterfaces(count));
    }
    Ok(())
}

/// Returns `true` if the text is read as these tables and those of the interfaces. An `Err` means
/// out of memory.
fn reads_on(
    source: &Source<'_>,
    before: &[Value],
    indexes: &[u32],
    text: &str,
) -> Result<bool, AllocError>
    ensures { IfOk result (λ is. IsTrue is ↔ ReadsOn source.now.engine.now source.now.answers.now
        indexes.now (items_view before.now) text.now) }
{
    let read = match tree(source.alloc, text) {
        Ok(read) => read,
        Err(SurveyFault::BadLabels) => return Ok(false),
        Err(_) => return Err(AllocError),
    };
    let Some(after) = interfaces(&read) else {
        return Ok(false);
    };
    continues(source, indexes, before, after)
}

/// Returns the text, if it is read as the old tables and those of the interfaces.
fn confirm(
    source: &Source<'_>,
    before: &[Value],
    indexes: &[u32],
    text: String,
) -> Result<String, SurveyFault>
    ensures gives { IfOk result (λ same. (same ≡ text) × ReadsOn source.now.engine.now
        source.now.answers.now indexes.now (items_view before.now) (string_bytes text)) }
    ensures fault { IfErr result (IsUnlike (ReadsOn source.now.engine.now source.now.answers.now
        indexes.now (items_view before.now) (string_bytes text))) }
{
    if reads_on(source, before, indexes, text.as_str())? {
        Ok(text)
    } else {
        Err(SurveyFault::Misread)
    }
}

/// Returns the text with the tables of the interfaces, if it is read as the old ones and these.
fn labels_after(
    source: &Source<'_>,
    old: &str,
    before: &[Value],
    indexes: &[u32],
) -> Result<String, SurveyFault>
    requires { interfaces_in old.now ≡ Some (items_view before.now) }
    ensures is { IfOk result (λ text. string_bytes text ≡ labels_text old.now source.now.engine.now
        source.now.answers.now indexes.now) }
    ensures reads { IfOk result (λ text. ReadsOn source.now.engine.now source.now.answers.now
        indexes.now (items_view before.now) (string_bytes text)) }
    ensures fault { IfErr result (IsNoLabels old.now source.now.engine.now source.now.answers.now
        indexes.now) }
{
    let octets = source.octets(old, indexes)?;
    match String::from_utf8(octets) {
        Ok(text) => confirm(source, before, indexes, text),
        Err(_) => Err(SurveyFault::Misread),
    }
}

/// Returns the file of the interfaces of these indexes.
pub(crate) fn labels_of(
    source: &Source<'_>,
    old: &str,
    indexes: &[u32],
) -> Result<String, SurveyFault>
    ensures reads { IfOk result (λ text. IsLabels old.now source.now.engine.now
        source.now.answers.now indexes.now (string_bytes text)) }
    ensures fault { IfErr result (IsNoLabels old.now source.now.engine.now source.now.answers.now
        indexes.now) }
{
    let was = given!(tree(source.alloc, old));
    let Some(before) = interfaces(&was) else {
        return Err(SurveyFault::BadLabels);
    };
    given!(require_room(source, old, before, indexes));
    labels_after(source, old, before, indexes)
}

/// Returns a file of the texts of the interfaces of which a counter is chosen: the old text octet
/// by octet (none: a new file), and then a table of each interface with its engine id, ifIndex,
/// ifName and ifAlias. The whole was read back, as the old tables and these.
///
/// # Errors
/// `BadLabels` where the old text is not TOML or its `interface` no list; `SameEngine` where it has
/// the engine; `TooManyInterfaces` with their number in all, above 4,096; `Misread` where the text
/// is read as others; `OutOfMemory`.
pub fn labels(
    alloc: Global,
    old: &str,
    agent: &Surveyed<'_>,
    choice: &Choice<'_>,
) -> Result<String, SurveyFault>
    ensures reads { IfOk result (λ text. IsLabels old.now (encode_lower agent.now.engine.now)
        agent.now.answers.now (indexes_of choice.now agent.now.answers.now) (string_bytes text)) }
    ensures fault { IfErr result (IsNoLabels old.now (encode_lower agent.now.engine.now)
        agent.now.answers.now (indexes_of choice.now agent.now.answers.now)) }
{
    let counters = given!(counters_of(alloc, agent.answers, choice));
    let indexes = indexes_of(alloc, &counters)?;
    let digits = hex::encode(alloc, agent.engine)?;
    let source = Source {
        alloc,
        engine: digits.as_str(),
        answers: agent.answers,
    };
    labels_of(&source, old, &indexes)
}
