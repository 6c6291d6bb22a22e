//! A file of labels with an agent's interfaces as they are now, and the names that it said before.

ghost use Rattle.std.specs.Prelude.{◌≡◌, ◌⊎◌, ◌↔◌, ◌++◌, IfErr, IfOk, IsTrue, None, OnOk, Some, option_copied, option_map, string_bytes};
ghost use Rattle.std.specs.Str.{IsUtf8};
ghost use Rattle.hex.specs.Hex.{encode_lower};
ghost use Rattle.toml.specs.Data.{Items};
ghost use Rattle.toml.specs.View.{items_view, view};
ghost use Rattle.mon_survey.specs.Edited.{quoted, text_without};
ghost use Rattle.mon_survey.specs.Labels.{interfaces_in};
ghost use Rattle.mon_survey.specs.Meant.{IsUnlike};
ghost use Rattle.mon_survey.specs.Moved.{at_in, at_of};
ghost use Rattle.mon_survey.specs.Relabelled.{AreKnownIn, AreRest, IsNoRest, IsNotRelabelled, IsRelabelled, IsRest, ReadsRest, indexes_then, is_index, is_known, known_at, known_by, known_in};

use crate::changes::{indexes_left, new_counters};
use crate::choice::{Choice, has_part};
use crate::editing::{quoted, text_without};
use crate::fault::{SurveyFault, given};
use crate::labelled::{interfaces, is_of, is_same, labels_of, number_at, text_at, tree};
use crate::moving::Known;
use crate::tables::{Source, indexes_of};
use crate::updating::Renamed;
use mon_ber::Octets;
use mon_board::Watched;
use std::alloc::{AllocError, Global};
use toml::Value;

/// U+FFFD, which a file of labels has in place of what is not UTF-8.
const REPLACEMENT: &[u8] = &[239, 191, 189];

/// Returns `true` if a name says something, and was UTF-8.
fn is_known(name: &[u8]) -> bool
    ensures { result ≡ is_known name.now }
{
    match name {
        [] => false,
        _ => !has_part(name, REPLACEMENT),
    }
}

/// Adds the name that a table says of an interface, if it is one of this engine, its index is an
/// ifIndex, and the name is known.
fn add_known_at(
    alloc: Global,
    all: &mut Vec<Known>,
    engine: &str,
    value: &Value,
) -> Result<(), AllocError>
    ensures { OnOk result (all.new.items ≡ all.old.items ++ known_at engine.now (view value.now)) }
{
    if !is_of(engine, text_at(value, "engine")) {
        return Ok(());
    }
    let Some(number) = number_at(value, "index") else {
        return Ok(());
    };
    let Some(name) = text_at(value, "ifName") else {
        return Ok(());
    };
    if number < 0 || number > 4_294_967_295 || !is_known(name.as_bytes()) {
        return Ok(());
    }
    let name = Octets::from_slice(alloc, name.as_bytes())?;
    all.push(Known {
        index: number.unsigned_abs() as u32,
        name,
    })?;
    Ok(())
}

/// Adds the names that tables say of the interfaces of this engine.
fn add_known_in(
    alloc: Global,
    all: &mut Vec<Known>,
    engine: &str,
    values: &[Value],
) -> Result<(), AllocError>
    ensures { OnOk result (all.new.items ≡ all.old.items ++ known_in engine.now
        (items_view values.now)) }
{
    let [value, values @ ..] = values else {
        return Ok(());
    };
    add_known_at(alloc, all, engine, value)?;
    add_known_in(alloc, all, engine, values)
}

/// Returns the names that a file of labels says of the interfaces of this engine. Empty names are
/// left out, and those with U+FFFD, which is in place of what is not UTF-8.
///
/// # Errors
/// `BadLabels` where the text is not TOML or its `interface` no list; `OutOfMemory`.
pub fn known_names(alloc: Global, text: &str, engine: &[u8]) -> Result<Vec<Known>, SurveyFault>
    ensures gives { IfOk result (λ v. AreKnownIn text.now (encode_lower engine.now) v.items) }
    ensures fault { IfErr result (λ e. (e ≡ SurveyFault.OutOfMemory)
        ⊎ ((e ≡ SurveyFault.BadLabels) × (interfaces_in text.now ≡ None))) }
{
    let digits = hex::encode(alloc, engine)?;
    let read = given!(tree(alloc, text));
    let Some(values) = interfaces(&read) else {
        return Err(SurveyFault::BadLabels);
    };
    let mut all = Vec::new(alloc);
    add_known_in(alloc, &mut all, digits.as_str(), values)?;
    Ok(all)
}

/// Returns `true` if the new tables are those of the old ones that are of other engines.
fn are_rest(engine: &str, old: &[Value], new: &[Value]) -> bool
    ensures { IsTrue result ↔ AreRest engine.now (items_view old.now) (items_view new.now) }
{
    let [one, old @ ..] = old else {
        return new.is_empty();
    };
    if is_of(engine, text_at(one, "engine")) {
        return are_rest(engine, old, new);
    }
    let [other, new @ ..] = new else {
        return false;
    };
    is_same(one, other) && are_rest(engine, old, new)
}

/// Returns `true` if the text is read as those of the old tables that are of other engines.
fn reads_rest(alloc: Global, engine: &str, before: &[Value], text: &str) -> Result<bool, AllocError>
    ensures { IfOk result (λ is. IsTrue is
        ↔ ReadsRest engine.now (items_view before.now) text.now) }
{
    let read = match tree(alloc, text) {
        Ok(read) => read,
        Err(SurveyFault::BadLabels) => return Ok(false),
        Err(_) => return Err(AllocError),
    };
    match interfaces(&read) {
        Some(after) => Ok(are_rest(engine, before, after)),
        None => Ok(false),
    }
}

/// The old text without its blocks of this engine, but with the comments in them, if it is read as
/// the tables of other engines.
fn rest_of(alloc: Global, engine: &str, old: &str) -> Result<String, SurveyFault>
    ensures is { IfOk result (λ t. string_bytes t ≡ text_without (quoted engine.now) old.now) }
    ensures rest { IfOk result (λ t. IsRest engine.now old.now
        (text_without (quoted engine.now) old.now)) }
    ensures fault { IfErr result (λ e. (e ≡ SurveyFault.OutOfMemory)
        ⊎ IsNoRest old.now engine.now e) }
{
    let was = given!(tree(alloc, old));
    let Some(before) = interfaces(&was) else {
        return Err(SurveyFault::BadLabels);
    };
    let own = quoted(alloc, engine)?;
    let octets = text_without(alloc, own.as_slice(), old.as_bytes())?;
    let Ok(text) = String::from_utf8(octets) else {
        return Err(SurveyFault::Misread);
    };
    if reads_rest(alloc, engine, before, text.as_str())? {
        Ok(text)
    } else {
        Err(SurveyFault::Misread)
    }
}

/// The file of these interfaces, with the old tables of other engines.
fn relabelled(source: &Source<'_>, old: &str, indexes: &[u32]) -> Result<String, SurveyFault>
    ensures reads { IfOk result (λ text. IsRelabelled old.now source.now.engine.now
        source.now.answers.now indexes.now (string_bytes text)) }
    ensures fault { IfErr result (IsNotRelabelled old.now source.now.engine.now
        source.now.answers.now indexes.now) }
{
    let rest = given!(rest_of(source.alloc, source.engine, old));
    let text = given!(labels_of(source, rest.as_str(), indexes));
    Ok(text)
}

/// Returns a file of labels with an agent's interfaces as they are now: the old text without the
/// blocks of its engine, of which the comments stay, and then a table of each interface that
/// settings which watch this poll after `update`. The whole was read back, as the old tables of
/// other engines and these.
///
/// # Errors
/// `BadLabels` where the old text is not TOML or its `interface` no list; `SameEngine` where a
/// table of the engine is no block of its own; `TooManyInterfaces` with their number in all, above
/// 4,096; `Misread` where the text is read as others; `OutOfMemory`.
pub fn relabel(
    alloc: Global,
    old: &str,
    renamed: &Renamed<'_>,
    choice: &Choice<'_>,
    instances: &[Watched],
) -> Result<String, SurveyFault>
    ensures reads { IfOk result (λ text. IsRelabelled old.now
        (encode_lower (at_in renamed.now).engine) (at_in renamed.now).cells
        (indexes_then choice.now (at_in renamed.now) instances.now) (string_bytes text)) }
    ensures fault { IfErr result (IsNotRelabelled old.now (encode_lower (at_in renamed.now).engine)
        (at_in renamed.now).cells (indexes_then choice.now (at_in renamed.now) instances.now)) }
{
    let places = renamed.places();
    let mut indexes = indexes_left(alloc, &places, instances)?;
    let counters = new_counters(alloc, &places, choice, instances)?;
    let added = indexes_of(alloc, &counters)?;
    indexes.extend_from_slice(&added)?;
    let digits = hex::encode(alloc, places.engine)?;
    let source = Source {
        alloc,
        engine: digits.as_str(),
        answers: places.answers,
    };
    relabelled(&source, old, &indexes)
}
