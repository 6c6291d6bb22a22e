//! Pieces of a settings text.

ghost use Rattle.std.specs.Prelude.{◌≡◌, ◌≤◌, ◌<◌, ◌++◌, [], ◌∷◌, OnOk, string_bytes, IfOk, codes, map, take};
ghost use Rattle.std.specs.List.{flat_map};
ghost use Rattle.mon_survey.specs.Answers.{name_in, octets_of, type_in, value_at};
ghost use Rattle.mon_survey.specs.Column.{cell_name};
ghost use Rattle.mon_survey.specs.Counter.{column_of};
ghost use Rattle.mon_survey.specs.Text.{alarm_text, alias_text, cleaned, comment_text, head_text, mark_text, module_text, modules_text, object_text, peer_text, rule_text, shown, target_text, type_text};

use crate::answers::Answers;
use crate::column::Column;
use crate::counter::Planned;
use crate::options::{Options, Peer};
use crate::planning::{Thresholds, thresholds_of};
use mon_smi::NameTexts;
use std::alloc::{AllocError, Global};

/// The most octets of a name or an alias that a comment shows.
const MAX_SHOWN: usize = 64;

/// An agent's answers, and how a text shows names.
#[derive(Drop)]
pub(crate) struct Naming<'a, S> {
    pub(crate) alloc: Global,
    pub(crate) names: &'a S,
    pub(crate) answers: &'a Answers,
}

/// The octet as a comment shows it: itself from 20 to 7E except for a quote, which is `?` like all
/// others.
pub(crate) fn shown(octet: u8) -> u8
    ensures shown { result ≡ shown octet }
    ensures ascii { result < 128 }
{
    if 32 <= octet && octet <= 126 && octet != 34 {
        octet
    } else {
        b'?'
    }
}

/// Adds an octet as a comment shows it.
fn put_shown(text: &mut String, octet: u8) -> Result<(), AllocError>
    ensures { OnOk result (string_bytes text.new
        ≡ string_bytes text.old ++ map shown (octet ∷ [])) }
{
    text.push(char::from(shown(octet)))
}

/// The first 64 octets, or all where there are fewer.
fn first_of(octets: &[u8]) -> &[u8]
    ensures { result.now ≡ take 64 octets.now }
{
    if octets.len() > MAX_SHOWN {
        &octets[..MAX_SHOWN]
    } else {
        octets
    }
}

/// Adds at most 64 octets as a comment shows them.
pub(crate) fn put_cleaned(text: &mut String, octets: &[u8]) -> Result<(), AllocError>
    ensures { OnOk result (string_bytes text.new ≡ string_bytes text.old ++ cleaned octets.now) }
{
    for octet in first_of(octets) {
        put_shown(text, *octet)?;
    }
    Ok(())
}

/// Adds the name of a cell, as it is shown.
fn put_cell<S: NameTexts>(
    text: &mut String,
    shown: &Naming<'_, S>,
    column: Column,
    index: u32,
) -> Result<(), AllocError>
    ensures { OnOk result (string_bytes text.new ≡ string_bytes text.old
        ++ S.shown shown.now.names.now (cell_name column index)) }
{
    let Ok(name) = column.cell(shown.alloc, index) else {
        return Err(AllocError);
    };
    let name = shown.names.text(shown.alloc, &name)?;
    text.push_str(name.as_str())
}

/// Adds the name of a counter's cell, as it is shown.
fn put_name<S: NameTexts>(
    text: &mut String,
    shown: &Naming<'_, S>,
    one: Planned,
) -> Result<(), AllocError>
    ensures { OnOk result (string_bytes text.new ≡ string_bytes text.old
        ++ S.shown shown.now.names.now (cell_name (column_of one.counter one.wide) one.index)) }
{
    put_cell(text, shown, one.column(), one.index)
}

/// Adds an interface's ifType, where the agent has it.
fn put_type(text: &mut String, answers: &Answers, index: u32) -> Result<(), AllocError>
    ensures { OnOk result (string_bytes text.new ≡ string_bytes text.old
        ++ type_text (type_in answers.now index)) }
{
    let kind = answers.kind(index);
    if kind == 0 {
        return Ok(());
    }
    write!(text, ", ifType {kind}")
}

/// Adds an interface's alias as a comment shows it, where it has one.
fn put_alias(text: &mut String, alias: &[u8]) -> Result<(), AllocError>
    ensures { OnOk result (string_bytes text.new ≡ string_bytes text.old ++ alias_text alias.now) }
{
    if alias.is_empty() {
        return Ok(());
    }
    text.push_str(", ")?;
    put_cleaned(text, alias)
}

/// Adds the end of a counter's line: its comment, with its descriptor, and its interface's name,
/// alias, type and speed.
#[tactic(auto, unfolding(crate::specs::Text::comment_text))]
fn put_comment(text: &mut String, answers: &Answers, one: Planned) -> Result<(), AllocError>
    ensures { OnOk result (string_bytes text.new ≡ string_bytes text.old
        ++ comment_text answers.now one) }
{
    let label = one.label();
    let index = one.index;
    let speed = answers.high_speed(index);
    write!(text, " # {label}.{index}: ")?;
    put_cleaned(text, answers.name(index))?;
    put_alias(text, answers.alias(index))?;
    put_type(text, answers, index)?;
    write!(text, ", {speed} Mbit/s\n")
}

/// Adds the end of a counter's table, with the mark of its interface's counters, where it has one.
fn put_mark<S: NameTexts>(
    text: &mut String,
    shown: &Naming<'_, S>,
    index: u32,
) -> Result<(), AllocError>
    ensures { OnOk result (string_bytes text.new ≡ string_bytes text.old
        ++ mark_text (S.shown shown.now.names.now) shown.now.answers.now index) }
{
    if shown.answers.is_marked(index) {
        text.push_str("\", mark = \"")?;
        put_cell(text, shown, Column::IfX(19), index)?;
    }
    text.push_str("\" },")
}

/// Adds the line of a counter.
#[tactic(auto, unfolding(crate::specs::Text::object_text))]
pub(crate) fn put_object<S: NameTexts>(
    text: &mut String,
    shown: &Naming<'_, S>,
    one: Planned,
) -> Result<(), AllocError>
    ensures { OnOk result (string_bytes text.new ≡ string_bytes text.old
        ++ object_text (S.shown shown.now.names.now) shown.now.answers.now one) }
{
    text.push_str("    { name = \"")?;
    put_name(text, shown, one)?;
    put_mark(text, shown, one.index)?;
    put_comment(text, shown.answers, one)
}

/// Adds what comes before the modules.
#[tactic(auto, unfolding(crate::specs::Text::head_text))]
pub(crate) fn put_head(text: &mut String, options: &Options<'_>) -> Result<(), AllocError>
    ensures { OnOk result (string_bytes text.new ≡ string_bytes text.old ++ head_text options.now) }
{
    let station = options.station;
    let listen = options.listen;
    let file = options.file;
    let window = options.window;
    let wait_ms = options.wait_ms;
    write!(
        text,
        "station = {station}\nlisten = \"{listen}\"\nfile = \"{file}\"\nwindow = {window}\nwait_ms = {wait_ms}\n"
    )
}

/// Adds the line of a module's file.
fn put_module(text: &mut String, path: &str) -> Result<(), AllocError>
    ensures { OnOk result (string_bytes text.new ≡ string_bytes text.old ++ module_text path.now) }
{
    write!(text, "    \"{path}\",\n")
}

/// Adds the list of the modules' files, where there are some.
pub(crate) fn put_modules(text: &mut String, paths: &[&str]) -> Result<(), AllocError>
    ensures { OnOk result (string_bytes text.new
        ≡ string_bytes text.old ++ modules_text paths.now) }
{
    if paths.is_empty() {
        return Ok(());
    }
    put_list(text, paths)
}

/// Adds the list of modules' files.
fn put_list(text: &mut String, paths: &[&str]) -> Result<(), AllocError>
    ensures { OnOk result (string_bytes text.new ≡ string_bytes text.old ++ codes "modules = [\n"
        ++ flat_map (λ m. module_text m.now) paths.now ++ codes "]\n") }
{
    text.push_str("modules = [\n")?;
    put_paths(text, paths)?;
    text.push_str("]\n")
}

/// Adds the lines of modules' files.
fn put_paths(text: &mut String, paths: &[&str]) -> Result<(), AllocError>
    ensures { OnOk result (string_bytes text.new ≡ string_bytes text.old
        ++ flat_map (λ m. module_text m.now) paths.now) }
{
    for path in paths {
        put_module(text, path)?;
    }
    Ok(())
}

/// Adds the head of a target.
#[tactic(auto, unfolding(crate::specs::Text::target_text))]
pub(crate) fn put_target(
    text: &mut String,
    options: &Options<'_>,
    engine: &str,
) -> Result<(), AllocError>
    ensures { OnOk result (string_bytes text.new ≡ string_bytes text.old
        ++ target_text options.now engine.now) }
{
    let address = options.address;
    let community = options.community;
    let tries = options.tries;
    write!(
        text,
        "\n[[target]]\naddress = \"{address}\"\ncommunity = \"{community}\"\nengine = \"{engine}\"\ntries = {tries}\nobjects = [\n"
    )
}

/// Adds a peer.
pub(crate) fn put_peer(text: &mut String, peer: &Peer) -> Result<(), AllocError>
    ensures { OnOk result (string_bytes text.new ≡ string_bytes text.old ++ peer_text peer.now) }
{
    let station = peer.station;
    let address = peer.address.as_str();
    write!(
        text,
        "\n[[peer]]\nstation = {station}\naddress = \"{address}\"\n"
    )
}

/// Adds an alarm at these thresholds.
#[tactic(auto, unfolding(crate::specs::Text::rule_text))]
fn put_rule<S: NameTexts>(
    text: &mut String,
    shown: &Naming<'_, S>,
    engine: &str,
    one: Planned,
    at: Thresholds,
) -> Result<(), AllocError>
    ensures { OnOk result (string_bytes text.new ≡ string_bytes text.old
        ++ rule_text (S.shown shown.now.names.now) engine.now one at) }
{
    let rising = at.rising;
    let falling = at.falling;
    write!(text, "\n[[alarm]]\nengine = \"{engine}\"\nname = \"")?;
    put_name(text, shown, one)?;
    write!(text, "\"\nrising = {rising}\nfalling = {falling}\n")
}

/// Adds the alarm on a counter, where there is one.
pub(crate) fn put_alarm<S: NameTexts>(
    text: &mut String,
    shown: &Naming<'_, S>,
    percent: u8,
    engine: &str,
    one: Planned,
) -> Result<(), AllocError>
    requires { percent ≤ 100 }
    ensures { OnOk result (string_bytes text.new ≡ string_bytes text.old
        ++ alarm_text (S.shown shown.now.names.now) shown.now.answers.now percent engine.now one) }
{
    match thresholds_of(shown.answers, percent, one.counter, one.index) {
        Some(at) => put_rule(text, shown, engine, one, at),
        None => Ok(()),
    }
}
