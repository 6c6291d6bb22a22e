//! A report as JSON.

ghost use Rattle.std.specs.Prelude.{◌≡◌, ◌≤◌, ◌∷◌, ◌++◌, [], IfOk, IfSome, List, OnOk, codes, false, map, option_map, true, ℕ};
ghost use Rattle.hex.specs.Hex.{encode_lower};
ghost use Rattle.serde_json.specs.Data.{Members, array, depth, member, no_members, object, put as with_member, string};
ghost use Rattle.serde_json.specs.Read.{max_depth};
ghost use Rattle.serde_json.specs.View.{view, items_of, members_view};
ghost use Rattle.serde_json.specs.Written.{comma_if, compact_text, has_float, items_text, members_text};
ghost use Rattle.mon_page.specs.Cells.{fresh_rate};
ghost use Rattle.mon_page.specs.Freshness.{fresh_at};
ghost use Rattle.mon_formats.specs.Json.{exact, exact_signed, sample_data, raised_data, alarm_data, exact_or_null, totals_data, age_data, debt_data, target_data, refusal_data, station_data, station_member, or_fresh, fresh_alarms, with_stale, entry_data, entries_data, report_data, json_report, ReadsAsReport};
ghost use Rattle.mon_formats.specs.Sound.{IsSound};

use crate::cells::count_samples;
use itoa::{Buffer, Integer};
use mon_alarms::AlarmState;
use mon_page::{Figures, TargetFigures, fresh_rate, is_fresh};
use mon_report::{Alarm, Entry};
use mon_sample::Sample;
use mon_smi::NameTexts;
use serde_json::{Map, Value, json, push, put};
use std::alloc::{AllocError, Global};

/// The largest whole number that is written as a number: readers that keep numbers as floats of 64
/// bits have it exactly.
const LARGEST_NUMBER: u64 = 1 << 53;

/// An instance, and of a running station whether it is fresh.
#[derive(Clone, Copy)]
struct Seen<'a, 'e> {
    instance: &'a Entry<'e>,
    fresh: Option<bool>,
}

/// The report as JSON (RFC 8259), on one line.
pub(crate) fn json_report<S: NameTexts>(
    alloc: Global,
    buffer: Vec<u8>,
    names: &S,
    entries: &[Entry],
    station: Option<&Figures>,
) -> Result<Vec<u8>, AllocError>
    ensures text { IfOk result (λ text. text.items ≡ json_report (S.shown names.now) entries.now
        (option_map (λ f. f.now) station.entry)) }
    ensures read_back { IfOk result (λ text. ReadsAsReport (S.shown names.now) entries.now
        (option_map (λ f. f.now) station.entry) text.items) }
{
    let mut text = buffer;
    text.clear();
    put_report(alloc, &mut text, names, entries, station)?;
    Ok(text)
}

/// Adds the report, with a line feed behind it.
fn put_report<S: NameTexts>(
    alloc: Global,
    text: &mut Vec<u8>,
    names: &S,
    entries: &[Entry],
    station: Option<&Figures>,
) -> Result<(), AllocError>
    ensures text { OnOk result (text.new.items ≡ text.old.items
        ++ json_report (S.shown names.now) entries.now (option_map (λ f. f.now) station.entry)) }
    ensures sound { OnOk result (IsSound (report_data (S.shown names.now) entries.now
        (option_map (λ f. f.now) station.entry))) }
{
    text.extend_from_slice(b"{\"instances\":[")?;
    put_instances(alloc, text, names, entries, station)?;
    put_value(
        alloc,
        text,
        b",\"samples\":",
        exact_value(alloc, count_samples(entries))?,
    )?;
    put_running(alloc, text, station)?;
    text.extend_from_slice(b"}\n")
}

/// Adds what a running station says of itself, as a member behind others.
fn put_running(
    alloc: Global,
    text: &mut Vec<u8>,
    station: Option<&Figures>,
) -> Result<(), AllocError>
    ensures text { OnOk result (text.new.items ++ codes "}" ≡ text.old.items
        ++ members_text true (station_member (option_map (λ f. f.now) station.entry))) }
    ensures sound { OnOk result (IfSome station.entry (λ f. IsSound (station_data f.now))) }
{
    match station {
        None => Ok(()),
        Some(figures) => put_value(
            alloc,
            text,
            b",\"station\":",
            station_value(alloc, figures)?,
        ),
    }
}

/// Adds the instances, each as soon as its value is made, and the bracket behind them.
fn put_instances<S: NameTexts>(
    alloc: Global,
    text: &mut Vec<u8>,
    names: &S,
    entries: &[Entry],
    station: Option<&Figures>,
) -> Result<(), AllocError>
    ensures text { OnOk result (text.new.items ≡ text.old.items
        ++ items_text false (items_of (entries_data (S.shown names.now)
        (option_map (λ f. f.now) station.entry) 0 entries.now))) }
    ensures sound { OnOk result (IsSound (array (items_of (entries_data (S.shown names.now)
        (option_map (λ f. f.now) station.entry) 0 entries.now)))) }
{
    let mut later = false;
    for (place, instance) in entries.iter().enumerate() {
        let fresh = fresh_at(station, place);
        put_instance(alloc, text, names, Seen { instance, fresh }, later)?;
        later = true;
    }
    text.extend_from_slice(b"]")
}

/// Returns whether the instance at this place is fresh. Returns `None` without a station.
fn fresh_at(station: Option<&Figures>, place: usize) -> Option<bool>
    ensures { result ≡ fresh_at (option_map (λ f. f.now) station.entry) place }
{
    let figures = station?;
    let age = figures.ages.get(place).copied();
    Some(is_fresh(figures.stale_after, age))
}

/// Adds an instance, after a comma if another precedes it.
fn put_instance<S: NameTexts>(
    alloc: Global,
    text: &mut Vec<u8>,
    names: &S,
    seen: Seen,
    later: bool,
) -> Result<(), AllocError>
    ensures text { OnOk result (text.new.items ≡ text.old.items
        ++ (comma_if later ++ compact_text (entry_data (S.shown names.now) seen.entry.fresh
        seen.entry.instance.now))) }
    ensures sound { OnOk result (IsSound (entry_data (S.shown names.now) seen.entry.fresh
        seen.entry.instance.now)) }
{
    text.extend_from_slice(comma(later))?;
    put_head(alloc, text, names, seen.instance, or_fresh(seen.fresh))?;
    put_samples(text, seen.instance.samples())?;
    put_end(alloc, text, seen)
}

/// The comma between two values; nothing before the first.
fn comma(later: bool) -> &'static [u8]
    ensures { result.now ≡ comma_if later }
{
    if later { b"," } else { b"" }
}

/// Adds a text, and a value behind it.
fn put_value(
    alloc: Global,
    text: &mut Vec<u8>,
    before: &[u8],
    value: Value,
) -> Result<(), AllocError>
    requires exact { has_float (view value) ≡ false }
    requires shallow { depth (view value) ≤ max_depth }
    ensures text { OnOk result (text.new.items ≡ text.old.items
        ++ (before.now ++ compact_text (view value))) }
    ensures sound { OnOk result (IsSound (view value)) }
{
    text.extend_from_slice(before)?;
    let written = value.to_vec(alloc)?;
    text.extend_from_slice(written.as_slice())
}

/// What a station says of itself.
fn station_value(alloc: Global, figures: &Figures) -> Result<Value, AllocError>
    ensures { IfOk result (λ v. view v ≡ station_data figures.now) }
{
    let mut members = Map::new(alloc);
    put_station(alloc, &mut members, figures)?;
    Ok(Value::Object(members))
}

/// Puts what a station says of itself into an object without members.
fn put_station(
    alloc: Global,
    members: &mut Map<String, Value>,
    figures: &Figures,
) -> Result<(), AllocError>
    requires { members_view members.old.entries ≡ no_members }
    ensures { OnOk result (object (members_view members.new.entries) ≡ station_data figures.now) }
{
    put(
        members,
        alloc,
        "ages",
        ages_value(alloc, figures.ages.as_slice())?,
    )?;
    put(
        members,
        alloc,
        "debts",
        debts_value(alloc, figures.debts.as_slice())?,
    )?;
    let failed_saves = u128::from(figures.failed_saves);
    put_exact(alloc, members, "failed_saves", failed_saves)?;
    put_exact(alloc, members, "given_up", u128::from(figures.given_up))?;
    put(
        members,
        alloc,
        "incarnation",
        Value::from(figures.incarnation),
    )?;
    put(members, alloc, "number", Value::from(figures.station))?;
    put(
        members,
        alloc,
        "round_at",
        round_at_value(alloc, figures.round_at)?,
    )?;
    put_exact(alloc, members, "round_ms", u128::from(figures.round_ms))?;
    put_exact(alloc, members, "strangers", u128::from(figures.strangers))?;
    put_exact(alloc, members, "taken", u128::from(figures.taken))?;
    put(
        members,
        alloc,
        "targets",
        targets_value(alloc, figures.targets.as_slice())?,
    )
}

/// When the last round ended, in seconds since 1970; null before the end of the first one.
fn round_at_value(alloc: Global, round_at: Option<u64>) -> Result<Value, AllocError>
    ensures { IfOk result (λ v. view v ≡ exact_or_null round_at) }
{
    match round_at {
        None => Ok(Value::Null),
        Some(seconds) => exact_value(alloc, u128::from(seconds)),
    }
}

/// Puts a whole number into an object.
fn put_exact(
    alloc: Global,
    members: &mut Map<String, Value>,
    key: &str,
    number: u128,
) -> Result<(), AllocError>
    ensures { OnOk result (members_view members.new.entries ≡ with_member key.now (exact number)
        (members_view members.old.entries)) }
{
    put(members, alloc, key, exact_value(alloc, number)?)
}

/// The array of ages.
fn ages_value(alloc: Global, ages: &[u32]) -> Result<Value, AllocError>
    ensures { IfOk result (λ v. view v ≡ array (items_of (map age_data ages.now))) }
{
    let mut values = Vec::new(alloc);
    for age in ages {
        values.push(age_value(*age))?;
    }
    Ok(Value::Array(values))
}

/// In how many rounds an instance had no new sample.
fn age_value(age: u32) -> Value
    ensures { view result ≡ age_data age }
{
    Value::from(age)
}

/// The array of the debts to peers.
fn debts_value(alloc: Global, debts: &[(u32, u32)]) -> Result<Value, AllocError>
    ensures { IfOk result (λ v. view v ≡ array (items_of (map debt_data debts.now))) }
{
    let mut values = Vec::new(alloc);
    for (peer, samples) in debts {
        push_debt(alloc, &mut values, *peer, *samples)?;
    }
    Ok(Value::Array(values))
}

/// Adds how many samples the station owes a peer.
fn push_debt(
    alloc: Global,
    values: &mut Vec<Value>,
    peer: u32,
    samples: u32,
) -> Result<(), AllocError>
    ensures { OnOk result (map view values.new.items ≡ map view values.old.items
        ++ debt_data (peer, samples) ∷ []) }
{
    push(values, json!(in alloc; {"peer": peer, "samples": samples})?)
}

/// The array of what a station says of its targets.
fn targets_value(alloc: Global, targets: &[TargetFigures]) -> Result<Value, AllocError>
    ensures { IfOk result (λ v. view v ≡ array (items_of (map target_data targets.now))) }
{
    let mut values = Vec::new(alloc);
    for target in targets {
        push_target(alloc, &mut values, target)?;
    }
    Ok(Value::Array(values))
}

/// Adds what a station says of a target.
fn push_target(
    alloc: Global,
    values: &mut Vec<Value>,
    target: &TargetFigures,
) -> Result<(), AllocError>
    ensures { OnOk result (map view values.new.items ≡ map view values.old.items
        ++ target_data target.now ∷ []) }
{
    let mut members = Map::new(alloc);
    put_target(alloc, &mut members, target)?;
    push(values, Value::Object(members))
}

/// Puts what a station says of a target into an object without members.
fn put_target(
    alloc: Global,
    members: &mut Map<String, Value>,
    target: &TargetFigures,
) -> Result<(), AllocError>
    requires { members_view members.old.entries ≡ no_members }
    ensures { OnOk result (object (members_view members.new.entries) ≡ target_data target.now) }
{
    put(
        members,
        alloc,
        "address",
        text_value(alloc, target.address.as_str())?,
    )?;
    put(
        members,
        alloc,
        "engine",
        engine_value(alloc, target.engine.as_slice())?,
    )?;
    put_exact(alloc, members, "given_up", u128::from(target.given_up))?;
    put(members, alloc, "number", Value::from(target.number))?;
    put(
        members,
        alloc,
        "refusal",
        refusal_value(alloc, &target.refusal)?,
    )?;
    put(members, alloc, "rounds", Value::from(target.rounds))?;
    put_exact(alloc, members, "seconds", u128::from(target.seconds))?;
    put(members, alloc, "up", Value::from(target.up))
}

/// Returns an engine id in hex digits.
fn engine_value(alloc: Global, engine: &[u8]) -> Result<Value, AllocError>
    ensures { IfOk result (λ v. view v ≡ string (encode_lower engine.now)) }
{
    Ok(Value::String(hex::encode(alloc, engine)?))
}

/// Why a target's last response was refused; null if none was.
fn refusal_value(alloc: Global, refusal: &Option<String>) -> Result<Value, AllocError>
    ensures { IfOk result (λ v. view v ≡ refusal_data refusal.now) }
{
    match refusal {
        None => Ok(Value::Null),
        Some(reason) => text_value(alloc, reason.as_str()),
    }
}

/// Returns a text.
fn text_value(alloc: Global, text: &str) -> Result<Value, AllocError>
    ensures { IfOk result (λ v. view v ≡ string text.now) }
{
    Ok(Value::String(String::from_str(alloc, text)?))
}

/// Adds the bracket of an instance, fresh or stale, and the members before its samples.
fn put_head<S: NameTexts>(
    alloc: Global,
    text: &mut Vec<u8>,
    names: &S,
    entry: &Entry,
    fresh: bool,
) -> Result<(), AllocError>
    ensures text { OnOk result ((rest : Members) → text.new.items ++ members_text true rest
        ≡ text.old.items ++ compact_text (object (member (codes "alarms")
        (array (items_of (map alarm_data (fresh_alarms fresh entry.now.alarms))))
        (member (codes "engine") (string (encode_lower entry.now.engine))
        (member (codes "name") (string (S.shown names.now entry.now.name))
        (member (codes "rate_thousandths") (exact_or_null (fresh_rate fresh entry.now.items))
        rest)))))) }
    ensures sound { OnOk result (IsSound (array (items_of (map alarm_data
        (fresh_alarms fresh entry.now.alarms))))) }
{
    put_value(
        alloc,
        text,
        b"{\"alarms\":",
        alarms_value(alloc, entry, fresh)?,
    )?;
    put_value(
        alloc,
        text,
        b",\"engine\":",
        engine_value(alloc, entry.engine())?,
    )?;
    put_value(alloc, text, b",\"name\":", name_value(alloc, names, entry)?)?;
    put_value(
        alloc,
        text,
        b",\"rate_thousandths\":",
        rate_value(alloc, entry, fresh)?,
    )
}

/// Returns `true` without a station, and of a fresh instance.
fn or_fresh(fresh: Option<bool>) -> bool
    ensures { result ≡ or_fresh fresh }
{
    match fresh {
        None => true,
        Some(fresh) => fresh,
    }
}

/// Adds the members behind the samples of an instance, and its bracket.
fn put_end(alloc: Global, text: &mut Vec<u8>, seen: Seen) -> Result<(), AllocError>
    ensures { OnOk result (text.new.items ≡ text.old.items ++ members_text true
        (with_stale seen.entry.fresh (member (codes "totals")
        (totals_data seen.entry.instance.now.items) no_members))) }
{
    text.extend_from_slice(stale_member(seen.fresh))?;
    put_value(
        alloc,
        text,
        b",\"totals\":",
        totals_value(alloc, seen.instance)?,
    )?;
    text.extend_from_slice(b"}")
}

/// Returns the member, between others, that says if an instance of a running station is stale; an
/// empty text without a station.
fn stale_member(fresh: Option<bool>) -> &'static [u8]
    ensures { (items : List ℕ) → members_text true (with_stale fresh
        (member (codes "totals") (totals_data items) no_members))
        ≡ result.now ++ members_text true (member (codes "totals") (totals_data items) no_members) }
{
    match fresh {
        None => b"",
        Some(true) => b",\"stale\":false",
        Some(false) => b",\"stale\":true",
    }
}

/// Returns the name of an instance, as it is shown.
fn name_value<S: NameTexts>(alloc: Global, names: &S, entry: &Entry) -> Result<Value, AllocError>
    ensures { IfOk result (λ v. view v ≡ string (S.shown names.now entry.now.name)) }
{
    Ok(Value::String(names.text(alloc, entry.name())?))
}

/// The array of the alarms of an instance; of a stale one it is empty.
fn alarms_value(alloc: Global, entry: &Entry, fresh: bool) -> Result<Value, AllocError>
    ensures { IfOk result (λ v. view v ≡ array (items_of (map alarm_data
        (fresh_alarms fresh entry.now.alarms)))) }
{
    if !fresh {
        return array_of_alarms(alloc, &[]);
    }
    let alarms = entry.alarms(alloc)?;
    array_of_alarms(alloc, alarms.as_slice())
}

/// The array of these alarms.
fn array_of_alarms(alloc: Global, alarms: &[Alarm]) -> Result<Value, AllocError>
    ensures { IfOk result (λ v. view v ≡ array (items_of (map alarm_data alarms.now))) }
{
    let mut values = Vec::new(alloc);
    for alarm in alarms {
        push_alarm(alloc, &mut values, alarm)?;
    }
    Ok(Value::Array(values))
}

/// Adds a rule with its thresholds in thousandths, and when its alarm was raised.
fn push_alarm(alloc: Global, values: &mut Vec<Value>, alarm: &Alarm) -> Result<(), AllocError>
    ensures { OnOk result (map view values.new.items ≡ map view values.old.items
        ++ alarm_data alarm.now ∷ []) }
{
    let mut members = Map::new(alloc);
    put_alarm(alloc, &mut members, alarm)?;
    push(values, Value::Object(members))
}

/// Puts a rule and when its alarm was raised into an object without members.
fn put_alarm(
    alloc: Global,
    members: &mut Map<String, Value>,
    alarm: &Alarm,
) -> Result<(), AllocError>
    requires { members_view members.old.entries ≡ no_members }
    ensures { OnOk result (object (members_view members.new.entries) ≡ alarm_data alarm.now) }
{
    put(
        members,
        alloc,
        "falling",
        exact_signed_value(alloc, i128::from(alarm.rule.falling()))?,
    )?;
    put(members, alloc, "raised", raised_value(alloc, alarm.state)?)?;
    put(
        members,
        alloc,
        "rising",
        exact_signed_value(alloc, i128::from(alarm.rule.rising()))?,
    )
}

/// When an alarm was raised; null where it is clear.
fn raised_value(alloc: Global, state: AlarmState) -> Result<Value, AllocError>
    ensures { IfOk result (λ v. view v ≡ raised_data state) }
{
    match state {
        AlarmState::Clear => Ok(Value::Null),
        AlarmState::Raised { boots, time } => { json!(in alloc; {"boots": boots, "time": time}) }
    }
}

/// Adds the samples, as a member behind others.
fn put_samples(text: &mut Vec<u8>, samples: &[Sample]) -> Result<(), AllocError>
    ensures text { OnOk result (text.new.items ≡ text.old.items
        ++ (codes ",\"samples\":"
        ++ compact_text (array (items_of (map sample_data samples.now))))) }
    ensures sound { OnOk result (IsSound (array (items_of (map sample_data samples.now)))) }
{
    text.extend_from_slice(b",\"samples\":[")?;
    let mut later = false;
    for sample in samples {
        put_sample(text, sample, later)?;
        later = true;
    }
    text.extend_from_slice(b"]")
}

/// Adds a sample, after a comma if another precedes it: its stamp, its discontinuity, its kind and
/// the number that its value means.
fn put_sample(text: &mut Vec<u8>, sample: &Sample, later: bool) -> Result<(), AllocError>
    ensures text { OnOk result (text.new.items ≡ text.old.items
        ++ (comma_if later ++ compact_text (sample_data sample.now))) }
    ensures sound { OnOk result (IsSound (sample_data sample.now)) }
{
    put_digits(text, boots_key(later), sample.boots())?;
    text.extend_from_slice(b",\"kind\":\"")?;
    text.extend_from_slice(sample.kind().name().as_bytes())?;
    put_digits(text, b"\",\"mark\":", sample.discontinuity())?;
    put_digits(text, b",\"time\":", sample.time())?;
    put_exact_signed(text, b",\"value\":", sample.number())?;
    text.extend_from_slice(b"}")
}

/// Returns the bracket and the first key of a sample, after a comma if another precedes it.
fn boots_key(later: bool) -> &'static [u8]
    ensures { result.now ≡ comma_if later ++ codes "{\"boots\":" }
{
    if later {
        b",{\"boots\":"
    } else {
        b"{\"boots\":"
    }
}

/// Adds a text, and a whole number with its sign behind it: as a number up to 2^53 on either side
/// of 0, else as a text.
fn put_exact_signed(text: &mut Vec<u8>, before: &[u8], number: i128) -> Result<(), AllocError>
    ensures { OnOk result (text.new.items ≡ text.old.items ++
        (before.now ++ compact_text (exact_signed number))) }
{
    if number.unsigned_abs() <= u128::from(LARGEST_NUMBER) {
        return put_digits(text, before, number as i64);
    }
    text.extend_from_slice(before)?;
    put_digits(text, b"\"", number)?;
    text.extend_from_slice(b"\"")
}

/// Adds a text, and the digits of a number behind it.
fn put_digits<I: Integer>(text: &mut Vec<u8>, before: &[u8], number: I) -> Result<(), AllocError>
    ensures { OnOk result (text.new.items ≡ text.old.items ++ (before.now ++ I.text number)) }
{
    let mut digits = Buffer::new();
    text.extend_from_slice(before)?;
    text.extend_from_slice(digits.format(number).as_bytes())
}

/// The rate of an instance in thousandths; null if there is none, and of a stale instance.
fn rate_value(alloc: Global, entry: &Entry, fresh: bool) -> Result<Value, AllocError>
    ensures { IfOk result (λ v. view v ≡ exact_or_null (fresh_rate fresh entry.now.items)) }
{
    match fresh_rate(entry, fresh) {
        None => Ok(Value::Null),
        Some(rate) => exact_value(alloc, rate),
    }
}

/// How much the counter of an instance counted, and in how many seconds.
fn totals_value(alloc: Global, entry: &Entry) -> Result<Value, AllocError>
    ensures { IfOk result (λ v. view v ≡ totals_data entry.now.items) }
{
    let totals = entry.totals();
    let mut members = Map::new(alloc);
    put_exact(alloc, &mut members, "delta", totals.delta)?;
    put_exact(alloc, &mut members, "span", u128::from(totals.span))?;
    Ok(Value::Object(members))
}

/// A whole number with its sign: as a number up to 2^53 on either side of 0, else as a text.
fn exact_signed_value(alloc: Global, number: i128) -> Result<Value, AllocError>
    ensures { IfOk result (λ v. view v ≡ exact_signed number) }
{
    if number >= 0 {
        return exact_value(alloc, number.unsigned_abs());
    }
    if number >= -i128::from(LARGEST_NUMBER) {
        return Ok(Value::from(number as i64));
    }
    Ok(Value::String(number.to_string(alloc)?))
}

/// A whole number: as a number up to 2^53, else as a text.
fn exact_value(alloc: Global, number: u128) -> Result<Value, AllocError>
    ensures { IfOk result (λ v. view v ≡ exact number) }
{
    if number <= u128::from(LARGEST_NUMBER) {
        return Ok(Value::from(number as u64));
    }
    Ok(Value::String(number.to_string(alloc)?))
}
