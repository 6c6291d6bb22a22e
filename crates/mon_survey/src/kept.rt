//! Whether settings are others with the targets of a further agent.

ghost use Rattle.std.specs.Prelude.{◌≡◌, ◌↔◌, ◌≤◌, IfOk, IsTrue, drop, length, map, not, option_copied, string_bytes, take};
ghost use Rattle.std.specs.List.{AllZip, filter};
ghost use Rattle.mon_settings.specs.StationAccepted.{station_view};
ghost use Rattle.mon_survey.specs.Meant.{alarms_from, is_own};
ghost use Rattle.mon_survey.specs.Appended.{HasAlarms, IsAppended, IsSameObject, IsSameRule, IsSameTarget, KeepsOld, KeepsOthers, KeepsOwn, KeepsRules, KeepsScalars, instance_at, is_on};

use crate::comparing::{Alarm, Wanted, alarms_of, are_targets, is_alarm, is_own};
use mon_alarms::Rule;
use mon_board::{Instance, Watched};
use mon_poller::{Object, Target};
use mon_settings::StationSettings;
use mon_udp::Addr;
use std::alloc::{AllocError, Global};

/// Returns `true` if the objects are the same, their numbers in the watch aside.
fn is_same_object(one: &Object, other: &Object) -> bool
    ensures { IsTrue result ↔ IsSameObject one.now other.now }
{
    one.name == other.name && one.discontinuity == other.discontinuity
}

fn are_same_objects(old: &[Object], new: &[Object]) -> bool
    ensures { IsTrue result ↔ AllZip IsSameObject old.now new.now }
{
    let [one, old @ ..] = old else {
        return new.is_empty();
    };
    let [other, new @ ..] = new else {
        return false;
    };
    is_same_object(one, other) && are_same_objects(old, new)
}

/// Returns `true` if the targets are the same, their objects' numbers aside.
fn is_same_target(one: &Target, other: &Target) -> bool
    ensures { IsTrue result ↔ IsSameTarget one.now other.now }
{
    one.address == other.address
        && one.community.as_slice() == other.community.as_slice()
        && one.engine.as_slice() == other.engine.as_slice()
        && one.tries == other.tries
        && are_same_objects(one.objects.as_slice(), other.objects.as_slice())
}

/// Returns `true` if the new targets begin with the old ones.
pub(crate) fn are_kept_targets(old: &[Target], new: &[Target]) -> bool
    ensures { IsTrue result ↔ AllZip IsSameTarget old.now (take (length old.now) new.now) }
{
    let [one, old @ ..] = old else {
        return true;
    };
    let [other, new @ ..] = new else {
        return false;
    };
    is_same_target(one, other) && are_kept_targets(old, new)
}

fn is_same_watched(one: &Watched, other: &Watched) -> bool
    ensures { IsTrue result ↔ (one.now ≡ other.now) }
{
    *one == *other
}

/// Returns `true` if what is watched is the old ones, the agent's aside.
fn are_kept_instances(engine: &[u8], old: &[Watched], new: &[Watched]) -> bool
    ensures { IsTrue result ↔ AllZip (λ w was. w ≡ was) (filter (λ w. not (is_own engine.now w))
        new.now) old.now }
{
    let [first, rest @ ..] = new else {
        return old.is_empty();
    };
    if is_own(engine, first) {
        return are_kept_instances(engine, old, rest);
    }
    let [one, old @ ..] = old else {
        return false;
    };
    is_same_watched(first, one) && are_kept_instances(engine, old, rest)
}

/// The instance of this number.
pub(crate) fn instance_at(instances: &[Watched], number: u16) -> Option<&Instance>
    ensures { option_copied result ≡ instance_at instances.now number }
{
    match instances.get(usize::from(number)) {
        Some(watched) => Some(&watched.instance),
        None => None,
    }
}

/// Returns `true` if the rule is on an instance of the agent.
fn is_on(engine: &[u8], instances: &[Watched], rule: Rule) -> bool
    ensures { result ≡ is_on engine.now instances.now rule }
{
    match instances.get(usize::from(rule.instance())) {
        Some(watched) => is_own(engine, watched),
        None => false,
    }
}

/// What is watched before the agent's instances came and after it.
#[derive(Clone, Copy)]
struct Watches<'a> {
    engine: &'a [u8],
    old: &'a [Watched],
    new: &'a [Watched],
}

/// Returns `true` if the rules are on the same instance, whatever its number, with the same
/// thresholds.
fn is_same_rule(watches: &Watches<'_>, one: Rule, other: Rule) -> bool
    ensures { IsTrue result ↔ IsSameRule watches.now.old.now watches.now.new.now one other }
{
    instance_at(watches.old, one.instance()) == instance_at(watches.new, other.instance())
        && one.rising() == other.rising()
        && one.falling() == other.falling()
}

/// Returns `true` if the rules are the old ones, those of the agent aside.
fn are_kept_rules(watches: &Watches<'_>, old: &[Rule], new: &[Rule]) -> bool
    ensures { IsTrue result ↔ KeepsRules watches.now.engine.now watches.now.old.now
        watches.now.new.now old.now new.now }
{
    let [first, rest @ ..] = new else {
        return old.is_empty();
    };
    if is_on(watches.engine, watches.new, *first) {
        return are_kept_rules(watches, old, rest);
    }
    let [one, old @ ..] = old else {
        return false;
    };
    is_same_rule(watches, *one, *first) && are_kept_rules(watches, old, rest)
}

/// Returns `true` if those of the rules that are the agent's are the alarms.
fn are_own_alarms(watches: &Watches<'_>, rules: &[Rule], alarms: &[Alarm]) -> bool
    ensures { IsTrue result ↔ HasAlarms watches.now.engine.now watches.now.new.now rules.now
        alarms.now }
{
    let [first, rest @ ..] = rules else {
        return alarms.is_empty();
    };
    if !is_on(watches.engine, watches.new, *first) {
        return are_own_alarms(watches, rest, alarms);
    }
    let [alarm, alarms @ ..] = alarms else {
        return false;
    };
    is_alarm(*first, *alarm) && are_own_alarms(watches, rest, alarms)
}

fn is_same_text(one: &String, other: &String) -> bool
    ensures { IsTrue result ↔ (string_bytes one.now ≡ string_bytes other.now) }
{
    one.as_str() == other.as_str()
}

fn are_same_texts(old: &[String], new: &[String]) -> bool
    ensures { IsTrue result ↔ AllZip (λ a b. a ≡ b) (map string_bytes old.now)
        (map string_bytes new.now) }
{
    let [one, old @ ..] = old else {
        return new.is_empty();
    };
    let [other, new @ ..] = new else {
        return false;
    };
    is_same_text(one, other) && are_same_texts(old, new)
}

fn is_same_address(one: Addr, other: Addr) -> bool
    ensures { IsTrue result ↔ (one ≡ other) }
{
    one == other
}

fn are_same_addresses(old: &[Addr], new: &[Addr]) -> bool
    ensures { IsTrue result ↔ AllZip (λ a b. a ≡ b) old.now new.now }
{
    let [one, old @ ..] = old else {
        return new.is_empty();
    };
    let [other, new @ ..] = new else {
        return false;
    };
    is_same_address(*one, *other) && are_same_addresses(old, new)
}

fn are_same_numbers(old: &[u32], new: &[u32]) -> bool
    ensures { IsTrue result ↔ (old.now ≡ new.now) }
{
    old == new
}

/// Returns `true` if the modules and the peers with their addresses are the same.
fn are_kept_others(old: &StationSettings, new: &StationSettings) -> bool
    ensures { IsTrue result ↔ KeepsOthers (station_view old.now) (station_view new.now) }
{
    if !are_same_texts(old.modules.as_slice(), new.modules.as_slice()) {
        return false;
    }
    if !are_same_numbers(old.core.peers(), new.core.peers()) {
        return false;
    }
    are_same_addresses(old.peer_addresses.as_slice(), new.peer_addresses.as_slice())
}

/// Returns `true` if what is outside of targets and alarms is the same: the station's own number,
/// address, file and wait, the modules, and the peers.
pub(crate) fn are_kept_scalars(old: &StationSettings, new: &StationSettings) -> bool
    ensures { IsTrue result ↔ KeepsScalars (station_view old.now) (station_view new.now) }
{
    old.core.station() == new.core.station()
        && is_same_address(old.listen, new.listen)
        && is_same_text(&old.file, &new.file)
        && old.wait_ms == new.wait_ms
        && are_kept_others(old, new)
}

/// The targets from a place on.
pub(crate) fn after(targets: &[Target], count: usize) -> &[Target]
    ensures { result.now ≡ drop count targets.now }
{
    if count > targets.len() {
        return &[];
    }
    &targets[count..]
}

/// Returns `true` if what is not the agent's stays.
fn is_kept(watches: &Watches<'_>, old: &StationSettings, new: &StationSettings) -> bool
    requires old { watches.now.old.now ≡ (station_view old.now).core.watch.instances }
    requires new { watches.now.new.now ≡ (station_view new.now).core.watch.instances }
    ensures { IsTrue result ↔ KeepsOld watches.now.engine.now (station_view old.now)
        (station_view new.now) }
{
    if !are_kept_scalars(old, new) {
        return false;
    }
    if !are_kept_targets(old.core.targets(), new.core.targets()) {
        return false;
    }
    are_kept_instances(watches.engine, watches.old, watches.new)
        && are_kept_rules(watches, old.core.watch().rules(), new.core.watch().rules())
}

/// Returns `true` if those of the rules that are the agent's are the alarms on its instances.
fn has_own_alarms(
    alloc: Global,
    wanted: &Wanted<'_>,
    watches: &Watches<'_>,
    rules: &[Rule],
) -> Result<bool, AllocError>
    requires { wanted.now.options.now.percent ≤ 100 }
    ensures { IfOk result (λ are. IsTrue are ↔ HasAlarms watches.now.engine.now watches.now.new.now
        rules.now (alarms_from wanted.now.engine.now wanted.now.answers.now
        wanted.now.options.now.percent 0 watches.now.new.now)) }
{
    let alarms = alarms_of(alloc, wanted, watches.new)?;
    Ok(are_own_alarms(watches, rules, &alarms))
}

/// Returns `true` if the new settings are the old ones with the agent's targets and alarms.
pub(crate) fn is_appended(
    alloc: Global,
    wanted: &Wanted<'_>,
    old: &StationSettings,
    new: &StationSettings,
) -> Result<bool, AllocError>
    requires few { length wanted.now.planned.now ≤ 256 }
    requires percent { wanted.now.options.now.percent ≤ 100 }
    ensures { IfOk result (λ is. IsTrue is ↔ IsAppended wanted.now.options.now wanted.now.engine.now
        wanted.now.answers.now wanted.now.planned.now (station_view old.now) (station_view new.now)) }
{
    let watches = Watches {
        engine: wanted.engine,
        old: old.core.watch().instances(),
        new: new.core.watch().instances(),
    };
    let added = after(new.core.targets(), old.core.targets().len());
    let targets = are_targets(alloc, wanted, added)?;
    let alarms = has_own_alarms(alloc, wanted, &watches, new.core.watch().rules())?;
    Ok(is_kept(&watches, old, new) && targets && alarms)
}
