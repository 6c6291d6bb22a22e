//! Whether settings that were read are those that were meant.

ghost use Rattle.std.specs.Prelude.{◌≡◌, ◌↔◌, ◌≤◌, ◌++◌, [], All, IfOk, IsTrue, OnOk, Some, length, map, string_bytes};
ghost use Rattle.std.specs.List.{AllZip, flat_map};
ghost use Rattle.std.specs.Option.{option_to_list};
ghost use Rattle.mon_settings.specs.StationAccepted.{station_view};
ghost use Rattle.mon_udp.specs.Addr.{addr_of};
ghost use Rattle.mon_survey.specs.Column.{cell_name, spot_of};
ghost use Rattle.mon_survey.specs.Meant.{ArePeers, AreScalars, AreTargets, IsAgent, IsAlarm, IsCounter, IsMeant, IsSized, IsSmall, alarm_on, alarms_from, at_cell, at_watched, is_own, mark_of};

use crate::answers::Answers;
use crate::column::{Column, Spot};
use crate::counter::Planned;
use crate::drafting::AgentPlan;
use crate::moving::add;
use crate::options::{Options, Peer};
use crate::planning::thresholds_at;
use crate::size::{TargetSize, targets_for};
use mon_alarms::Rule;
use mon_board::Watched;
use mon_oid::Oid;
use mon_poller::{Object, Target};
use mon_settings::StationSettings;
use mon_udp::Addr;
use std::alloc::{AllocError, Global};

/// What settings are compared with.
#[derive(Clone, Copy)]
pub(crate) struct Wanted<'a> {
    pub(crate) options: &'a Options<'a>,
    pub(crate) engine: &'a [u8],
    pub(crate) answers: &'a Answers,
    pub(crate) planned: &'a [Planned],
}

impl<'a> Wanted<'a> {
    /// What is planned of the agent.
    pub(crate) fn agent_plan(&self) -> AgentPlan<'a>
        ensures { (result.options.now ≡ self.now.options.now)
            × (result.engine.now ≡ self.now.engine.now) × (result.planned.now
            ≡ self.now.planned.now) }
    {
        AgentPlan {
            options: self.options,
            engine: self.engine,
            planned: self.planned,
        }
    }
}

/// An alarm on an instance, with its thresholds in thousandths.
#[derive(Clone, Copy)]
pub struct Alarm {
    /// The number of the instance.
    pub instance: usize,
    /// The rising threshold.
    pub rising: u64,
    /// The falling threshold.
    pub falling: u64,
}

/// Returns `true` if the text writes the address.
fn is_address(address: Addr, text: &str) -> bool
    ensures { IsTrue result ↔ (addr_of text.now ≡ Some address) }
{
    match Addr::parse(text) {
        Some(other) => other == address,
        None => false,
    }
}

/// Returns `true` if the name is that of the cell.
fn is_cell(name: &Oid, column: Column, index: u32) -> bool
    ensures { IsTrue result ↔ (name.now ≡ cell_name column index) }
{
    match column {
        Column::If(number) => name.parts() == [1, 3, 6, 1, 2, 1, 2, 2, 1, number, index].as_slice(),
        Column::IfX(number) => name.parts()
            == [1, 3, 6, 1, 2, 1, 31, 1, 1, 1, number, index].as_slice(),
    }
}

/// Returns `true` if the object is the counter, with the interface's mark, or none where it has
/// none.
fn is_counter(answers: &Answers, object: &Object, one: Planned) -> bool
    ensures { IsTrue result ↔ IsCounter answers.now object.now one }
{
    if !is_cell(&object.name, one.column(), one.index) {
        return false;
    }
    match &object.discontinuity {
        Some(mark) => answers.is_marked(one.index) && is_cell(mark, Column::IfX(19), one.index),
        None => !answers.is_marked(one.index),
    }
}

/// Returns `true` if the objects are the counters.
fn are_counters(answers: &Answers, objects: &[Object], planned: &[Planned]) -> bool
    ensures { IsTrue result ↔ AllZip (IsCounter answers.now) objects.now planned.now }
{
    if objects.len() != planned.len() {
        return false;
    }
    for (place, one) in planned.iter().enumerate() {
        if !is_counter(answers, &objects[place], *one) {
            return false;
        }
    }
    true
}

/// Adds copies of objects.
fn add_objects(alloc: Global, all: &mut Vec<Object>, objects: &[Object]) -> Result<(), AllocError>
    ensures { OnOk result (all.new.items ≡ all.old.items ++ objects.now) }
{
    for object in objects {
        all.push(object.try_clone(alloc)?)?;
    }
    Ok(())
}

/// Copies of the objects of all targets, in their order.
fn objects_of(alloc: Global, targets: &[Target]) -> Result<Vec<Object>, AllocError>
    ensures { IfOk result (λ v. v.items ≡ flat_map (λ t. t.objects) targets.now) }
{
    let mut all = Vec::new(alloc);
    for target in targets {
        add_objects(alloc, &mut all, target.objects.as_slice())?;
    }
    Ok(all)
}

/// Returns `true` if the targets are the agent.
fn are_agents(wanted: &Wanted<'_>, targets: &[Target]) -> bool
    ensures { IsTrue result ↔ All (IsAgent wanted.now.options.now wanted.now.engine.now)
        targets.now }
{
    let options = wanted.options;
    targets.iter().all(|target| {
        is_address(target.address, options.address)
            && target.community.as_slice() == options.community.as_bytes()
            && target.engine.as_slice() == wanted.engine
            && target.tries == options.tries
    })
}

/// Returns `true` if no target has more objects than the size allows.
fn are_small(size: TargetSize, targets: &[Target]) -> bool
    ensures { IsTrue result ↔ All (IsSmall size) targets.now }
{
    targets
        .iter()
        .all(|target| target.objects.as_slice().len() <= size.objects())
}

/// Returns `true` if the targets are those that were meant.
pub(crate) fn are_targets(
    alloc: Global,
    wanted: &Wanted<'_>,
    targets: &[Target],
) -> Result<bool, AllocError>
    requires { length wanted.now.planned.now ≤ 256 }
    ensures { IfOk result (λ are. IsTrue are ↔ AreTargets wanted.now.options.now
        wanted.now.engine.now wanted.now.answers.now wanted.now.planned.now targets.now) }
{
    let objects = objects_of(alloc, targets)?;
    let size = wanted.options.size;
    Ok(
        are_agents(wanted, targets)
            && are_counters(wanted.answers, &objects, wanted.planned)
            && are_small(size, targets)
            && targets.len() == targets_for(size, wanted.planned),
    )
}

/// Returns `true` if the instance is the agent's.
pub(crate) fn is_own(engine: &[u8], watched: &Watched) -> bool
    ensures { result ≡ is_own engine.now watched.now }
{
    watched.instance.engine.as_slice() == engine
}

/// The alarm on the instance of this number, if it is a counter of octets of the agent whose
/// interface gives thresholds.
fn alarm_on(wanted: &Wanted<'_>, number: usize, watched: &Watched) -> Option<Alarm>
    requires { wanted.now.options.now.percent ≤ 100 }
    ensures { result ≡ alarm_on number (at_watched wanted.now.engine.now wanted.now.answers.now
        wanted.now.options.now.percent watched.now) }
{
    if !is_own(wanted.engine, watched) {
        return None;
    }
    let Spot::Cell(Column::If(10 | 16) | Column::IfX(6 | 10), index) = Spot::of(
        &watched.instance.name,
    ) else {
        return None;
    };
    let at = thresholds_at(wanted.answers, wanted.options.percent, index)?;
    Some(Alarm {
        instance: number,
        rising: at.rising,
        falling: at.falling,
    })
}

/// The alarms on all instances.
pub(crate) fn alarms_of(
    alloc: Global,
    wanted: &Wanted<'_>,
    instances: &[Watched],
) -> Result<Vec<Alarm>, AllocError>
    requires { wanted.now.options.now.percent ≤ 100 }
    ensures { IfOk result (λ v. v.items ≡ alarms_from wanted.now.engine.now wanted.now.answers.now
        wanted.now.options.now.percent 0 instances.now) }
{
    let mut alarms = Vec::new(alloc);
    for (number, watched) in instances.iter().enumerate() {
        add(&mut alarms, alarm_on(wanted, number, watched))?;
    }
    Ok(alarms)
}

/// Returns `true` if the rule is the alarm.
pub(crate) fn is_alarm(rule: Rule, alarm: Alarm) -> bool
    ensures { IsTrue result ↔ IsAlarm rule alarm }
{
    usize::from(rule.instance()) == alarm.instance
        && i128::from(rule.rising()) == i128::from(alarm.rising)
        && i128::from(rule.falling()) == i128::from(alarm.falling)
}

/// Returns `true` if the rules are the alarms.
fn are_alarms(rules: &[Rule], alarms: &[Alarm]) -> bool
    ensures { IsTrue result ↔ AllZip IsAlarm rules.now alarms.now }
{
    if rules.len() != alarms.len() {
        return false;
    }
    for (place, alarm) in alarms.iter().enumerate() {
        if !is_alarm(rules[place], *alarm) {
            return false;
        }
    }
    true
}

/// Returns `true` if the rules are the alarms on all instances.
fn has_alarms(
    alloc: Global,
    wanted: &Wanted<'_>,
    rules: &[Rule],
    instances: &[Watched],
) -> Result<bool, AllocError>
    requires { wanted.now.options.now.percent ≤ 100 }
    ensures { IfOk result (λ are. IsTrue are ↔ AllZip IsAlarm rules.now
        (alarms_from wanted.now.engine.now wanted.now.answers.now wanted.now.options.now.percent 0
        instances.now)) }
{
    let alarms = alarms_of(alloc, wanted, instances)?;
    Ok(are_alarms(rules, &alarms))
}

/// Returns `true` if the numbers are those of the peers.
fn are_numbered(numbers: &[u32], peers: &[Peer]) -> bool
    ensures { IsTrue result ↔ AllZip (λ n p. n ≡ p.station) numbers.now peers.now }
{
    if numbers.len() != peers.len() {
        return false;
    }
    for (place, peer) in peers.iter().enumerate() {
        if numbers[place] != peer.station {
            return false;
        }
    }
    true
}

/// Returns `true` if the addresses are those of the peers.
fn are_placed(addresses: &[Addr], peers: &[Peer]) -> bool
    ensures { IsTrue result ↔ AllZip (λ a p. addr_of (string_bytes p.address) ≡ Some a)
        addresses.now peers.now }
{
    if addresses.len() != peers.len() {
        return false;
    }
    for (place, peer) in peers.iter().enumerate() {
        if !is_address(addresses[place], peer.address.as_str()) {
            return false;
        }
    }
    true
}

/// Returns `true` if the peers are those of the options.
fn are_peers(peers: &[Peer], numbers: &[u32], addresses: &[Addr]) -> bool
    ensures { IsTrue result ↔ ArePeers peers.now numbers.now addresses.now }
{
    are_numbered(numbers, peers) && are_placed(addresses, peers)
}

/// Returns `true` if the windows have the size of the options.
fn are_sized(options: &Options<'_>, instances: &[Watched]) -> bool
    ensures { IsTrue result ↔ All (IsSized options.now) instances.now }
{
    let window = options.window as usize;
    instances.iter().all(|watched| watched.window == window && watched.epoch == window)
}

fn is_module(text: &String, file: &str) -> bool
    ensures { IsTrue result ↔ (string_bytes text.now ≡ file.now) }
{
    text.as_str() == file
}

/// Returns `true` if the texts are the modules' files.
fn are_modules(texts: &[String], modules: &[&str]) -> bool
    ensures { IsTrue result ↔ AllZip (λ text m. text ≡ m.now) (map string_bytes texts.now)
        modules.now }
{
    let [text, texts @ ..] = texts else {
        return modules.is_empty();
    };
    let [module, modules @ ..] = modules else {
        return false;
    };
    is_module(text, module) && are_modules(texts, modules)
}

/// Returns `true` if what is outside of the lists is that of the options.
fn are_scalars(options: &Options<'_>, station: &StationSettings) -> bool
    ensures { IsTrue result ↔ AreScalars options.now (station_view station.now) }
{
    station.core.station() == options.station
        && is_address(station.listen, options.listen)
        && station.file.as_bytes() == options.file.as_bytes()
        && station.wait_ms == options.wait_ms
        && are_modules(station.modules.as_slice(), options.modules)
}

/// Returns `true` if the settings are those that were meant.
pub(crate) fn is_meant(
    alloc: Global,
    wanted: &Wanted<'_>,
    station: &StationSettings,
) -> Result<bool, AllocError>
    requires few { length wanted.now.planned.now ≤ 256 }
    requires percent { wanted.now.options.now.percent ≤ 100 }
    ensures { IfOk result (λ is. IsTrue is ↔ IsMeant wanted.now.options.now wanted.now.engine.now
        wanted.now.answers.now wanted.now.planned.now (station_view station.now)) }
{
    let options = wanted.options;
    let instances = station.core.watch().instances();
    let targets = are_targets(alloc, wanted, station.core.targets())?;
    let alarms = has_alarms(alloc, wanted, station.core.watch().rules(), instances)?;
    Ok(
        are_scalars(options, station)
            && targets
            && are_sized(options, instances)
            && alarms
            && are_peers(
                options.peers,
                station.core.peers(),
                station.peer_addresses.as_slice(),
            ),
    )
}
