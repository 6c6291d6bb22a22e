//! The settings of a station.

ghost use Rattle.std.specs.Prelude.{◌≡◌, ◌≤◌, IfErr, IfOk, length, map};
ghost use Rattle.std.specs.List.Sorted.{IsStrictlySortedBy};
ghost use Rattle.mon_settings.specs.Watching.{object_from, target_from, watched_cmp};
ghost use Rattle.mon_settings.specs.Keys.{Reads};
ghost use Rattle.mon_settings.specs.Resolving.{resolution};
ghost use Rattle.mon_settings.specs.Station.{rules_at, scalars_of, scalars_view, station_of};
ghost use Rattle.mon_settings.specs.StationAccepted.{IsStation, core_from, station_view};
ghost use Rattle.mon_config.specs.StationCore.{IsCore};
ghost use Rattle.mon_settings.specs.Text.{IsReadAs, IsRefusal, Says};
ghost use Rattle.toml.specs.View.{table_view};

use crate::fault::{Read, SettingsFault, given};
use crate::grammar::{SettingsKind, top_keys};
use crate::key::Key;
use crate::label::{Label, labels_of};
use crate::leaf::Reader;
use crate::modules::modules_at;
use crate::peers::{addresses_of, peers_at, stations_of};
use crate::placing::{instances_of, number_of, rules_of};
use crate::sizes::Sizes;
use crate::station_tables::{AlarmRow, Around, ObjectRow, PeerRow, TargetRow};
use crate::text::tree;
use mon_alarms::Rule;
use mon_ber::Octets;
use mon_board::{Watch, Watched};
use mon_config::Core;
use mon_poller::{Object, Objects, Target};
use mon_smi::Names;
use mon_udp::Addr;
use std::alloc::{AllocError, Global};

/// The settings of a station.
#[derive(Drop)]
pub struct StationSettings {
    /// Its number, what it watches, whom it polls, and its peers.
    pub core: Core,
    /// Where it listens for its peers and for responses.
    pub listen: Addr,
    /// What an operator calls it, 1 to 64 octets, if the settings say so.
    pub label: Option<String>,
    /// The path of its saved file, at most 4095 octets.
    pub file: String,
    /// How long nothing must come before a wait times out, 1 to 60000 milliseconds.
    pub wait_ms: u32,
    /// The paths of the modules that give names, at most 256 of at most 4095 octets each.
    pub modules: Vec<String>,
    /// Where the peers are reached, in the order of the core's peers.
    pub peer_addresses: Vec<Addr>,
    /// What an operator calls each target, 1 to 64 octets, in the order of the core's targets.
    pub target_labels: Vec<Option<String>>,
}

/// What is outside of the lists.
#[derive(Drop)]
pub(crate) struct Scalars {
    pub(crate) station: u32,
    pub(crate) listen: Addr,
    pub(crate) file: String,
    pub(crate) sizes: Sizes,
    pub(crate) wait_ms: u32,
    pub(crate) label: Option<Label>,
}

#[tactic(auto, unfolding(crate::specs::Station::scalars_of))]
fn read_scalars(reader: &Reader<'_>) -> Read<Scalars>
    ensures gives { Reads scalars_view (scalars_of (table_view reader.now.table.now)) result }
    ensures station { IfOk result (λ s. 1 ≤ s.station) }
{
    let station = given!(reader.number(Key::Station, 1, 4294967295)) as u32;
    let listen = given!(reader.addr(Key::Listen));
    let file = given!(reader.text(Key::File, 0, 4095));
    let window = given!(reader.number(Key::Window, 1, 64)) as usize;
    let epoch = given!(reader.size_or(Key::Epoch, window, window));
    let wait_ms = given!(reader.number(Key::WaitMs, 1, 60000)) as u32;
    let label = given!(reader.label());
    Ok(Scalars {
        station,
        listen,
        file: String::from_str(reader.alloc, file)?,
        sizes: Sizes { window, epoch },
        wait_ms,
        label,
    })
}

/// An object, with the number of its instance.
fn object_from(
    alloc: Global,
    instances: &[Watched],
    engine: &Octets,
    object: &ObjectRow,
) -> Result<Object, AllocError>
    requires few { length instances.now ≤ 256 }
    requires rising { IsStrictlySortedBy watched_cmp instances.now }
    ensures { IfOk result (λ o. o ≡ object_from instances.now engine.now object.now) }
{
    let number = number_of(instances, engine.as_slice(), &object.name).unwrap_or(0);
    let discontinuity = match &object.discontinuity {
        Some(name) => Some(name.try_clone(alloc)?),
        None => None,
    };
    Ok(Object {
        instance: number as u16,
        name: object.name.try_clone(alloc)?,
        discontinuity,
    })
}

fn objects_from(
    alloc: Global,
    instances: &[Watched],
    engine: &Octets,
    objects: &[ObjectRow],
) -> Result<Vec<Object>, AllocError>
    requires few { length instances.now ≤ 256 }
    requires rising { IsStrictlySortedBy watched_cmp instances.now }
    ensures { IfOk result (λ v. v.items ≡ map (object_from instances.now engine.now) objects.now) }
{
    let mut numbered = Vec::with_capacity(alloc, objects.len())?;
    for object in objects {
        numbered.push(object_from(alloc, instances, engine, object)?)?;
    }
    Ok(numbered)
}

/// A target, with its objects' numbers.
fn target_from(
    alloc: Global,
    instances: &[Watched],
    target: &TargetRow,
) -> Result<Target, AllocError>
    requires few { length instances.now ≤ 256 }
    requires rising { IsStrictlySortedBy watched_cmp instances.now }
    ensures { IfOk result (λ t. t ≡ target_from instances.now target.now) }
{
    let objects = objects_from(alloc, instances, &target.engine, target.objects.as_slice())?;
    Ok(Target {
        address: target.address,
        community: target.community.try_clone(alloc)?,
        engine: target.engine.try_clone(alloc)?,
        tries: target.tries,
        objects: Objects::new(objects),
    })
}

fn targets_from(
    alloc: Global,
    instances: &[Watched],
    targets: &[TargetRow],
) -> Result<Vec<Target>, AllocError>
    requires few { length instances.now ≤ 256 }
    requires rising { IsStrictlySortedBy watched_cmp instances.now }
    ensures { IfOk result (λ v. v.items ≡ map (target_from instances.now) targets.now) }
{
    let mut numbered = Vec::with_capacity(alloc, targets.len())?;
    for target in targets {
        numbered.push(target_from(alloc, instances, target)?)?;
    }
    Ok(numbered)
}

/// The core of the station with this number. An `Err` means out of memory.
fn core_from(
    alloc: Global,
    station: u32,
    targets: &[TargetRow],
    peers: &[PeerRow],
    instances: Vec<Watched>,
    rules: Vec<Rule>,
) -> Result<Core, AllocError>
    requires few { length instances.items ≤ 256 }
    requires rising { IsStrictlySortedBy watched_cmp instances.items }
    requires core { IsCore (core_from station targets.now peers.now instances.items rules.items) }
    ensures { IfOk result (λ c. c ≡ core_from station targets.now peers.now instances.items
        rules.items) }
{
    let numbered = targets_from(alloc, instances.as_slice(), targets)?;
    let numbers = stations_of(alloc, peers)?;
    let Ok(watch) = Watch::new(instances, rules) else {
        unreachable!()
    };
    Ok(Core::new(station, watch, numbered, numbers))
}

/// The alarm rules, in the order of a watch.
#[tactic(auto, unfolding(crate::specs::Station::rules_at))]
fn rules_at(reader: &Reader<'_>, around: &Around<'_>, instances: &[Watched]) -> Read<Vec<Rule>>
    requires few { length instances.now ≤ 256 }
    requires rising { IsStrictlySortedBy watched_cmp instances.now }
    ensures { Reads (λ v. v.items) (rules_at (resolution around.now.names.now) around.now.sizes
        instances.now (table_view reader.now.table.now)) result }
{
    let alarms: Vec<AlarmRow> = given!(reader.rows_or_none(around, Key::Alarm, 256));
    rules_of(reader.alloc, instances, alarms.as_slice())
}

#[tactic(auto, unfolding(crate::specs::Station::station_of))]
fn read_tree(reader: &Reader<'_>, names: &Names) -> Read<StationSettings>
    ensures { Reads station_view (station_of (resolution names.now)
        (table_view reader.now.table.now)) result }
{
    given!(reader.only(top_keys(SettingsKind::Station)));
    let scalars = given!(read_scalars(reader));
    let around = Around {
        names,
        sizes: scalars.sizes,
    };
    let modules = given!(modules_at(reader));
    let targets: Vec<TargetRow> = given!(reader.rows(&around, Key::Target, 1, 64));
    let instances = given!(instances_of(reader.alloc, targets.as_slice()));
    let peers = given!(peers_at(reader, scalars.station, targets.as_slice()));
    let rules = given!(rules_at(reader, &around, instances.as_slice()));
    let peer_addresses = addresses_of(reader.alloc, peers.as_slice())?;
    let target_labels = labels_of(reader.alloc, targets.as_slice())?;
    let core = core_from(
        reader.alloc,
        scalars.station,
        targets.as_slice(),
        peers.as_slice(),
        instances,
        rules,
    )?;
    Ok(StationSettings {
        core,
        listen: scalars.listen,
        label: scalars.label.map(Label::into_string),
        file: scalars.file,
        wait_ms: scalars.wait_ms,
        modules,
        peer_addresses,
        target_labels,
    })
}

/// Reads a station's settings from a text in TOML 1.1, in which objects have the names of these
/// modules.
///
/// The keys, in the order in which they are read: `station` 1 to 4294967295; `listen`; `file`, at
/// most 4095 octets; `window`, 1 to 64 samples; `epoch`, 1 to the window, which it is where it is
/// left out; `wait_ms` 1 to 60000; `label`, 1 to 64 octets, which may be left out, as that of a
/// target; and the lists `modules` (may be left out) of at most 256 texts, `target` of 1 to 64
/// tables, `peer` (may be left out) of at most 15 and `alarm` (may be left out) of at most 256. In
/// each table unknown keys are refused first. What two lists have to agree on is tested once the
/// later one was read.
///
/// # Errors
/// The first fault: `NotToml`; `UnknownKey` with the place of the table; `Missing`, `BadValue` and
/// `UnknownObject`, for a name that does not resolve, with the place of the key; `OutOfMemory`.
pub fn read_station(
    alloc: Global,
    text: &str,
    names: &Names,
) -> Result<StationSettings, SettingsFault>
    // Memory aside, settings are read exactly where the text is a station's, and then they are what
    // it says.
    ensures accepted { IsReadAs station_view (Says (IsStation names.now) text.now) result }
    ensures refused { IfErr result (IsRefusal (station_of (resolution names.now)) text.now) }
{
    names.invariants();
    crate::laws::resolving();
    match tree(alloc, text) {
        Ok(table) => read_tree(
            &Reader {
                alloc,
                table: &table,
            },
            names,
        ),
        Err(fault) => Err(fault),
    }
}
