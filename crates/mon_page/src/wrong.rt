//! The list of what is wrong now.

ghost use Rattle.std.specs.Prelude.{◌≡◌, ◌++◌, ◌&&◌, IfOk, None, OnOk, Some, is_some, option_map};
ghost use Rattle.std.specs.List.{flat_map};
ghost use Rattle.mon_display.specs.Interface.{interface_of};
ghost use Rattle.mon_page.specs.Escape.{escaped};
ghost use Rattle.mon_page.specs.Page.{alarm_item, alarm_place, down_item, failed_item, interface_before, label_of, or_nothing, peer_item, raised_alarms, raised_if, raised_of, raised_on, reason_text, row_of_engine, saves_item, silent_item, since_text, since_words, station_items, target_item, target_words, wrong_items, wrong_section};
ghost use Rattle.mon_page.specs.Words.{is_counted};

use crate::escape::put_escaped;
use crate::figures::{Figures, PeerFigures, TargetFigures};
use crate::numbers::{put_large, put_small};
use crate::plot::put_limit_words;
use crate::row::Row;
use crate::words::{is_counted, put_device_words, put_interface_words, put_now};
use mon_alarms::AlarmState;
use mon_display::device_text;
use mon_report::Alarm;
use mon_smi::NameTexts;
use std::alloc::{AllocError, Global};
use std::marker::Model;

/// An alarm that is raised, with its instance.
#[derive(Drop)]
pub(crate) struct RaisedAlarm<'r, 'a, 'e> {
    row: &'r Row<'a, 'e>,
    alarm: Alarm,
}

impl<'r, 'a, 'e> Model for RaisedAlarm<'r, 'a, 'e> {
    ghost use Rattle.mon_page.specs.Page.{RaisedAlarm};

    ghost Value = { RaisedAlarm };

    ghost view = { λ a. record { row = a.row.now; alarm = a.alarm } };
}

/// Returns the raised alarms of instances.
pub(crate) fn raised_alarms<'r, 'a, 'e>(
    alloc: Global,
    rows: &'r [Row<'a, 'e>],
) -> Result<Vec<RaisedAlarm<'r, 'a, 'e>>, AllocError>
    ensures { IfOk result (λ found. found.items ≡ raised_alarms rows.now) }
{
    let mut found = Vec::new(alloc);
    for row in rows {
        push_alarms(alloc, &mut found, row)?;
    }
    Ok(found)
}

/// Adds the raised alarms of an instance, unless it is stale.
fn push_alarms<'r, 'a, 'e>(
    alloc: Global,
    found: &mut Vec<RaisedAlarm<'r, 'a, 'e>>,
    row: &'r Row<'a, 'e>,
) -> Result<(), AllocError>
    ensures { OnOk result (found.new.items ≡ found.old.items ++ raised_of row.now) }
{
    if !row.is_fresh() {
        return Ok(());
    }
    let alarms = row.entry().alarms(alloc)?;
    push_raised(found, row, alarms.as_slice())
}

/// Adds those of these alarms of an instance that are raised.
fn push_raised<'r, 'a, 'e>(
    found: &mut Vec<RaisedAlarm<'r, 'a, 'e>>,
    row: &'r Row<'a, 'e>,
    alarms: &[Alarm],
) -> Result<(), AllocError>
    ensures { OnOk result (found.new.items ≡ found.old.items ++ raised_on row.now alarms.now) }
{
    for alarm in alarms {
        push_if_raised(found, row, *alarm)?;
    }
    Ok(())
}

/// Adds an alarm of an instance, if it is raised.
fn push_if_raised<'r, 'a, 'e>(
    found: &mut Vec<RaisedAlarm<'r, 'a, 'e>>,
    row: &'r Row<'a, 'e>,
    alarm: Alarm,
) -> Result<(), AllocError>
    ensures { OnOk result (found.new.items ≡ found.old.items ++ raised_if row.now alarm) }
{
    if alarm.state.is_raised() {
        found.push(RaisedAlarm { row, alarm })?;
    }
    Ok(())
}

/// Adds the list of what is wrong.
#[tactic(auto, unfolding(crate::specs::Page::wrong_section))]
pub(crate) fn put_wrong<S: NameTexts>(
    alloc: Global,
    text: &mut Vec<u8>,
    names: &S,
    rows: &[Row],
    station: Option<&Figures>,
) -> Result<(), AllocError>
    ensures { OnOk result (text.new.items ≡ text.old.items ++ wrong_section (S.shown names.now)
        rows.now (option_map (λ f. f.now) station.entry)) }
{
    text.extend_from_slice(b"<section id=\"wrong\">\n<h2>What is wrong now</h2>\n<ul>\n")?;
    put_items_or_nothing(alloc, text, names, rows, station)?;
    text.extend_from_slice(b"</ul>\n</section>\n")
}

/// Adds all that is wrong, or a line that says that nothing is.
fn put_items_or_nothing<S: NameTexts>(
    alloc: Global,
    text: &mut Vec<u8>,
    names: &S,
    rows: &[Row],
    station: Option<&Figures>,
) -> Result<(), AllocError>
    ensures { OnOk result (text.new.items ≡ text.old.items ++ or_nothing
        (wrong_items (S.shown names.now) rows.now (option_map (λ f. f.now) station.entry))) }
{
    let mut items = Vec::new(alloc);
    put_items(alloc, &mut items, names, rows, station)?;
    if items.is_empty() {
        text.extend_from_slice(b"<li>Nothing is wrong.</li>\n")
    } else {
        text.extend_from_slice(items.as_slice())
    }
}

/// Adds all that is wrong.
#[tactic(auto, unfolding(crate::specs::Page::wrong_items))]
fn put_items<S: NameTexts>(
    alloc: Global,
    text: &mut Vec<u8>,
    names: &S,
    rows: &[Row],
    station: Option<&Figures>,
) -> Result<(), AllocError>
    ensures { OnOk result (text.new.items ≡ text.old.items ++ wrong_items (S.shown names.now)
        rows.now (option_map (λ f. f.now) station.entry)) }
{
    put_alarms(alloc, text, names, rows)?;
    put_station_items(alloc, text, rows, station)
}

/// Adds the lines of raised alarms.
fn put_alarms<S: NameTexts>(
    alloc: Global,
    text: &mut Vec<u8>,
    names: &S,
    rows: &[Row],
) -> Result<(), AllocError>
    ensures { OnOk result (text.new.items ≡ text.old.items ++ flat_map
        (alarm_item (S.shown names.now)) (raised_alarms rows.now)) }
{
    let alarms = raised_alarms(alloc, rows)?;
    put_alarm_items(alloc, text, names, alarms.as_slice())
}

/// Adds the lines of these alarms.
fn put_alarm_items<S: NameTexts>(
    alloc: Global,
    text: &mut Vec<u8>,
    names: &S,
    alarms: &[RaisedAlarm],
) -> Result<(), AllocError>
    ensures { OnOk result (text.new.items ≡ text.old.items ++ flat_map
        (alarm_item (S.shown names.now)) alarms.now) }
{
    for alarm in alarms {
        put_alarm(alloc, text, names, alarm)?;
    }
    Ok(())
}

/// Adds the line of an alarm.
#[tactic(auto, unfolding(crate::specs::Page::alarm_item))]
fn put_alarm<S: NameTexts>(
    alloc: Global,
    text: &mut Vec<u8>,
    names: &S,
    raised: &RaisedAlarm,
) -> Result<(), AllocError>
    ensures { OnOk result (text.new.items ≡ text.old.items ++ alarm_item (S.shown names.now)
        raised.now) }
{
    put_alarm_place(alloc, text, names, raised.row)?;
    text.extend_from_slice(b": ")?;
    put_now(alloc, text, raised.row)?;
    text.extend_from_slice(b", limit ")?;
    let counted = is_counted(raised.row.entry().samples());
    put_limit_words(
        alloc,
        text,
        raised.row.column(),
        counted,
        &raised.alarm.rule,
    )?;
    text.extend_from_slice(b", since ")?;
    put_since(text, raised.alarm.state)?;
    text.extend_from_slice(b"</li>\n")
}

/// Adds the stamp of the sample that raised an alarm.
fn put_since(text: &mut Vec<u8>, state: AlarmState) -> Result<(), AllocError>
    ensures { OnOk result (text.new.items ≡ text.old.items ++ since_words state) }
{
    let AlarmState::Raised { boots, time } = state else {
        return Ok(());
    };
    put_small(text, boots)?;
    text.extend_from_slice(b":")?;
    put_small(text, time)
}

/// Adds which instance an alarm is on.
#[tactic(auto, unfolding(crate::specs::Page::alarm_place))]
fn put_alarm_place<S: NameTexts>(
    alloc: Global,
    text: &mut Vec<u8>,
    names: &S,
    row: &Row,
) -> Result<(), AllocError>
    ensures { OnOk result (text.new.items ≡ text.old.items ++ alarm_place (S.shown names.now)
        row.now) }
{
    text.extend_from_slice(b"<li class=\"RAISED\"><b>RAISED</b> ")?;
    put_device_words(alloc, text, row)?;
    text.extend_from_slice(b" ")?;
    put_interface_before(text, row)?;
    put_shown(alloc, text, names, row)
}

/// Adds the interface of an instance and a space, if it is of one.
fn put_interface_before(text: &mut Vec<u8>, row: &Row) -> Result<(), AllocError>
    ensures { OnOk result (text.new.items ≡ text.old.items ++ interface_before
        row.now.labels.if_name (interface_of row.now.entry.name)) }
{
    let Some(index) = row.index() else {
        return Ok(());
    };
    put_interface_words(text, row.if_name(), index)?;
    text.extend_from_slice(b" ")
}

/// Adds the name of an instance.
pub(crate) fn put_shown<S: NameTexts>(
    alloc: Global,
    text: &mut Vec<u8>,
    names: &S,
    row: &Row,
) -> Result<(), AllocError>
    ensures { OnOk result (text.new.items ≡ text.old.items ++ flat_map escaped
        (S.shown names.now row.now.entry.name)) }
{
    let name = names.text(alloc, row.entry().name())?;
    put_escaped(text, name.as_bytes())
}

/// Adds what is wrong with a station's targets, its peers and its file.
fn put_station_items(
    alloc: Global,
    text: &mut Vec<u8>,
    rows: &[Row],
    station: Option<&Figures>,
) -> Result<(), AllocError>
    ensures { OnOk result (text.new.items ≡ text.old.items ++ station_items rows.now
        (option_map (λ f. f.now) station.entry)) }
{
    let Some(figures) = station else {
        return Ok(());
    };
    put_targets(alloc, text, rows, figures.targets.as_slice())?;
    put_peers(text, figures.peers.as_slice())?;
    put_saves(text, figures.failed_saves)
}

/// Adds a line for each target that is down.
fn put_targets(
    alloc: Global,
    text: &mut Vec<u8>,
    rows: &[Row],
    targets: &[TargetFigures],
) -> Result<(), AllocError>
    ensures { OnOk result (text.new.items ≡ text.old.items ++ flat_map (down_item rows.now)
        targets.now) }
{
    for target in targets {
        put_down(alloc, text, rows, target)?;
    }
    Ok(())
}

/// Adds the line of a target, if it is down.
#[tactic(auto, unfolding(crate::specs::Page::target_item))]
fn put_down(
    alloc: Global,
    text: &mut Vec<u8>,
    rows: &[Row],
    target: &TargetFigures,
) -> Result<(), AllocError>
    ensures { OnOk result (text.new.items ≡ text.old.items ++ down_item rows.now target.now) }
{
    if target.up {
        return Ok(());
    }
    text.extend_from_slice(b"<li class=\"down\">")?;
    put_target_words(alloc, text, rows, target)?;
    put_since_down(text, target)?;
    put_reason(text, &target.refusal)?;
    text.extend_from_slice(b"</li>\n")
}

/// Adds where the agent of a target is reached, and the label of its device.
fn put_target_words(
    alloc: Global,
    text: &mut Vec<u8>,
    rows: &[Row],
    target: &TargetFigures,
) -> Result<(), AllocError>
    ensures { OnOk result (text.new.items ≡ text.old.items ++ target_words rows.now target.now) }
{
    let label = label_of(row_of_engine(target.engine.as_slice(), rows));
    let words = device_text(alloc, Some(target.address.as_str()), label)?;
    put_escaped(text, words.as_bytes())
}

/// Returns the label of an instance's device, if there is an instance.
fn label_of<'a>(row: Option<&Row<'a, '_>>) -> Option<&'a str>
    ensures { option_map (λ l. l.now) result ≡ label_of (option_map (λ r. r.now) row.entry) }
{
    match row {
        None => None,
        Some(row) => row.device(),
    }
}

/// Returns the instance whose labels name the device of an engine id.
fn row_of_engine<'r, 'a, 'e>(engine: &[u8], rows: &'r [Row<'a, 'e>]) -> Option<&'r Row<'a, 'e>>
    ensures { option_map (λ r. r.now) result ≡ row_of_engine engine.now rows.now }
{
    rows.iter()
        .find(|row| row.device().is_some() && row.is_of(engine))
}

/// Adds since when a target is down.
#[tactic(auto, unfolding(crate::specs::Page::since_text))]
fn put_since_down(text: &mut Vec<u8>, target: &TargetFigures) -> Result<(), AllocError>
    ensures { OnOk result (text.new.items ≡ text.old.items ++ since_text target.now) }
{
    text.extend_from_slice(b" is down, answered ")?;
    put_large(text, target.seconds)?;
    text.extend_from_slice(b" s ago, ")?;
    put_small(text, target.rounds)?;
    text.extend_from_slice(b" rounds ago")
}

/// Adds why a target's last response was refused, if one was.
fn put_reason(text: &mut Vec<u8>, reason: &Option<String>) -> Result<(), AllocError>
    ensures { OnOk result (text.new.items ≡ text.old.items ++ reason_text reason.now) }
{
    let Some(reason) = reason else {
        return Ok(());
    };
    text.extend_from_slice(b": ")?;
    put_escaped(text, reason.as_bytes())
}

/// Adds a line for each peer that is silent.
fn put_peers(text: &mut Vec<u8>, peers: &[PeerFigures]) -> Result<(), AllocError>
    ensures { OnOk result (text.new.items ≡ text.old.items ++ flat_map peer_item peers.now) }
{
    for peer in peers {
        put_peer(text, peer)?;
    }
    Ok(())
}

/// Adds the line of a peer, if it is silent.
#[tactic(auto, unfolding(crate::specs::Page::silent_item))]
fn put_peer(text: &mut Vec<u8>, peer: &PeerFigures) -> Result<(), AllocError>
    ensures { OnOk result (text.new.items ≡ text.old.items ++ peer_item peer.now) }
{
    if !peer.silent {
        return Ok(());
    }
    text.extend_from_slice(b"<li class=\"down\">peer ")?;
    put_small(text, peer.station)?;
    text.extend_from_slice(b" is silent, heard ")?;
    put_small(text, peer.rounds)?;
    text.extend_from_slice(b" rounds ago</li>\n")
}

/// Adds the line of failed saves, if there are any.
#[tactic(auto, unfolding(crate::specs::Page::failed_item))]
fn put_saves(text: &mut Vec<u8>, failed: u64) -> Result<(), AllocError>
    ensures { OnOk result (text.new.items ≡ text.old.items ++ saves_item failed) }
{
    if failed == 0 {
        return Ok(());
    }
    text.extend_from_slice(b"<li class=\"down\">")?;
    put_large(text, failed)?;
    text.extend_from_slice(b" saves failed</li>\n")
}
