//! The text of a change of an alarm.

ghost use Rattle.std.specs.Prelude.{◌≡◌, IfOk, option_map, slice_get, string_bytes};
ghost use Rattle.std.specs.Fmt.{signed_decimal};
ghost use Rattle.mon_notify.specs.Labels.{alarm_words};
ghost use Rattle.mon_notify.specs.Texts.{alarm_text, end_of, identity, identity_of, instance_text, text_at, words_by};

use crate::changes::{AlarmLabels, alarm_labels};
use crate::known::device_of;
use crate::scene::{Scene, station_text};
use crate::webhook::{Notice, message};
use httpdate::HttpDate;
use mon_alarms::{AlarmChange, AlarmEvent, Rule};
use mon_board::Instance;
use mon_page::InstanceLabels;
use mon_smi::NameTexts;
use std::alloc::{AllocError, Global};

/// Texts of an alarm's labels.
#[derive(Drop)]
struct Texts {
    engine: String,
    name: String,
    rising: String,
    falling: String,
    station: String,
}

/// What became of an alarm, in a line for people, and when.
#[derive(Clone, Copy)]
struct Turn<'a> {
    summary: &'a str,
    starts_at: HttpDate,
    ends_at: Option<HttpDate>,
}

/// An instance, its labels, if there are any, and a rule on it.
#[derive(Clone, Copy)]
struct Subject<'a> {
    instance: &'a Instance,
    labels: Option<&'a InstanceLabels>,
    rule: &'a Rule,
    /// The number of the station.
    station: u32,
}

/// Returns the text of a change of an alarm of the scene's board: the object of `message`, as JSON.
/// The labels are the engine id in hex digits, the name as it is shown, the thresholds in
/// thousandths, the station's number, and the device, target, ifName and ifAlias if the instance
/// has them. The summary is a line for people. It starts at the scene's date, and ends at it unless
/// the alarm was raised.
///
/// The text is empty if the watch has no such rule or does not have the rule's instance.
///
/// # Errors
/// `AllocError` if there is no memory for it.
pub fn alarm_message<S: NameTexts>(
    alloc: Global,
    names: &S,
    scene: Scene<'_>,
    change: &AlarmChange,
    summary: &str,
) -> Result<Vec<u8>, AllocError>
    ensures { IfOk result (λ t. t.items ≡ alarm_text (S.shown names.now) scene.entry.board.now
        scene.entry.labels.now scene.entry.station summary.now scene.entry.date change.now) }
{
    let Some(rule) = scene.board.watch().rules().get(change.rule) else {
        return Ok(Vec::new(alloc));
    };
    let turn = Turn {
        summary,
        starts_at: scene.date,
        ends_at: end_of(change.event, scene.date),
    };
    rule_message(alloc, names, scene, rule, turn)
}

/// Returns when an alarm ended that changed at this date, if it did.
fn end_of(event: AlarmEvent, date: HttpDate) -> Option<HttpDate>
    ensures { result ≡ end_of event date }
{
    match event {
        AlarmEvent::Raised { .. } => None,
        AlarmEvent::Cleared { .. } | AlarmEvent::Lapsed => Some(date),
    }
}

/// Returns the text of what became of a rule's alarm.
fn rule_message<S: NameTexts>(
    alloc: Global,
    names: &S,
    scene: Scene<'_>,
    rule: &Rule,
    turn: Turn<'_>,
) -> Result<Vec<u8>, AllocError>
    ensures { IfOk result (λ t. t.items ≡ text_at (S.shown names.now)
        (slice_get scene.entry.board.now.watch.instances rule.now.instance)
        (slice_get scene.entry.labels.now rule.now.instance) rule.now scene.entry.station
        turn.entry.summary.now turn.entry.starts_at turn.entry.ends_at) }
{
    let place = usize::from(rule.instance());
    let Some(watched) = scene.board.watch().instances().get(place) else {
        return Ok(Vec::new(alloc));
    };
    let subject = Subject {
        instance: &watched.instance,
        labels: scene.labels.get(place),
        rule,
        station: scene.station,
    };
    instance_message(alloc, names, subject, turn)
}

/// Returns the text of what became of an alarm on an instance.
#[tactic(auto, unfolding(crate::specs::Texts::instance_text))]
fn instance_message<S: NameTexts>(
    alloc: Global,
    names: &S,
    subject: Subject<'_>,
    turn: Turn<'_>,
) -> Result<Vec<u8>, AllocError>
    ensures { IfOk result (λ t. t.items ≡ instance_text (S.shown names.now)
        subject.entry.instance.now (option_map (λ l. l.now) subject.entry.labels)
        subject.entry.rule.now subject.entry.station turn.entry.summary.now turn.entry.starts_at
        turn.entry.ends_at) }
{
    let texts = texts_of(
        alloc,
        names,
        subject.instance,
        subject.rule,
        subject.station,
    )?;
    let change = labels_in(&texts, subject.labels);
    let labels = alarm_labels(alloc, &change)?;
    message(
        alloc,
        &Notice {
            labels: labels.as_slice(),
            summary: turn.summary,
            starts_at: turn.starts_at,
            ends_at: turn.ends_at,
        },
    )
}

/// Returns the texts of the labels of an instance and of a rule on it.
fn texts_of<S: NameTexts>(
    alloc: Global,
    names: &S,
    instance: &Instance,
    rule: &Rule,
    station: u32,
) -> Result<Texts, AllocError>
    ensures { IfOk result (λ t. identity t ≡ identity_of (S.shown names.now) instance.now rule.now
        station) }
{
    Ok(Texts {
        engine: hex::encode(alloc, instance.engine.as_slice())?,
        name: names.text(alloc, &instance.name)?,
        rising: threshold_text(alloc, rule.rising())?,
        falling: threshold_text(alloc, rule.falling())?,
        station: station_text(alloc, station)?,
    })
}

/// Returns a threshold in decimal.
fn threshold_text(alloc: Global, threshold: i64) -> Result<String, AllocError>
    ensures { IfOk result (λ t. string_bytes t ≡ signed_decimal threshold) }
{
    let mut text = String::new(alloc);
    write!(text, "{threshold}")?;
    Ok(text)
}

/// Returns what these texts and the labels of an instance say.
fn labels_in<'a>(texts: &'a Texts, labels: Option<&'a InstanceLabels>) -> AlarmLabels<'a>
    ensures { alarm_words result ≡ words_by (identity texts.now)
        (option_map (λ l. l.now) labels.entry) }
{
    AlarmLabels {
        engine: texts.engine.as_str(),
        name: texts.name.as_str(),
        device: device_of(labels),
        target: labels.and_then(|labels| labels.target.as_deref()),
        if_name: labels.and_then(|labels| labels.if_name.as_deref()),
        if_alias: labels.and_then(|labels| labels.if_alias.as_deref()),
        rising: texts.rising.as_str(),
        falling: texts.falling.as_str(),
        station: texts.station.as_str(),
    }
}
