//! The text of a station's settings.

ghost use Rattle.std.specs.Prelude.{◌≡◌, ◌⊎◌, ◌≤◌, ◌<◌, ◌++◌, length, Err, Ok, IfErr, IfOk, OnOk, string_bytes};
ghost use Rattle.std.specs.List.{flat_map};
ghost use Rattle.hex.specs.Hex.{encode_lower};
ghost use Rattle.mon_survey.specs.Text.{added_text, addition_of, alarm_text, alarms_text, closing, draft_of, object_text, objects_from, opening, peer_text, placed_text, settings_text, targets_text};

use crate::counter::Planned;
use crate::fault::SurveyFault;
use crate::options::{Options, Peer};
use crate::size::TargetSize;
use crate::writing::{Naming, put_alarm, put_head, put_modules, put_object, put_peer, put_target};
use mon_smi::NameTexts;
use std::alloc::AllocError;

/// Adds what comes before an object: before the first of each target its head.
fn put_opening(
    text: &mut String,
    options: &Options<'_>,
    engine: &str,
    place: usize,
) -> Result<(), AllocError>
    ensures { OnOk result (string_bytes text.new ≡ string_bytes text.old
        ++ opening options.now engine.now place) }
{
    if place % options.size.objects() == 0 {
        put_target(text, options, engine)
    } else {
        Ok(())
    }
}

/// Adds what comes after an object: the end of the list after the last of each target, and after
/// the last of all.
fn put_closing(
    text: &mut String,
    size: TargetSize,
    count: usize,
    place: usize,
) -> Result<(), AllocError>
    requires { place < count }
    ensures { OnOk result (string_bytes text.new ≡ string_bytes text.old
        ++ closing size count place) }
{
    if (place + 1) % size.objects() == 0 || place + 1 == count {
        text.push_str("]\n")
    } else {
        Ok(())
    }
}

/// What is the same for all objects of a text.
#[derive(Drop)]
struct Around<'a, S> {
    shown: &'a Naming<'a, S>,
    options: &'a Options<'a>,
    engine: &'a str,
    count: usize,
}

/// Adds an object with what is around it.
#[tactic(auto, unfolding(crate::specs::Text::placed_text))]
fn put_placed<S: NameTexts>(
    text: &mut String,
    around: &Around<'_, S>,
    place: usize,
    one: Planned,
) -> Result<(), AllocError>
    requires { place < around.now.count }
    ensures { OnOk result (string_bytes text.new ≡ string_bytes text.old
        ++ placed_text (S.shown around.now.shown.now.names.now) around.now.options.now
        around.now.engine.now around.now.shown.now.answers.now around.now.count place one) }
{
    put_opening(text, around.options, around.engine, place)?;
    put_object(text, around.shown, one)?;
    put_closing(text, around.options.size, around.count, place)
}

/// Adds the targets.
fn put_objects<S: NameTexts>(
    text: &mut String,
    around: &Around<'_, S>,
    planned: &[Planned],
) -> Result<(), AllocError>
    requires { length planned.now ≡ around.now.count }
    ensures { OnOk result (string_bytes text.new ≡ string_bytes text.old
        ++ objects_from (S.shown around.now.shown.now.names.now) around.now.options.now
        around.now.engine.now around.now.shown.now.answers.now around.now.count 0 planned.now) }
{
    for (place, one) in planned.iter().enumerate() {
        put_placed(text, around, place, *one)?;
    }
    Ok(())
}

/// Adds the peers.
fn put_peers(text: &mut String, peers: &[Peer]) -> Result<(), AllocError>
    ensures { OnOk result (string_bytes text.new ≡ string_bytes text.old
        ++ flat_map peer_text peers.now) }
{
    for peer in peers {
        put_peer(text, peer)?;
    }
    Ok(())
}

/// Adds the alarms.
fn put_alarms<S: NameTexts>(
    text: &mut String,
    shown: &Naming<'_, S>,
    percent: u8,
    engine: &str,
    planned: &[Planned],
) -> Result<(), AllocError>
    requires { percent ≤ 100 }
    ensures { OnOk result (string_bytes text.new ≡ string_bytes text.old
        ++ flat_map (alarm_text (S.shown shown.now.names.now) shown.now.answers.now percent
        engine.now) planned.now) }
{
    for one in planned {
        put_alarm(text, shown, percent, engine, *one)?;
    }
    Ok(())
}

/// What is planned of an agent.
#[derive(Clone, Copy)]
pub(crate) struct AgentPlan<'a> {
    pub(crate) options: &'a Options<'a>,
    pub(crate) engine: &'a [u8],
    pub(crate) planned: &'a [Planned],
}

/// Adds the targets of an agent.
fn put_targets<S: NameTexts>(
    text: &mut String,
    shown: &Naming<'_, S>,
    plan: &AgentPlan<'_>,
    engine: &str,
) -> Result<(), AllocError>
    requires { engine.now ≡ encode_lower plan.now.engine.now }
    ensures { OnOk result (string_bytes text.new ≡ string_bytes text.old
        ++ targets_text (S.shown shown.now.names.now) plan.now.options.now plan.now.engine.now
        shown.now.answers.now plan.now.planned.now) }
{
    let around = Around {
        shown,
        options: plan.options,
        engine,
        count: plan.planned.len(),
    };
    put_objects(text, &around, plan.planned)
}

/// Adds the text of a station's settings.
#[tactic(auto, unfolding(crate::specs::Text::settings_text))]
fn put_settings<S: NameTexts>(
    text: &mut String,
    shown: &Naming<'_, S>,
    plan: &AgentPlan<'_>,
    engine: &str,
) -> Result<(), AllocError>
    requires percent { plan.now.options.now.percent ≤ 100 }
    requires engine { engine.now ≡ encode_lower plan.now.engine.now }
    ensures { OnOk result (string_bytes text.new ≡ string_bytes text.old
        ++ settings_text (S.shown shown.now.names.now) plan.now.options.now plan.now.engine.now
        shown.now.answers.now plan.now.planned.now) }
{
    put_head(text, plan.options)?;
    put_modules(text, plan.options.modules)?;
    put_targets(text, shown, plan, engine)?;
    put_peers(text, plan.options.peers)?;
    put_alarms(text, shown, plan.options.percent, engine, plan.planned)
}

/// Adds the targets of an agent and their alarms to settings.
#[tactic(auto, unfolding(crate::specs::Text::added_text))]
fn put_addition<S: NameTexts>(
    text: &mut String,
    shown: &Naming<'_, S>,
    plan: &AgentPlan<'_>,
    engine: &str,
) -> Result<(), AllocError>
    requires percent { plan.now.options.now.percent ≤ 100 }
    requires engine { engine.now ≡ encode_lower plan.now.engine.now }
    ensures { OnOk result (string_bytes text.new ≡ added_text (S.shown shown.now.names.now)
        (string_bytes text.old) plan.now.options.now plan.now.engine.now shown.now.answers.now
        plan.now.planned.now) }
{
    put_targets(text, shown, plan, engine)?;
    put_alarms(text, shown, plan.options.percent, engine, plan.planned)
}

/// Returns the text of the settings of a station that polls these counters of an agent.
///
/// # Errors
/// `BadText` where an option's text has a quote, a backslash or an octet outside 20 to 7E;
/// `OutOfMemory`.
pub(crate) fn draft<S: NameTexts>(
    shown: &Naming<'_, S>,
    plan: &AgentPlan<'_>,
) -> Result<String, SurveyFault>
    requires { plan.now.options.now.percent ≤ 100 }
    ensures gives { IfOk result (λ text. draft_of (S.shown shown.now.names.now) plan.now.options.now
        plan.now.engine.now shown.now.answers.now plan.now.planned.now ≡ Ok (string_bytes text)) }
    ensures fault { IfErr result (λ e. (e ≡ SurveyFault.OutOfMemory)
        ⊎ (draft_of (S.shown shown.now.names.now) plan.now.options.now plan.now.engine.now
        shown.now.answers.now plan.now.planned.now ≡ Err e)) }
{
    if !plan.options.are_plain() {
        return Err(SurveyFault::BadText);
    }
    let digits = hex::encode(shown.alloc, plan.engine)?;
    let mut text = String::new(shown.alloc);
    put_settings(&mut text, shown, plan, digits.as_str())?;
    Ok(text)
}

/// Returns settings with the targets of an agent and their alarms at their end.
///
/// # Errors
/// Those of `draft`.
pub(crate) fn addition<S: NameTexts>(
    shown: &Naming<'_, S>,
    plan: &AgentPlan<'_>,
    settings: &str,
) -> Result<String, SurveyFault>
    requires { plan.now.options.now.percent ≤ 100 }
    ensures gives { IfOk result (λ text. addition_of (S.shown shown.now.names.now) settings.now
        plan.now.options.now plan.now.engine.now shown.now.answers.now plan.now.planned.now
        ≡ Ok (string_bytes text)) }
    ensures fault { IfErr result (λ e. (e ≡ SurveyFault.OutOfMemory)
        ⊎ (addition_of (S.shown shown.now.names.now) settings.now plan.now.options.now
        plan.now.engine.now shown.now.answers.now plan.now.planned.now ≡ Err e)) }
{
    if !plan.options.are_plain() {
        return Err(SurveyFault::BadText);
    }
    let digits = hex::encode(shown.alloc, plan.engine)?;
    let mut text = String::from_str(shown.alloc, settings)?;
    put_addition(&mut text, shown, plan, digits.as_str())?;
    Ok(text)
}
