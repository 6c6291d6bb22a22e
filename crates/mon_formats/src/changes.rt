//! The line of an alarm that changed.

ghost use Rattle.std.specs.Prelude.{◌≡◌, ◌++◌, ◌≤ℤ◌, ◌^◌, pos, Some, IfOk, IfSome, OnOk, option_copied, option_map, string_bytes};
ghost use Rattle.std.specs.Int.Signed.{le_z};
ghost use Rattle.std.specs.List.{find};
ghost use Rattle.hex.specs.Hex.{encode_lower};
ghost use Rattle.mon_alarms.specs.Observed.{observations_from, observed, rate_from};
ghost use Rattle.mon_display.specs.Rate.{rate_text};
ghost use Rattle.mon_formats.specs.Changes.{change_line, device_of, event_end, event_word, fraction_text, instance_text, interface_of, is_at, is_by, is_octets, level_by, limit_of, limit_text, line_on, measure_of, measured, number_text, object_of, subject_text, thousandths_text, value_text, values_text};
ghost use Rattle.mon_page.specs.Cells.{newest_of};

use crate::prometheus::instance::{at_first_dot, is_in_numbers};
use mon_alarms::{AlarmChange, AlarmEvent, Rule};
use mon_board::{Board, Instance};
use mon_display::{Column, Unit, column_of, device_text, interface_text, rate_text};
use mon_page::InstanceLabels;
use mon_rates::{Totals, is_counter};
use mon_sample::Sample;
use mon_smi::NameTexts;
use std::alloc::{AllocError, Global};

/// How the values of an instance are shown.
#[derive(Clone, Copy)]
enum Measure {
    /// In bits a second.
    Bits,
    /// As a number a second.
    Each,
    /// As they are.
    Plain,
}

/// An instance with its labels and the samples of its window, the oldest first.
#[derive(Clone, Copy)]
struct Subject<'a> {
    instance: &'a Instance,
    labels: Option<&'a InstanceLabels>,
    samples: &'a [Sample],
}

/// What became of the alarm of a rule.
#[derive(Clone, Copy)]
struct Turn<'a> {
    rule: &'a Rule,
    event: AlarmEvent,
}

/// Returns the line of a change of a board's alarms, without its end: `ALARM raised: `, the device,
/// the interface and the object, the value that was observed, the threshold, and by which sample.
/// The labels are those of the board's instances, in their order. It is empty if the watch has no
/// such rule, and has no value if the window does not have that sample any more.
///
/// # Errors
/// `AllocError` if there is no memory for it.
pub fn alarm_line<S: NameTexts>(
    alloc: Global,
    names: &S,
    board: &Board,
    labels: &[InstanceLabels],
    change: &AlarmChange,
) -> Result<String, AllocError>
    ensures { IfOk result (λ text. string_bytes text ≡ change_line (S.shown names.now) board.now
        labels.now change.now) }
{
    let Some(rule) = board.watch().rules().get(change.rule) else {
        return Ok(String::new(alloc));
    };
    let number = rule.instance();
    let place = usize::from(number);
    let Some(watched) = board.watch().instances().get(place) else {
        return Ok(String::new(alloc));
    };
    let subject = Subject {
        instance: &watched.instance,
        labels: labels.get(place),
        samples: board.items(number),
    };
    let turn = Turn {
        rule,
        event: change.event,
    };
    line_on(alloc, names, subject, turn)
}

/// Returns an instance's engine id in hex digits, a blank and its name.
pub fn instance_text<S: NameTexts>(
    alloc: Global,
    names: &S,
    instance: &Instance,
) -> Result<String, AllocError>
    ensures { IfOk result (λ text. string_bytes text ≡ instance_text (S.shown names.now)
        instance.now) }
{
    let mut text = String::new(alloc);
    put_instance(alloc, &mut text, names, instance)?;
    Ok(text)
}

/// Adds an instance's engine id in hex digits, a blank and its name.
fn put_instance<S: NameTexts>(
    alloc: Global,
    text: &mut String,
    names: &S,
    instance: &Instance,
) -> Result<(), AllocError>
    ensures { OnOk result (string_bytes text.new ≡ string_bytes text.old
        ++ instance_text (S.shown names.now) instance.now) }
{
    put_engine(alloc, text, instance.engine.as_slice())?;
    text.push_str(" ")?;
    let name = names.text(alloc, &instance.name)?;
    text.push_str(name.as_str())
}

/// Adds an engine id in hex digits.
fn put_engine(alloc: Global, text: &mut String, engine: &[u8]) -> Result<(), AllocError>
    ensures { OnOk result (string_bytes text.new
        ≡ string_bytes text.old ++ encode_lower engine.now) }
{
    let digits = hex::encode(alloc, engine)?;
    text.push_str(digits.as_str())
}

/// Returns the line of what became of the alarm of a rule on an instance.
#[tactic(auto, unfolding(crate::specs::Changes::line_on))]
fn line_on<S: NameTexts>(
    alloc: Global,
    names: &S,
    subject: Subject<'_>,
    turn: Turn<'_>,
) -> Result<String, AllocError>
    ensures { IfOk result (λ text. string_bytes text ≡ line_on (S.shown names.now)
        subject.entry.instance.now (option_map (λ l. l.now) subject.entry.labels)
        subject.entry.samples.now turn.entry.rule.now turn.entry.event) }
{
    let mut text = String::from_str(alloc, event_word(turn.event))?;
    put_subject(alloc, &mut text, names, subject)?;
    let column = column_of(subject.instance.name.parts());
    let measure = measure_of(column, subject.samples);
    put_values(alloc, &mut text, measure, subject.samples, turn)?;
    put_end(&mut text, turn.event)?;
    Ok(text)
}

/// Returns what became of an alarm, as a line begins with it.
fn event_word<'a>(event: AlarmEvent) -> &'a str
    ensures { result.now ≡ event_word event }
{
    match event {
        AlarmEvent::Raised { .. } => "ALARM raised: ",
        AlarmEvent::Cleared { .. } | AlarmEvent::Lapsed => "ALARM cleared: ",
    }
}

/// Adds by which sample an alarm was raised or cleared.
fn put_end(text: &mut String, event: AlarmEvent) -> Result<(), AllocError>
    ensures { OnOk result (string_bytes text.new ≡ string_bytes text.old ++ event_end event) }
{
    match event {
        AlarmEvent::Raised { boots, time } => write!(text, ", sample {boots}:{time}"),
        AlarmEvent::Cleared { boots, time } => write!(text, ", sample {boots}:{time}"),
        AlarmEvent::Lapsed => text.push_str(", its samples are gone"),
    }
}

/// Adds an instance: its device, and then its interface and its object.
#[tactic(auto, unfolding(crate::specs::Changes::subject_text))]
fn put_subject<S: NameTexts>(
    alloc: Global,
    text: &mut String,
    names: &S,
    subject: Subject<'_>,
) -> Result<(), AllocError>
    ensures { OnOk result (string_bytes text.new ≡ string_bytes text.old
        ++ subject_text (S.shown names.now) subject.entry.instance.now
        (option_map (λ l. l.now) subject.entry.labels)) }
{
    put_device(
        alloc,
        text,
        subject.instance.engine.as_slice(),
        subject.labels,
    )?;
    text.push_str(" ")?;
    let name = names.text(alloc, &subject.instance.name)?;
    put_interface(alloc, text, name.as_str(), subject.labels)
}

/// Adds the device of an instance: at the address and with the label that its labels have, or the
/// engine id if they have neither.
fn put_device(
    alloc: Global,
    text: &mut String,
    engine: &[u8],
    labels: Option<&InstanceLabels>,
) -> Result<(), AllocError>
    ensures { OnOk result (string_bytes text.new ≡ string_bytes text.old
        ++ device_of engine.now (option_map (λ l. l.now) labels.entry)) }
{
    let Some(labels) = labels else {
        return put_engine(alloc, text, engine);
    };
    if labels.target.is_none() && labels.device.is_none() {
        return put_engine(alloc, text, engine);
    }
    let device = device_text(alloc, labels.target.as_deref(), labels.device.as_deref())?;
    text.push_str(device.as_str())
}

/// Adds the interface of an instance by its labels and the object of its name as it is shown, or
/// the name if they have no ifName.
fn put_interface(
    alloc: Global,
    text: &mut String,
    name: &str,
    labels: Option<&InstanceLabels>,
) -> Result<(), AllocError>
    ensures { OnOk result (string_bytes text.new ≡ string_bytes text.old
        ++ interface_of name.now (option_map (λ l. l.now) labels.entry)) }
{
    let Some(labels) = labels else {
        return text.push_str(name);
    };
    if labels.if_name.is_none() {
        return text.push_str(name);
    }
    let interface = interface_text(alloc, labels.if_name.as_deref(), labels.if_alias.as_deref())?;
    text.push_str(interface.as_str())?;
    text.push_str(" ")?;
    text.push_str(object_of(name))
}

/// Returns the object of a name as it is shown: without its index if it is shown by modules.
fn object_of(name: &str) -> &str
    ensures { result.now ≡ object_of name.now }
{
    if is_in_numbers(name) {
        return name;
    }
    at_first_dot(name).0
}

/// Adds the value by which an alarm was raised or cleared, if the samples still have it, and its
/// limit.
#[tactic(auto, unfolding(crate::specs::Changes::values_text))]
fn put_values(
    alloc: Global,
    text: &mut String,
    measure: Measure,
    samples: &[Sample],
    turn: Turn<'_>,
) -> Result<(), AllocError>
    ensures { OnOk result (string_bytes text.new ≡ string_bytes text.old
        ++ values_text measure samples.now turn.entry.rule.now turn.entry.event) }
{
    let level = level_by(turn.rule, turn.event, None, samples);
    put_value(alloc, text, measure, level)?;
    put_limit(alloc, text, measure, limit_of(turn.rule, turn.event))
}

/// Returns the threshold that was reached.
fn limit_of(rule: &Rule, event: AlarmEvent) -> i64
    ensures { result ≡ limit_of rule.now event }
{
    match event {
        AlarmEvent::Raised { .. } => rule.rising(),
        AlarmEvent::Cleared { .. } | AlarmEvent::Lapsed => rule.falling(),
    }
}

/// Adds the value by which an alarm was raised or cleared, if it is known.
fn put_value(
    alloc: Global,
    text: &mut String,
    measure: Measure,
    level: Option<i128>,
) -> Result<(), AllocError>
    requires { IfSome level (λ z. z ≤ℤ pos (2 ^ 100)) }
    ensures { OnOk result (string_bytes text.new ≡ string_bytes text.old
        ++ value_text measure level) }
{
    let Some(level) = level else {
        return Ok(());
    };
    text.push_str(" ")?;
    put_measured(alloc, text, measure, level)
}

/// Adds a limit.
fn put_limit(
    alloc: Global,
    text: &mut String,
    measure: Measure,
    limit: i64,
) -> Result<(), AllocError>
    ensures { OnOk result (string_bytes text.new ≡ string_bytes text.old
        ++ limit_text measure limit) }
{
    text.push_str(" (limit ")?;
    put_measured(alloc, text, measure, i128::from(limit))?;
    text.push_str(")")
}

/// Returns `true` if a column counts octets.
fn is_octets(column: Column) -> bool
    ensures { result ≡ is_octets column }
{
    matches!(column, Column::InOctets | Column::OutOctets)
}

/// Returns how values of a column are shown, by the kind of the newest sample; without one the
/// column decides.
fn measure_of(column: Column, samples: &[Sample]) -> Measure
    ensures { result ≡ measure_of column (newest_of samples.now) }
{
    let Some(newest) = samples.last() else {
        return if is_octets(column) {
            Measure::Bits
        } else {
            Measure::Plain
        };
    };
    if !is_counter(newest.kind()) {
        return Measure::Plain;
    }
    if is_octets(column) {
        return Measure::Bits;
    }
    Measure::Each
}

/// Adds a value in thousandths, a second if it is a counter's: of octets in bits a second.
fn put_measured(
    alloc: Global,
    text: &mut String,
    measure: Measure,
    level: i128,
) -> Result<(), AllocError>
    requires { level ≤ℤ pos (2 ^ 100) }
    ensures { OnOk result (string_bytes text.new
        ≡ string_bytes text.old ++ measured measure level) }
{
    match (measure, u128::try_from(level)) {
        (Measure::Bits, Ok(octets)) => put_rate(alloc, text, Unit::Bits, 8 * octets),
        (Measure::Each, Ok(number)) => put_rate(alloc, text, Unit::Each, number),
        _ => put_number(text, level),
    }
}

/// Adds a rate in thousandths.
fn put_rate(
    alloc: Global,
    text: &mut String,
    unit: Unit,
    thousandths: u128,
) -> Result<(), AllocError>
    ensures { OnOk result (string_bytes text.new ≡ string_bytes text.old
        ++ rate_text unit thousandths) }
{
    let rate = rate_text(alloc, unit, thousandths)?;
    text.push_str(rate.as_str())
}

/// Adds thousandths as a decimal number with its sign.
fn put_number(text: &mut String, thousandths: i128) -> Result<(), AllocError>
    ensures { OnOk result (string_bytes text.new
        ≡ string_bytes text.old ++ number_text thousandths) }
{
    if thousandths < 0 {
        text.push_str("-")?;
    }
    put_thousandths(text, thousandths.unsigned_abs())
}

/// Adds thousandths as a decimal number.
#[tactic(auto, unfolding(crate::specs::Changes::thousandths_text))]
fn put_thousandths(text: &mut String, thousandths: u128) -> Result<(), AllocError>
    ensures { OnOk result (string_bytes text.new ≡ string_bytes text.old
        ++ thousandths_text thousandths) }
{
    let whole = thousandths / 1000;
    write!(text, "{whole}")?;
    put_fraction(text, thousandths)
}

/// Adds what is behind the point of thousandths in decimal, without zeros at its end.
fn put_fraction(text: &mut String, thousandths: u128) -> Result<(), AllocError>
    ensures { OnOk result (string_bytes text.new ≡ string_bytes text.old
        ++ fraction_text thousandths) }
{
    if thousandths % 1000 == 0 {
        return Ok(());
    }
    let tenths = thousandths / 100 % 10;
    if thousandths % 100 == 0 {
        return write!(text, ".{tenths}");
    }
    let hundredths = thousandths / 10 % 10;
    if thousandths % 10 == 0 {
        return write!(text, ".{tenths}{hundredths}");
    }
    let last = thousandths % 10;
    write!(text, ".{tenths}{hundredths}{last}")
}

/// Returns the value by which an alarm was raised or cleared, if these samples have it, which
/// follow one or none.
fn level_by(
    rule: &Rule,
    event: AlarmEvent,
    before: Option<&Sample>,
    samples: &[Sample],
) -> Option<i128>
    ensures level { result ≡ option_map (λ o. o.level) (find (is_by rule.now event)
        (observations_from (option_copied before.entry) samples.now)) }
    ensures small { IfSome result (λ z. z ≤ℤ pos (2 ^ 100)) }
{
    let [first, rest @ ..] = samples else {
        return None;
    };
    match observe(before, first) {
        Some(level) if is_by(rule, event, first, level) => Some(level),
        _ => level_by(rule, event, Some(first), rest),
    }
}

/// Returns `true` if an alarm was raised or cleared by this sample, at which this is observed.
fn is_by(rule: &Rule, event: AlarmEvent, sample: &Sample, level: i128) -> bool
    ensures { result ≡ is_by rule.now event (record { sample = sample.now; level = level }) }
{
    match event {
        AlarmEvent::Raised { boots, time } => {
            is_at(sample, boots, time) && is_up_to(i128::from(rule.rising()), level)
        }
        AlarmEvent::Cleared { boots, time } => {
            is_at(sample, boots, time) && is_up_to(level, i128::from(rule.falling()))
        }
        AlarmEvent::Lapsed => false,
    }
}

/// Returns `true` if a sample has this stamp.
fn is_at(sample: &Sample, boots: u32, time: u32) -> bool
    ensures { result ≡ is_at boots time sample.now }
{
    sample.boots() == boots && sample.time() == time
}

/// Returns `true` if a number is at most another one.
fn is_up_to(low: i128, high: i128) -> bool
    ensures { result ≡ le_z low high }
{
    low <= high
}

/// Returns what is observed at a sample after another, as rules observe it.
fn observe(before: Option<&Sample>, sample: &Sample) -> Option<i128>
    ensures observed { result ≡ observed (option_copied before.entry) sample.now }
    ensures small { IfSome result (λ z. z ≤ℤ pos (2 ^ 100)) }
{
    if !is_counter(sample.kind()) {
        // Proof: a sample's number is in the range of its kind.
        let _value = sample.value();
        return Some(1000 * sample.number());
    }
    rate(before?, sample)
}

/// Returns the rate from one sample to the next in thousandths, if there is one.
fn rate(before: &Sample, sample: &Sample) -> Option<i128>
    ensures rate { result ≡ rate_from (Some before.now) sample.now }
    ensures small { IfSome result (λ z. z ≤ℤ pos (2 ^ 100)) }
{
    let thousandths = Totals::between(before, sample).thousandths()?;
    Some(thousandths as i128)
}
