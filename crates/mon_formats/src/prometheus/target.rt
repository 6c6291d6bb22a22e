//! What a station says of its targets.

ghost use Rattle.std.specs.Prelude.{◌≡◌, ◌++◌, OnOk, string_bytes};
ghost use Rattle.mon_formats.specs.Prometheus.{one_if, reason_if, refusals_text, target_help, target_labels, target_line, target_metric, target_name, target_type, target_value, targets_text};

use crate::prometheus::instance::put_engine;
use crate::prometheus::text::{
    Exposition, Kind, put_head, put_more, put_number_end, put_station_label,
};
use itoa::Buffer;
use mon_page::TargetFigures;
use std::alloc::{AllocError, Global};

/// A metric of a target.
#[derive(Clone, Copy, Debug, PartialEq, Eq)]
enum TargetMetric {
    /// Says whether its last poll was answered.
    Up,
    /// How many rounds ago it answered.
    Rounds,
    /// How many seconds ago it answered.
    Seconds,
    /// How many of its polls were given up.
    PollsGivenUp,
    /// Why its last response was refused.
    Refusal,
}

impl TargetMetric {
    /// The name, as Prometheus has it.
    fn name(self) -> &'static str
        ensures { result.now ≡ target_name self }
    {
        match self {
            TargetMetric::Up => "snmpmon_target_up",
            TargetMetric::Rounds => "snmpmon_target_answer_age_rounds",
            TargetMetric::Seconds => "snmpmon_target_answer_age_seconds",
            TargetMetric::PollsGivenUp => "snmpmon_target_polls_given_up_total",
            TargetMetric::Refusal => "snmpmon_target_refusal_info",
        }
    }

    /// What it is, and what to do with it.
    fn help(self) -> &'static str
        ensures { result.now ≡ target_help self }
    {
        match self {
            TargetMetric::Up =>
                "1 where the last poll of a target was answered. Look at the device or the way to it where it is 0.",
            TargetMetric::Rounds =>
                "Rounds since a target answered, or since the station began. Look at the device where it rises.",
            TargetMetric::Seconds =>
                "Seconds since a target answered, or since the station began. Alert where it exceeds some rounds.",
            TargetMetric::PollsGivenUp =>
                "Polls of a target that the station gave up since it began. Datagrams get lost where it rises and it is up.",
            TargetMetric::Refusal =>
                "Why the last response of a target was refused, until it answers. Its label reason says what to correct.",
        }
    }

    /// Its type.
    fn kind(self) -> Kind
        ensures { result ≡ target_type self }
    {
        match self {
            TargetMetric::PollsGivenUp => Kind::Counter,
            TargetMetric::Up | TargetMetric::Rounds | TargetMetric::Seconds => Kind::Gauge,
            TargetMetric::Refusal => Kind::Info,
        }
    }

    /// What it says of a target.
    fn value(self, target: &TargetFigures) -> u64
        ensures { result ≡ target_value self target.now }
    {
        match self {
            TargetMetric::Up => one_if(target.up),
            TargetMetric::Rounds => u64::from(target.rounds),
            TargetMetric::Seconds => target.seconds,
            TargetMetric::PollsGivenUp => target.given_up,
            TargetMetric::Refusal => 1,
        }
    }
}

/// 1 for `true`, 0 for `false`.
pub(crate) fn one_if(is_so: bool) -> u64
    ensures { result ≡ one_if is_so }
{
    if is_so { 1 } else { 0 }
}

/// Adds what a station says of its targets, metric by metric.
#[tactic(auto, unfolding(crate::specs::Prometheus::targets_text))]
pub(crate) fn put_targets(
    format: Exposition,
    text: &mut Vec<u8>,
    station: u32,
    targets: &[TargetFigures],
) -> Result<(), AllocError>
    ensures { OnOk result (text.new.items ≡ text.old.items ++ targets_text format station
        targets.now) }
{
    put_target_metric(format, text, station, targets, TargetMetric::Up)?;
    put_target_metric(format, text, station, targets, TargetMetric::Rounds)?;
    put_target_metric(format, text, station, targets, TargetMetric::Seconds)?;
    put_target_metric(format, text, station, targets, TargetMetric::PollsGivenUp)?;
    put_refusals(format, text, station, targets)
}

/// Adds a metric with a line for each target.
#[tactic(auto, unfolding(crate::specs::Prometheus::target_metric))]
fn put_target_metric(
    format: Exposition,
    text: &mut Vec<u8>,
    station: u32,
    targets: &[TargetFigures],
    metric: TargetMetric,
) -> Result<(), AllocError>
    ensures { OnOk result (text.new.items
        ≡ text.old.items ++ target_metric format station metric targets.now) }
{
    let alloc = *text.allocator();
    put_head(format, text, metric.name(), metric.help(), metric.kind())?;
    for target in targets {
        put_target(alloc, text, station, target, metric)?;
    }
    Ok(())
}

/// Adds the line of a metric for a target.
#[tactic(auto, unfolding(crate::specs::Prometheus::metric_line))]
fn put_target(
    alloc: Global,
    text: &mut Vec<u8>,
    station: u32,
    target: &TargetFigures,
    metric: TargetMetric,
) -> Result<(), AllocError>
    ensures { OnOk result (text.new.items
        ≡ text.old.items ++ target_line station metric target.now) }
{
    text.extend_from_slice(metric.name().as_bytes())?;
    put_target_labels(alloc, text, station, target)?;
    put_number_end(text, metric.value(target))
}

/// Adds the labels of a target: the station's number, the target's address and number, and its
/// engine id in hex digits.
#[tactic(auto, unfolding(crate::specs::Prometheus::target_labels))]
fn put_target_labels(
    alloc: Global,
    labels: &mut Vec<u8>,
    station: u32,
    target: &TargetFigures,
) -> Result<(), AllocError>
    ensures { OnOk result (labels.new.items
        ≡ labels.old.items ++ target_labels station target.now) }
{
    let mut digits = Buffer::new();
    put_station_label(labels, station)?;
    put_more(labels, "target", target.address.as_bytes())?;
    put_more(labels, "number", digits.format(target.number).as_bytes())?;
    put_engine(alloc, labels, target.engine.as_slice())
}

/// Adds of each target that has a refused response a line with the reason.
#[tactic(auto, unfolding(crate::specs::Prometheus::refusals_text))]
fn put_refusals(
    format: Exposition,
    text: &mut Vec<u8>,
    station: u32,
    targets: &[TargetFigures],
) -> Result<(), AllocError>
    ensures { OnOk result (text.new.items ≡ text.old.items ++ refusals_text format station
        targets.now) }
{
    let alloc = *text.allocator();
    let metric = TargetMetric::Refusal;
    put_head(format, text, metric.name(), metric.help(), metric.kind())?;
    for target in targets {
        put_refusal(alloc, text, station, target)?;
    }
    Ok(())
}

/// Adds the line of a target's refused response with the reason, if there is one.
#[tactic(auto, unfolding(crate::specs::Prometheus::reason_line, crate::specs::Prometheus::metric_line))]
fn put_refusal(
    alloc: Global,
    text: &mut Vec<u8>,
    station: u32,
    target: &TargetFigures,
) -> Result<(), AllocError>
    ensures { OnOk result (text.new.items
        ≡ text.old.items ++ reason_if station target.now target.now.refusal) }
{
    let Some(reason) = &target.refusal else {
        return Ok(());
    };
    text.extend_from_slice(TargetMetric::Refusal.name().as_bytes())?;
    put_target_labels(alloc, text, station, target)?;
    put_more(text, "reason", reason.as_bytes())?;
    put_number_end(text, 1)
}
