//! A report as Prometheus reads it.

ghost use Rattle.std.specs.Prelude.{◌≡◌, ◌<◌, ◌++◌, [], IfOk, List, OnOk, Some, decimal};
ghost use Rattle.std.specs.Fmt.{signed_decimal};
ghost use Rattle.std.specs.Prelude.{get_or, length, option_map, slice_get, ℕ};
ghost use Rattle.std.specs.List.{flat_map};
ghost use Rattle.mon_report.specs.Report.{Entry as AnEntry};
ghost use Rattle.mon_formats.specs.declared.prometheus.metric.Metric.TheVariants.{Number};
ghost use Rattle.mon_page.specs.Cells.{newest_of, rate_of, value_of};
ghost use Rattle.mon_page.specs.Freshness.{fresh, is_fresh};
ghost use Rattle.mon_page.specs.Labelled.{Labelled as AnyLabelled, labelled};
ghost use Rattle.mon_formats.specs.LabelTexts.{AreLabelTexts, HaveLabels};
ghost use Rattle.mon_formats.specs.declared.prometheus.station.StationMetric.TheVariants.{Age};
ghost use Rattle.mon_formats.specs.Prometheus.{ages_text, alarm_line, end_text};
ghost use Rattle.mon_formats.specs.Prometheus.{counted_line, instance_labels, instances_text, lines_of};
ghost use Rattle.mon_formats.specs.Prometheus.{metric_line, metric_text, name_of, number_line};
ghost use Rattle.mon_formats.specs.Prometheus.{prometheus_report, rate_line, report_by};
ghost use Rattle.mon_formats.specs.Prometheus.{speed_line, state_number, station_name, threshold_text};

pub(crate) mod instance;
mod metric;
mod peer;
pub(crate) mod series;
mod station;
mod target;
pub(crate) mod text;

use instance::{Labelled, labels_of, speed_of};
use itoa::Buffer;
use metric::Metric;
use mon_alarms::AlarmState;
use mon_page::{Extras, Figures, InstanceLabels, is_fresh};
use mon_rates::is_counter;
use mon_report::{Alarm, Entry};
use mon_sample::Sample;
use mon_smi::NameTexts;
use station::{StationMetric, put_metric_head, put_station};
use std::alloc::{AllocError, Global};
use text::{Exposition, put_end, put_head, put_label, put_line, put_number_end, put_rate_end};

/// Instances with what is given for them and the texts of their labels, which all lines of an
/// instance have, and of a running station in how many rounds each had no new sample.
#[derive(Clone, Copy)]
struct Listing<'a, 'e> {
    format: Exposition,
    entries: &'a [Entry<'e>],
    given: &'a [InstanceLabels],
    labels: &'a [Vec<u8>],
    /// Empty if there is no station.
    ages: &'a [u32],
    /// From which age on an instance is stale.
    limit: u32,
}

impl<'a, 'e> Listing<'a, 'e> {
    /// Returns the listing without ages, so that none of its instances is stale.
    fn all(self) -> Self
        ensures entries { result.entries.now ≡ self.entry.entries.now }
        ensures given { result.given.now ≡ self.entry.given.now }
        ensures labels { result.labels.now ≡ self.entry.labels.now }
        ensures ages { result.ages.now ≡ [] }
        ensures format { result.format ≡ self.entry.format }
    {
        Listing { ages: &[], ..self }
    }

    /// Returns `true` if the instance at this place is not stale.
    fn is_fresh(self, place: usize) -> bool
        ensures { result ≡ is_fresh self.entry.limit (slice_get self.entry.ages.now place) }
    {
        is_fresh(self.limit, self.ages.get(place).copied())
    }
}

/// The report in Prometheus' text exposition format or in OpenMetrics.
pub(crate) fn prometheus_report<S: NameTexts>(
    format: Exposition,
    buffer: Vec<u8>,
    names: &S,
    entries: &[Entry],
    extras: Extras<'_>,
) -> Result<Vec<u8>, AllocError>
    ensures { IfOk result (λ text. text.items
        ≡ prometheus_report format extras.entry.presentation.now.station (S.shown names.now)
        (labelled extras.entry.labels.now entries.now)
        (option_map (λ f. f.now) extras.entry.station)) }
{
    let mut text = buffer;
    text.clear();
    put_report(format, &mut text, names, entries, extras)?;
    Ok(text)
}

/// Adds the report and the end.
#[tactic(auto, unfolding(crate::specs::Prometheus::prometheus_report))]
fn put_report<S: NameTexts>(
    format: Exposition,
    text: &mut Vec<u8>,
    names: &S,
    entries: &[Entry],
    extras: Extras<'_>,
) -> Result<(), AllocError>
    ensures { OnOk result (text.new.items ≡ text.old.items
        ++ prometheus_report format extras.entry.presentation.now.station (S.shown names.now)
        (labelled extras.entry.labels.now entries.now)
        (option_map (λ f. f.now) extras.entry.station)) }
{
    let alloc = *text.allocator();
    let station = extras.presentation.station;
    let labels = label_texts(alloc, names, entries, extras.labels, station)?;
    put_by(format, text, entries, labels.as_slice(), extras)
}

/// Adds the report and the end, by the texts of the labels of all instances.
pub(crate) fn put_by(
    format: Exposition,
    text: &mut Vec<u8>,
    entries: &[Entry],
    labels: &[Vec<u8>],
    extras: Extras<'_>,
) -> Result<(), AllocError>
    requires { length labels.now ≡ length entries.now }
    ensures { (by : AnyLabelled → List ℕ)
        → AreLabelTexts by entries.now extras.entry.labels.now labels.now
        → OnOk result (text.new.items ≡ text.old.items
        ++ report_by format by (labelled extras.entry.labels.now entries.now)
        (option_map (λ f. f.now) extras.entry.station) ++ end_text format) }
{
    let alloc = *text.allocator();
    let plain = Listing {
        format,
        entries,
        given: extras.labels,
        labels,
        ages: &[],
        limit: 0,
    };
    match extras.station {
        None => put_instances(alloc, text, plain)?,
        Some(figures) => put_running(alloc, text, plain, figures)?,
    }
    put_end(format, text)
}

/// Returns the texts of the labels of these instances.
pub(crate) fn label_texts<S: NameTexts>(
    alloc: Global,
    names: &S,
    entries: &[Entry],
    labels: &[InstanceLabels],
    station: Option<u32>,
) -> Result<Vec<Vec<u8>>, AllocError>
    ensures texts { IfOk result (λ texts. AreLabelTexts
        (instance_labels station (S.shown names.now)) entries.now labels.now texts.items) }
    ensures as_many { IfOk result (λ texts. length texts.items ≡ length entries.now) }
{
    let mut texts = Vec::with_capacity(alloc, entries.len())?;
    for place in 0..entries.len() {
        let labelled = labelled_at(entries, labels, place);
        texts.push(labels_of(alloc, names, labelled, station)?)?;
    }
    Ok(texts)
}

/// The instance at this place, with its labels.
fn labelled_at<'a, 'e>(
    entries: &'a [Entry<'e>],
    labels: &'a [InstanceLabels],
    place: usize,
) -> Labelled<'a, 'e>
    requires { place < length entries.now }
    ensures instance { (other : AnEntry) → result.instance.now ≡ get_or entries.now place other }
    ensures labels { option_map (λ l. l.now) result.labels ≡ slice_get labels.now place }
{
    Labelled {
        instance: &entries[place],
        labels: labels.get(place),
    }
}

/// Adds the report of a running station.
fn put_running(
    alloc: Global,
    text: &mut Vec<u8>,
    plain: Listing,
    figures: &Figures,
) -> Result<(), AllocError>
    requires { length plain.labels.now ≡ length plain.entries.now }
    ensures { (labels : AnyLabelled → List ℕ) (all : List AnyLabelled)
        → HaveLabels labels all plain.entry.entries.now plain.entry.given.now plain.entry.labels.now
        → OnOk result (text.new.items
        ≡ text.old.items ++ report_by plain.entry.format labels all (Some figures.now)) }
{
    let listing = Listing {
        ages: figures.ages.as_slice(),
        limit: figures.stale_after,
        ..plain
    };
    put_instances(alloc, text, listing)?;
    put_station(listing.format, text, figures)?;
    put_ages(text, listing)
}

/// Adds what the report says of the instances, metric by metric.
#[tactic(auto, unfolding(crate::specs::Prometheus::instances_text))]
fn put_instances(alloc: Global, text: &mut Vec<u8>, listing: Listing) -> Result<(), AllocError>
    requires { length listing.labels.now ≡ length listing.entries.now }
    ensures { (labels : AnyLabelled → List ℕ) (all : List AnyLabelled)
        → HaveLabels labels all listing.entry.entries.now listing.entry.given.now
        listing.entry.labels.now
        → OnOk result (text.new.items ≡ text.old.items
        ++ instances_text listing.entry.format labels all
        (fresh listing.entry.limit listing.entry.ages.now all)) }
{
    put_metric(alloc, text, listing, Metric::Counted)?;
    put_metric(alloc, text, listing, Metric::Number)?;
    put_metric(alloc, text, listing.all(), Metric::Samples)?;
    put_metric(alloc, text, listing, Metric::Rate)?;
    put_metric(alloc, text, listing, Metric::Alarm)?;
    put_metric(alloc, text, listing.all(), Metric::Speed)
}

/// Adds a metric: what it is, and its lines of the instances that are not stale.
#[tactic(auto, unfolding(crate::specs::Prometheus::metric_text))]
fn put_metric(
    alloc: Global,
    text: &mut Vec<u8>,
    listing: Listing,
    metric: Metric,
) -> Result<(), AllocError>
    requires { length listing.labels.now ≡ length listing.entries.now }
    ensures { (labels : AnyLabelled → List ℕ) (all : List AnyLabelled)
        → HaveLabels labels all listing.entry.entries.now listing.entry.given.now
        listing.entry.labels.now
        → OnOk result (text.new.items ≡ text.old.items
        ++ metric_text listing.entry.format metric labels
        (fresh listing.entry.limit listing.entry.ages.now all)) }
{
    put_head(
        listing.format,
        text,
        metric.name(),
        metric.help(),
        metric.kind(),
    )?;
    for place in 0..listing.entries.len() {
        if listing.is_fresh(place) {
            let labelled = labelled_at(listing.entries, listing.given, place);
            let labels = listing.labels[place].as_slice();
            put_lines(alloc, text, labels, labelled, metric)?;
        }
    }
    Ok(())
}

/// Adds in how many rounds each of these instances had no new sample, for as many as have an age.
#[tactic(auto, unfolding(crate::specs::Prometheus::ages_text))]
fn put_ages(text: &mut Vec<u8>, listing: Listing) -> Result<(), AllocError>
    requires { length listing.labels.now ≡ length listing.entries.now }
    ensures { (labels : AnyLabelled → List ℕ) (all : List AnyLabelled)
        → HaveLabels labels all listing.entry.entries.now listing.entry.given.now
        listing.entry.labels.now
        → OnOk result (text.new.items
        ≡ text.old.items ++ ages_text listing.entry.format labels listing.entry.ages.now all) }
{
    put_metric_head(listing.format, text, StationMetric::Age)?;
    for place in 0..listing.entries.len().min(listing.ages.len()) {
        put_age(text, listing.labels[place].as_slice(), listing.ages[place])?;
    }
    Ok(())
}

/// Adds the line of an instance with these labels that had no new sample in this many rounds.
fn put_age(text: &mut Vec<u8>, labels: &[u8], age: u32) -> Result<(), AllocError>
    ensures { OnOk result (text.new.items
        ≡ text.old.items ++ metric_line (station_name Age) labels.now (decimal age)) }
{
    put_line(text, StationMetric::Age.name(), labels, u64::from(age))
}

/// Adds the lines of a metric for an instance with these labels.
fn put_lines(
    alloc: Global,
    text: &mut Vec<u8>,
    labels: &[u8],
    labelled: Labelled,
    metric: Metric,
) -> Result<(), AllocError>
    ensures { OnOk result (text.new.items ≡ text.old.items ++ lines_of metric labels.now
        (labelled.entry.instance.now, option_map (λ l. l.now) labelled.entry.labels)) }
{
    let entry = labelled.instance;
    match metric {
        Metric::Counted => put_counted(text, labels, entry.samples()),
        Metric::Number => put_number(text, labels, entry.samples()),
        Metric::Samples => put_line(text, metric.name(), labels, entry.samples().len() as u64),
        Metric::Rate => put_rate(text, labels, entry),
        Metric::Alarm => put_alarms(alloc, text, labels, entry),
        Metric::Speed => put_speed(text, labels, speed_of(labelled.labels)),
    }
}

/// Adds the line of the newest value, if it is a counter's.
#[tactic(auto, using(crate::proofs::Values::of_counter))]
fn put_counted(text: &mut Vec<u8>, labels: &[u8], samples: &[Sample]) -> Result<(), AllocError>
    ensures { OnOk result (text.new.items ≡ text.old.items ++ counted_line labels.now
        (newest_of samples.now)) }
{
    let Some(newest) = samples.last() else {
        return Ok(());
    };
    if !is_counter(newest.kind()) {
        return Ok(());
    }
    put_line(text, Metric::Counted.name(), labels, newest.value())
}

/// Adds the line of the newest value, if it is no counter's.
fn put_number(text: &mut Vec<u8>, labels: &[u8], samples: &[Sample]) -> Result<(), AllocError>
    ensures { OnOk result (text.new.items ≡ text.old.items ++ number_line labels.now
        (newest_of samples.now)) }
{
    let Some(newest) = samples.last() else {
        return Ok(());
    };
    if is_counter(newest.kind()) {
        return Ok(());
    }
    put_value(text, labels, newest)
}

/// Adds a line with the number that the value means of a sample that is no counter's.
#[tactic(auto, unfolding(crate::specs::Prometheus::metric_line, crate::specs::Prometheus::line_end))]
fn put_value(text: &mut Vec<u8>, labels: &[u8], sample: &Sample) -> Result<(), AllocError>
    ensures { OnOk result (text.new.items ≡ text.old.items
        ++ metric_line (name_of Number) labels.now (signed_decimal (value_of sample.now))) }
{
    let mut buffer = Buffer::new();
    text.extend_from_slice(Metric::Number.name().as_bytes())?;
    text.extend_from_slice(labels)?;
    text.extend_from_slice(b"} ")?;
    text.extend_from_slice(buffer.format(sample.number()).as_bytes())?;
    text.extend_from_slice(b"\n")
}

/// Adds the line of an instance's rate, if it has one.
#[tactic(auto, unfolding(crate::specs::Prometheus::metric_line))]
fn put_rate(text: &mut Vec<u8>, labels: &[u8], entry: &Entry) -> Result<(), AllocError>
    ensures { OnOk result (text.new.items ≡ text.old.items ++ rate_line labels.now
        (rate_of entry.now.items)) }
{
    let Some(thousandths) = entry.totals().thousandths() else {
        return Ok(());
    };
    text.extend_from_slice(Metric::Rate.name().as_bytes())?;
    text.extend_from_slice(labels)?;
    put_rate_end(text, thousandths)
}

/// Adds a line for each alarm of an instance.
fn put_alarms(
    alloc: Global,
    text: &mut Vec<u8>,
    labels: &[u8],
    entry: &Entry,
) -> Result<(), AllocError>
    ensures { OnOk result (text.new.items ≡ text.old.items ++ flat_map (alarm_line labels.now)
        entry.now.alarms) }
{
    let alarms = entry.alarms(alloc)?;
    for alarm in &alarms {
        put_alarm(text, labels, alarm)?;
    }
    Ok(())
}

/// Adds the line of an alarm: its rule's thresholds are labels, and its value says whether it is
/// raised.
#[tactic(auto, unfolding(crate::specs::Prometheus::metric_line, crate::specs::Prometheus::alarm_labels))]
fn put_alarm(text: &mut Vec<u8>, labels: &[u8], alarm: &Alarm) -> Result<(), AllocError>
    ensures { OnOk result (text.new.items ≡ text.old.items ++ alarm_line labels.now alarm.now) }
{
    text.extend_from_slice(Metric::Alarm.name().as_bytes())?;
    text.extend_from_slice(labels)?;
    put_threshold(text, "rising", alarm.rule.rising())?;
    put_threshold(text, "falling", alarm.rule.falling())?;
    put_number_end(text, state_number(alarm.state))
}

/// Adds a threshold in thousandths as one more label.
#[tactic(auto, unfolding(crate::specs::Prometheus::threshold_text))]
fn put_threshold(labels: &mut Vec<u8>, label: &str, threshold: i64) -> Result<(), AllocError>
    ensures { OnOk result (labels.new.items ≡ labels.old.items
        ++ threshold_text label.now threshold) }
{
    let mut buffer = Buffer::new();
    labels.extend_from_slice(b",")?;
    put_label(labels, label, buffer.format(threshold).as_bytes())
}

/// 1 where an alarm is raised, 0 where it is clear.
fn state_number(alarm: AlarmState) -> u64
    ensures { result ≡ state_number alarm }
{
    match alarm {
        AlarmState::Clear => 0,
        AlarmState::Raised { .. } => 1,
    }
}

/// Adds the line of the speed of an instance's interface in bits a second, if it is known.
fn put_speed(text: &mut Vec<u8>, labels: &[u8], speed: Option<u64>) -> Result<(), AllocError>
    ensures { OnOk result (text.new.items ≡ text.old.items ++ speed_line labels.now speed) }
{
    let Some(bits) = speed else {
        return Ok(());
    };
    put_line(text, Metric::Speed.name(), labels, bits)
}
