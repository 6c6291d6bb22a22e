//! The labels of the series of instances, made once for all texts of them.

ghost use Rattle.std.specs.Prelude.{◌≡◌, ◌↔◌, ℕ, IfOk, IsTrue, List, map, option_map};
ghost use Rattle.mon_board.specs.Instance.{instances_of, named};
ghost use Rattle.mon_formats.specs.Formats.{formatted};
ghost use Rattle.mon_formats.specs.Series.{AreOf, AreSeries, HasSeries, IsExposition};

use crate::format::Format;
use crate::prometheus::text::Exposition;
use crate::prometheus::{label_texts, put_by};
use mon_board::{Instance, Watched};
use mon_page::{Extras, InstanceLabels};
use mon_rates::Totals;
use mon_report::Entry;
use mon_smi::NameTexts;
use std::alloc::{AllocError, Global};
use std::marker::Model;

/// The labels that the series of instances have in Prometheus' text and in OpenMetrics, made once
/// for all reports of these instances.
pub struct SeriesLabels {
    instances: Vec<Instance>,
    texts: Vec<Vec<u8>>,
}

// By hand: where one is let go, a proof has one call and not a drop of each field.
impl Drop for SeriesLabels {
    fn drop(self) {
        let SeriesLabels {
            instances: _,
            texts: _,
        } = self;
    }
}

impl Model for SeriesLabels {
    ghost use Rattle.std.specs.Prelude.{◌≡◌, length, map};
    ghost use Rattle.mon_formats.specs.Series.{Series};

    ghost Value = { Series };

    ghost view = { λ s. record {
      instances = s.instances.items;
      texts = map (λ t. t.items) s.texts.items;
    } };

    ghost invariant = { λ s. length s.texts.items ≡ length s.instances.items };
}

impl SeriesLabels {
    /// Makes the labels of these instances: by these names, with the labels that are given for
    /// each, and with the number of a station, as [`Presentation`](mon_page::Presentation) has it.
    ///
    /// # Errors
    /// `AllocError` if there is no memory for them.
    pub fn new<S: NameTexts>(
        alloc: Global,
        names: &S,
        watched: &[Watched],
        given: &[InstanceLabels],
        station: Option<u32>,
    ) -> Result<Self, AllocError>
        ensures instances { IfOk result (λ s. s.instances ≡ instances_of watched.now) }
        ensures labels { IfOk result (AreSeries station (S.shown names.now) given.now) }
    {
        let entries = bare_entries(alloc, watched)?;
        let texts = label_texts(alloc, names, entries.as_slice(), given, station)?;
        let instances = copies_of(alloc, watched)?;
        Ok(SeriesLabels { instances, texts })
    }

    /// Returns `true` if these are the labels of what a report in this format says of instances.
    pub fn fit(&self, format: Format, entries: &[Entry]) -> bool
        ensures { IsTrue result ↔ (HasSeries format × AreOf self.now.instances entries.now) }
    {
        has_series(format) && are_of(self.instances.as_slice(), entries)
    }

    /// Makes the report that `format_report` makes by the names of these labels. They fit what is
    /// reported. The buffer's octets are dropped, and its capacity is used again.
    ///
    /// # Errors
    /// `AllocError` if there is no memory for it.
    pub fn report(
        &self,
        buffer: Vec<u8>,
        format: Format,
        entries: &[Entry],
        extras: Extras<'_>,
    ) -> Result<Vec<u8>, AllocError>
        requires format { HasSeries format }
        requires instances { AreOf self.now.instances entries.now }
        ensures { (shown : List ℕ → List ℕ) → AreSeries extras.entry.presentation.now.station shown
            extras.entry.labels.now self.now → IfOk result (λ text. text.items
            ≡ formatted format shown entries.now (option_map (λ f. f.now) extras.entry.station)
            extras.entry.labels.now extras.entry.presentation.now) }
    {
        let mut text = buffer;
        text.clear();
        let texts = self.texts.as_slice();
        put_by(exposition_of(format), &mut text, entries, texts, extras)?;
        Ok(text)
    }
}

/// Returns what a report says of instances of which there are no samples and no rules.
fn bare_entries(alloc: Global, watched: &[Watched]) -> Result<Vec<Entry<'_>>, AllocError>
    ensures { IfOk result (λ es. AreOf (instances_of watched.now) es.items) }
{
    let mut entries = Vec::with_capacity(alloc, watched.len())?;
    for one in watched {
        entries.push(bare_entry(&one.instance))?;
    }
    Ok(entries)
}

/// Returns what a report says of an instance of which there are no samples and no rules.
fn bare_entry(instance: &Instance) -> Entry<'_>
    ensures { named result.engine result.name ≡ instance.now }
{
    let nothing = Totals {
        delta: 0,
        span: 0,
        pairs: 0,
    };
    Entry::new(instance.engine.as_slice(), &instance.name, &[], nothing)
}

/// Returns copies of the instances.
fn copies_of(alloc: Global, watched: &[Watched]) -> Result<Vec<Instance>, AllocError>
    ensures { IfOk result (λ all. all.items ≡ instances_of watched.now) }
{
    let mut copies = Vec::with_capacity(alloc, watched.len())?;
    for one in watched {
        let engine = one.instance.engine.try_clone(alloc)?;
        let name = one.instance.name.try_clone(alloc)?;
        copies.push(Instance { engine, name })?;
    }
    Ok(copies)
}

/// Returns which of the formats that Prometheus reads this one is.
fn exposition_of(format: Format) -> Exposition
    requires { HasSeries format }
    ensures { IsExposition format result }
{
    match format {
        Format::OpenMetrics => Exposition::OpenMetrics,
        _ => Exposition::Prometheus,
    }
}

/// Returns `true` if instances have series in this format.
fn has_series(format: Format) -> bool
    ensures { IsTrue result ↔ HasSeries format }
{
    match format {
        Format::Prometheus | Format::OpenMetrics => true,
        _ => false,
    }
}

/// Returns `true` if a report says this of these instances, in their order.
fn are_of(instances: &[Instance], entries: &[Entry]) -> bool
    ensures { IsTrue result ↔ AreOf instances.now entries.now }
{
    let [instance, instances @ ..] = instances else {
        return entries.is_empty();
    };
    let [entry, entries @ ..] = entries else {
        return false;
    };
    is_of(instance, entry) && are_of(instances, entries)
}

/// Returns `true` if a report says this of the instance.
fn is_of(instance: &Instance, entry: &Entry) -> bool
    ensures { IsTrue result ↔ (named entry.now.engine entry.now.name ≡ instance.now) }
{
    instance.engine.as_slice() == entry.engine() && instance.name == *entry.name()
}
