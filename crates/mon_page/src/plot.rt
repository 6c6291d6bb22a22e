//! The plot of a window.

ghost use Rattle.std.specs.Prelude.{◌≡◌, ◌++◌, OnOk, None, Some, option_copied};
ghost use Rattle.std.specs.List.{flat_map};
ghost use Rattle.mon_display.specs.Interface.{column_of};
ghost use Rattle.mon_page.specs.Plot.{level, before_at, widened, no_scale, scale_of, distance, later, span_of, across, below_top, spot_of, is_missed, joins, start_of, down_text, line_text, dot_text, stroke_text, points_from, limit_level, with_rules, limit_line, limit_path, rule_lines, limits_text, greatest_words, limit_words, limit_note, notes_text, frame_of, drawing_text, plot_of};

use crate::escape::put_between;
use crate::numbers::put_wide;
use crate::row::Row;
use crate::words::{is_counted, put_level, put_now};
use itoa::Buffer;
use mon_alarms::Rule;
use mon_display::Column;
use mon_rates::{Totals, is_counter};
use mon_sample::Sample;
use std::alloc::{AllocError, Global};

/// The lowest and the highest level of a plot.
#[derive(Clone, Copy)]
pub(crate) struct Scale {
    pub low: u128,
    pub high: u128,
}

/// What the points of a plot depend on.
#[derive(Clone, Copy)]
pub(crate) struct Frame {
    pub scale: Scale,
    /// How many seconds after the first sample the last one is.
    pub span: u64,
    /// The number of samples that have one before them.
    pub pairs: usize,
}

/// A point of a plot.
#[derive(Clone, Copy)]
pub(crate) struct Spot {
    pub x: u128,
    pub y: u128,
}

/// Returns a counter's rate from the sample before, in thousandths, if there is one; else the
/// value, moved up so that none is below 0.
fn level(before: Option<&Sample>, sample: &Sample) -> Option<u128>
    ensures { result ≡ level (option_copied before.entry) sample.now }
{
    if !is_counter(sample.kind()) {
        return Some(u128::from(sample.value().wrapping_add(1 << 63)));
    }
    match before {
        None => None,
        Some(before) => Totals::between(before, sample).thousandths(),
    }
}

/// Returns the sample before a place.
fn before_at(samples: &[Sample], place: usize) -> Option<&Sample>
    ensures { option_copied result ≡ before_at place samples.now }
{
    if place == 0 {
        return None;
    }
    samples.get(place - 1)
}

/// Returns the scale with one level more.
fn widened(scale: Scale, level: Option<u128>) -> Scale
    ensures { result ≡ widened scale level }
{
    match level {
        None => scale,
        Some(level) => Scale {
            low: scale.low.min(level),
            high: scale.high.max(level),
        },
    }
}

/// Returns the scale of no sample: of a counter it begins at 0.
fn no_scale(counted: bool) -> Scale
    ensures { result ≡ no_scale counted }
{
    Scale {
        low: if counted { 0 } else { u128::MAX },
        high: 0,
    }
}

/// Returns the lowest and the highest level of samples.
fn scale_of(counted: bool, samples: &[Sample]) -> Scale
    ensures { result ≡ scale_of counted samples.now }
{
    let mut scale = no_scale(counted);
    for place in 0..samples.len() {
        scale = widened(scale, level(before_at(samples, place), &samples[place]));
    }
    scale
}

/// Returns how many seconds a sample is after the one before.
fn distance(before: Option<&Sample>, sample: &Sample) -> u32
    ensures { result ≡ distance (option_copied before.entry) sample.now }
{
    match before {
        None => 0,
        Some(before) => seconds_after(before, sample),
    }
}

/// Returns the difference of the agent's time, or, after other boots, its time.
fn seconds_after(before: &Sample, sample: &Sample) -> u32
    ensures { result ≡ distance (Some before.now) sample.now }
{
    if before.boots() == sample.boots() {
        sample.time().saturating_sub(before.time())
    } else {
        sample.time()
    }
}

/// Returns seconds and seconds more; of more than 2^63 seconds those of 2^63.
fn later(elapsed: u64, seconds: u32) -> u64
    ensures { result ≡ later elapsed seconds }
{
    elapsed.min(1 << 63) + u64::from(seconds)
}

/// Returns how many seconds after the first sample the last one is.
fn span_of(samples: &[Sample]) -> u64
    ensures { result ≡ span_of samples.now }
{
    let mut elapsed = 0;
    for place in 0..samples.len() {
        elapsed = later(
            elapsed,
            distance(before_at(samples, place), &samples[place]),
        );
    }
    elapsed
}

/// Returns how far from the left a sample is that is this many seconds after the first: the newest
/// is at 240.
fn across(span: u64, elapsed: u64) -> u128
    ensures { result ≡ across span elapsed }
{
    let behind = u128::from(span.saturating_sub(elapsed));
    240 - (behind * 240 / u128::from(span.max(1))).min(240)
}

/// Returns how far from the top a level is.
fn below_top(scale: Scale, level: u128) -> u128
    ensures { result ≡ below_top scale level }
{
    let above = level.saturating_sub(scale.low).min(1 << 100);
    let span = scale.high.saturating_sub(scale.low).max(1);
    40 - (above * 40 / span).min(40)
}

/// Returns the point of a sample, if something is plotted of it.
fn spot_of(frame: Frame, elapsed: u64, level: Option<u128>) -> Option<Spot>
    ensures { result ≡ spot_of frame elapsed level }
{
    match level {
        None => None,
        Some(level) => Some(Spot {
            x: across(frame.span, elapsed),
            y: below_top(frame.scale, level),
        }),
    }
}

/// Returns `true` if rounds were missed: the distance is more than twice the mean of all.
fn is_missed(frame: Frame, seconds: u32) -> bool
    ensures { result ≡ is_missed frame seconds }
{
    2 * u128::from(frame.span) < u128::from(seconds) * (frame.pairs as u128)
}

/// Returns `true` if a line goes on from the sample before: neither boots nor the discontinuity
/// value changed, and no rounds were missed.
fn joins(frame: Frame, before: Option<&Sample>, sample: &Sample) -> bool
    ensures { result ≡ joins frame (option_copied before.entry) sample.now }
{
    let Some(before) = before else {
        return false;
    };
    before.boots() == sample.boots()
        && (before.discontinuity() == sample.discontinuity()
            && !is_missed(frame, seconds_after(before, sample)))
}

/// Returns where a line goes on from.
fn start_of(
    frame: Frame,
    before: Option<&Sample>,
    sample: &Sample,
    spot: Option<Spot>,
) -> Option<Spot>
    ensures { result ≡ start_of frame (option_copied before.entry) sample.now spot }
{
    if joins(frame, before, sample) {
        spot
    } else {
        None
    }
}

/// Adds how far down a line goes, or up.
fn put_down(text: &mut Vec<u8>, y: u128, down: u128) -> Result<(), AllocError>
    ensures { OnOk result (text.new.items ≡ text.old.items ++ down_text y down) }
{
    if down < y {
        text.extend_from_slice(b"-")?;
        put_wide(text, y - down)
    } else {
        text.extend_from_slice(b" ")?;
        put_wide(text, down.saturating_sub(y))
    }
}

/// Adds a line from one point to another.
#[tactic(auto, unfolding(crate::specs::Plot::line_text))]
fn put_line(text: &mut Vec<u8>, from: Spot, to: Spot) -> Result<(), AllocError>
    ensures { OnOk result (text.new.items ≡ text.old.items ++ line_text from to) }
{
    text.extend_from_slice(b"l")?;
    put_wide(text, to.x.saturating_sub(from.x))?;
    put_down(text, from.y, to.y)
}

/// Adds a dot.
#[tactic(auto, unfolding(crate::specs::Plot::dot_text))]
fn put_dot(text: &mut Vec<u8>, spot: Spot) -> Result<(), AllocError>
    ensures { OnOk result (text.new.items ≡ text.old.items ++ dot_text spot) }
{
    text.extend_from_slice(b"M")?;
    put_wide(text, spot.x)?;
    text.extend_from_slice(b" ")?;
    put_wide(text, spot.y)?;
    text.extend_from_slice(b"h0")
}

/// Adds a line to a point, or a dot there, if something is plotted.
fn put_stroke(text: &mut Vec<u8>, start: Option<Spot>, spot: Option<Spot>) -> Result<(), AllocError>
    ensures { OnOk result (text.new.items ≡ text.old.items ++ stroke_text start spot) }
{
    let Some(spot) = spot else {
        return Ok(());
    };
    match start {
        None => put_dot(text, spot),
        Some(start) => put_line(text, start, spot),
    }
}

/// Adds the strokes of samples.
fn put_points(text: &mut Vec<u8>, frame: Frame, samples: &[Sample]) -> Result<(), AllocError>
    ensures { OnOk result (text.new.items ≡ text.old.items ++ points_from samples.now frame None 0 0
        samples.now) }
{
    let mut spot = None;
    let mut elapsed = 0;
    for place in 0..samples.len() {
        let sample = &samples[place];
        let before = before_at(samples, place);
        let start = start_of(frame, before, sample, spot);
        elapsed = later(elapsed, distance(before, sample));
        spot = spot_of(frame, elapsed, level(before, sample));
        put_stroke(text, start, spot)?;
    }
    Ok(())
}

/// Returns a threshold in thousandths as a level: of a counter a rate, else a value, moved up as
/// values are.
fn limit_level(counted: bool, threshold: i64) -> u128
    ensures { result ≡ limit_level counted threshold }
{
    if counted {
        if threshold < 0 {
            0
        } else {
            u128::from(threshold.unsigned_abs())
        }
    } else {
        (i128::from(threshold / 1000) + (1 << 63)).unsigned_abs()
    }
}

/// Returns the scale with the thresholds of all rules.
fn with_rules(counted: bool, scale: Scale, rules: &[Rule]) -> Scale
    ensures { result ≡ with_rules counted scale rules.now }
{
    let mut scale = scale;
    for rule in rules {
        let rising = limit_level(counted, rule.rising());
        let falling = limit_level(counted, rule.falling());
        scale = widened(widened(scale, Some(rising)), Some(falling));
    }
    scale
}

/// Adds a line across the plot.
#[tactic(auto, unfolding(crate::specs::Plot::limit_line))]
fn put_limit(text: &mut Vec<u8>, scale: Scale, level: u128) -> Result<(), AllocError>
    ensures { OnOk result (text.new.items ≡ text.old.items ++ limit_line scale level) }
{
    let mut digits = Buffer::new();
    let down = digits.format(below_top(scale, level));
    put_between(text, b"M0 ", down.as_bytes(), b"h240")
}

/// Adds the lines of a rule.
#[tactic(auto, unfolding(crate::specs::Plot::rule_lines))]
fn put_rule(text: &mut Vec<u8>, counted: bool, scale: Scale, rule: &Rule) -> Result<(), AllocError>
    ensures { OnOk result (text.new.items ≡ text.old.items ++ rule_lines counted scale rule.now) }
{
    put_limit(text, scale, limit_level(counted, rule.rising()))?;
    put_limit(text, scale, limit_level(counted, rule.falling()))
}

/// Adds the lines of all rules.
fn put_rules(
    text: &mut Vec<u8>,
    counted: bool,
    scale: Scale,
    rules: &[Rule],
) -> Result<(), AllocError>
    ensures { OnOk result (text.new.items ≡ text.old.items ++ flat_map (rule_lines counted scale)
        rules.now) }
{
    for rule in rules {
        put_rule(text, counted, scale, rule)?;
    }
    Ok(())
}

/// Adds the path of the thresholds, if there are rules.
#[tactic(auto, unfolding(crate::specs::Plot::limit_path))]
fn put_limits(
    text: &mut Vec<u8>,
    counted: bool,
    scale: Scale,
    rules: &[Rule],
) -> Result<(), AllocError>
    ensures { OnOk result (text.new.items ≡ text.old.items ++ limits_text counted scale rules.now) }
{
    if rules.is_empty() {
        return Ok(());
    }
    text.extend_from_slice(b"<path class=\"limit\" d=\"")?;
    put_rules(text, counted, scale, rules)?;
    text.extend_from_slice(b"\"/>")
}

/// Adds the greatest level, unless it is 0.
fn put_greatest(
    alloc: Global,
    text: &mut Vec<u8>,
    column: Column,
    counted: bool,
    level: u128,
) -> Result<(), AllocError>
    ensures { OnOk result (text.new.items ≡ text.old.items ++ greatest_words column counted level) }
{
    if level == 0 {
        return Ok(());
    }
    text.extend_from_slice(b"max ")?;
    put_level(alloc, text, column, counted, level)
}

/// Adds the rising threshold of a rule.
pub(crate) fn put_limit_words(
    alloc: Global,
    text: &mut Vec<u8>,
    column: Column,
    counted: bool,
    rule: &Rule,
) -> Result<(), AllocError>
    ensures { OnOk result (text.new.items ≡ text.old.items ++ limit_words column counted rule.now) }
{
    put_level(
        alloc,
        text,
        column,
        counted,
        limit_level(counted, rule.rising()),
    )
}

/// Adds the rising threshold of a rule behind other words.
#[tactic(auto, unfolding(crate::specs::Plot::limit_note))]
fn put_limit_note(
    alloc: Global,
    text: &mut Vec<u8>,
    column: Column,
    counted: bool,
    rule: &Rule,
) -> Result<(), AllocError>
    ensures { OnOk result (text.new.items ≡ text.old.items ++ limit_note column counted rule.now) }
{
    text.extend_from_slice(b" limit ")?;
    put_limit_words(alloc, text, column, counted, rule)
}

/// Adds the rising thresholds of all rules.
fn put_limit_notes(
    alloc: Global,
    text: &mut Vec<u8>,
    column: Column,
    counted: bool,
    rules: &[Rule],
) -> Result<(), AllocError>
    ensures { OnOk result (text.new.items ≡ text.old.items ++ flat_map (limit_note column counted)
        rules.now) }
{
    for rule in rules {
        put_limit_note(alloc, text, column, counted, rule)?;
    }
    Ok(())
}

/// A plot of an instance: its samples, their own scale, and the rules on it.
#[derive(Clone, Copy)]
struct Drawing<'r, 'a, 'e> {
    row: &'r Row<'a, 'e>,
    counted: bool,
    own: Scale,
    samples: &'r [Sample],
    rules: &'r [Rule],
}

/// Adds the strokes of the plot of samples in this scale.
fn put_strokes(text: &mut Vec<u8>, scale: Scale, samples: &[Sample]) -> Result<(), AllocError>
    ensures { OnOk result (text.new.items ≡ text.old.items ++ points_from samples.now
        (frame_of scale samples.now) None 0 0 samples.now) }
{
    let frame = Frame {
        scale,
        span: span_of(samples),
        pairs: samples.len().saturating_sub(1),
    };
    put_points(text, frame, samples)
}

/// Adds what is said below a plot: the greatest level, unless it is 0, and the rising thresholds.
#[tactic(auto, unfolding(crate::specs::Plot::notes_text))]
fn put_notes(alloc: Global, text: &mut Vec<u8>, drawing: Drawing) -> Result<(), AllocError>
    ensures { OnOk result (text.new.items ≡ text.old.items
        ++ notes_text (column_of drawing.entry.row.now.entry.name) drawing.entry.counted drawing.entry.own.high drawing.entry.rules.now) }
{
    let column = drawing.row.column();
    put_greatest(alloc, text, column, drawing.counted, drawing.own.high)?;
    put_limit_notes(alloc, text, column, drawing.counted, drawing.rules)
}

/// Adds the plot of an instance, with the greatest level and the thresholds below it.
pub(crate) fn put_plot(alloc: Global, text: &mut Vec<u8>, row: &Row) -> Result<(), AllocError>
    ensures { OnOk result (text.new.items ≡ text.old.items ++ plot_of row.now) }
{
    let rules = row.entry().rules(alloc)?;
    let samples = row.entry().samples();
    let counted = is_counted(samples);
    put_drawing(
        alloc,
        text,
        Drawing {
            row,
            counted,
            own: scale_of(counted, samples),
            samples,
            rules: rules.as_slice(),
        },
    )
}

/// Adds a plot, whose label is the value now.
#[tactic(auto, unfolding(crate::specs::Plot::drawing_text))]
fn put_drawing(alloc: Global, text: &mut Vec<u8>, drawing: Drawing) -> Result<(), AllocError>
    ensures { OnOk result (text.new.items ≡ text.old.items
        ++ drawing_text drawing.entry.row.now drawing.entry.counted drawing.entry.own drawing.entry.samples.now drawing.entry.rules.now) }
{
    let scale = with_rules(drawing.counted, drawing.own, drawing.rules);
    text.extend_from_slice(
        b"<svg viewBox=\"0 -2 240 44\" preserveAspectRatio=\"none\" role=\"img\" aria-label=\"",
    )?;
    put_now(alloc, text, drawing.row)?;
    text.extend_from_slice(b"\"><path d=\"")?;
    put_strokes(text, scale, drawing.samples)?;
    text.extend_from_slice(b"\"/>")?;
    put_limits(text, drawing.counted, scale, drawing.rules)?;
    text.extend_from_slice(b"</svg><small>")?;
    put_notes(alloc, text, drawing)?;
    text.extend_from_slice(b"</small>")
}
