//! Samples by their records, and what a window of them keeps, counts and raises.

use mon_alarms::{AlarmEvent, AlarmState, Rule, put_changes, state};
use mon_rates::{Totals, Track};
use mon_row_texts::{octets, parsed, put, put_digits, put_fault, three, two};
use mon_sample::Sample;
use mon_window::{Inserted, Window};
use std::alloc::Global;

/// Appends the fields of the sample of this record, and its record as it is written; or the fault.
pub(crate) fn row(alloc: Global, text: &mut String, digits: &str) -> Option<()> {
    let octets = octets(alloc, digits)?;
    let sample = match Sample::from_record(octets.as_slice().first_chunk::<21>()?) {
        Ok(sample) => sample,
        Err(why) => return put_fault(text, why.number(), why.name()),
    };
    put_stamp(text, &sample)?;
    let (discontinuity, kind, number) = (
        sample.discontinuity(),
        sample.kind().name(),
        sample.number(),
    );
    write!(text, " {discontinuity} {kind}={number} ").ok()?;
    put_digits(text, sample.to_record().as_slice())
}

/// Appends the boots and the time of a sample.
pub(crate) fn put_stamp(text: &mut String, sample: &Sample) -> Option<()> {
    write!(text, "{}:{}", sample.boots(), sample.time()).ok()
}

/// Says how the first of two samples compares with the second.
pub(crate) fn compared(alloc: Global, text: &mut String, words: &str) -> Option<()> {
    let (own, other) = two(words, ' ')?;
    let order = sample_of(alloc, own)?.compare(&sample_of(alloc, other)?);
    write!(text, "{order:?}").ok()
}

/// Reads the sample of a record.
pub(crate) fn sample_of(alloc: Global, digits: &str) -> Option<Sample> {
    let octets = octets(alloc, digits)?;
    Sample::from_record(octets.as_slice().first_chunk::<21>()?).ok()
}

/// Reads the samples of records with commas between them; of a dash none.
pub(crate) fn samples_of(alloc: Global, words: &str) -> Option<Vec<Sample>> {
    let mut samples = Vec::new(alloc);
    if words == "-" {
        return Some(samples);
    }
    for word in words.split(',') {
        samples.push(sample_of(alloc, word)?).ok()?;
    }
    Some(samples)
}

/// Makes an empty track of this size and epoch.
fn track_of(alloc: Global, size: &str, epoch: &str) -> Option<Track> {
    let size = parsed(size)?;
    let epoch = parsed(epoch)?;
    if epoch < 1 || epoch > size || size > 64 {
        return None;
    }
    Track::new(alloc, size, epoch).ok()
}

/// Says what becomes of each sample of a line `SIZE EPOCH RECORD,..`, and what the track has
/// counted after it, in how many seconds and pairs; at last the stamps of what it keeps.
pub(crate) fn track(alloc: Global, text: &mut String, line: &str) -> Option<()> {
    let (size, epoch, records) = three(line, ' ')?;
    let samples = samples_of(alloc, records)?;
    let mut track = track_of(alloc, size, epoch)?;
    for sample in samples.as_slice() {
        put_inserted(text, track.insert(*sample))?;
        put_totals(text, &track)?;
    }
    put_kept(text, track.items())
}

/// Appends what became of a sample.
pub(crate) fn put_inserted(text: &mut String, inserted: Inserted) -> Option<()> {
    match inserted {
        Inserted::Added { at, dropped: None } => write!(text, "added at {at}").ok(),
        Inserted::Added {
            at,
            dropped: Some(sample),
        } => {
            write!(text, "added at {at} for ").ok()?;
            put_stamp(text, &sample)
        }
        Inserted::Known => put(text, "known"),
        Inserted::TooOld => put(text, "too old"),
    }
}

/// Appends a track's totals, if they are those of its items.
fn put_totals(text: &mut String, track: &Track) -> Option<()> {
    let totals = track.totals();
    if totals != Totals::of(track.items()) {
        return None;
    }
    let (delta, span, pairs) = (totals.delta, totals.span, totals.pairs);
    write!(text, " {delta}/{span}/{pairs}, ").ok()
}

/// Appends the stamps of what is kept.
fn put_kept(text: &mut String, items: &[Sample]) -> Option<()> {
    put(text, "kept")?;
    for sample in items {
        put(text, " ")?;
        put_stamp(text, sample)?;
    }
    Some(())
}

/// Says what becomes of each sample of a line `SIZE EPOCH RECORD,..` in a window; at last the
/// stamps of what it keeps.
pub(crate) fn window(alloc: Global, text: &mut String, line: &str) -> Option<()> {
    let (size, epoch, records) = three(line, ' ')?;
    let samples = samples_of(alloc, records)?;
    let (size, epoch) = (parsed(size)?, parsed(epoch)?);
    if epoch < 1 || epoch > size || size > 64 {
        return None;
    }
    let mut window = Window::new(alloc, size, epoch).ok()?;
    for sample in samples.as_slice() {
        put_inserted(text, window.insert(*sample))?;
        put(text, ", ")?;
    }
    put_kept(text, window.items())
}

/// Appends the totals of two tracks of a line `SIZE EPOCH RECORD,.. RECORD,..` that are joined, and
/// the stamps of what they keep.
pub(crate) fn joined(alloc: Global, text: &mut String, line: &str) -> Option<()> {
    let (size, epoch, rest) = three(line, ' ')?;
    let (own, others) = two(rest, ' ')?;
    let mut track = filled(alloc, size, epoch, own)?;
    let other = filled(alloc, size, epoch, others)?;
    if track.size() != other.size() || track.epoch() != other.epoch() {
        return None;
    }
    track.join(&other);
    put_totals(text, &track)?;
    put_kept(text, track.items())
}

/// Makes a track with the samples of these records.
fn filled(alloc: Global, size: &str, epoch: &str, records: &str) -> Option<Track> {
    let samples = samples_of(alloc, records)?;
    let mut track = track_of(alloc, size, epoch)?;
    for sample in samples.as_slice() {
        let _ = track.insert(*sample);
    }
    Some(track)
}

/// Appends the state of the rule of a line `RISING FALLING RECORD,..` over its samples; or the
/// fault of the thresholds.
pub(crate) fn alarm(alloc: Global, text: &mut String, line: &str) -> Option<()> {
    let (rising, falling, records) = three(line, ' ')?;
    let (rising, falling) = (parsed(rising)?, parsed(falling)?);
    let samples = samples_of(alloc, records)?;
    let rule = match Rule::new(0, rising, falling) {
        Ok(rule) => rule,
        Err(why) => return put_fault(text, why.number(), why.name()),
    };
    match state(&rule, samples.as_slice()) {
        AlarmState::Clear => put(text, "clear"),
        AlarmState::Raised { boots, time } => write!(text, "raised@{boots}:{time}").ok(),
    }
}

/// Appends what became of the alarm of a line `RISING FALLING RECORD,.. RECORD,..` between a look
/// at the first samples and one at the others.
pub(crate) fn changes(alloc: Global, text: &mut String, line: &str) -> Option<()> {
    let (rising, falling, rest) = three(line, ' ')?;
    let (was, is) = two(rest, ' ')?;
    let rule = Rule::new(0, parsed(rising)?, parsed(falling)?).ok()?;
    let (was, is) = (samples_of(alloc, was)?, samples_of(alloc, is)?);
    let mut changes = Vec::new(alloc);
    put_changes(&mut changes, 0, &rule, was.as_slice(), is.as_slice()).ok()?;
    put(text, "then")?;
    for change in changes.as_slice() {
        put_event(text, change.event)?;
    }
    Some(())
}

fn put_event(text: &mut String, event: AlarmEvent) -> Option<()> {
    match event {
        AlarmEvent::Raised { boots, time } => write!(text, " raised@{boots}:{time}").ok(),
        AlarmEvent::Cleared { boots, time } => write!(text, " clear@{boots}:{time}").ok(),
        AlarmEvent::Lapsed => put(text, " clear"),
    }
}
