//! The head of the page: which station it is, how old it is, and its counts.

ghost use Rattle.std.specs.Prelude.{◌≡◌, ◌++◌, IfOk, None, OnOk, Some, filter, option_map, length, not};
ghost use Rattle.mon_page.specs.Devices.{is_up};
ghost use Rattle.mon_page.specs.Page.{count_item, count_start, counts_of, counts_text, file_counts, origin_line, part_item, peers_of, raised_alarms, round_text, station_counts, station_line, title_text};

use crate::devices::{Device, devices_of, targets_of};
use crate::escape::{put_between, put_escaped};
use crate::figures::{Figures, PeerFigures, TargetFigures};
use crate::numbers::{put_count, put_small};
use crate::row::Row;
use crate::words::put_duration;
use crate::wrong::raised_alarms;
use httpdate::HttpDate;
use std::alloc::{AllocError, Global};

/// How much there is of what an operator counts.
#[derive(Clone, Copy)]
pub(crate) struct Counts {
    pub devices: usize,
    /// Of the devices those that are up.
    pub up: usize,
    /// Raised alarms.
    pub raised: usize,
    /// Stale instances.
    pub stale: usize,
    pub peers: usize,
    /// Of the peers those that are not silent.
    pub heard: usize,
}

/// Returns the peers of a station.
fn peers_of<'a>(station: Option<&'a Figures>) -> &'a [PeerFigures]
    ensures { result.now ≡ peers_of (option_map (λ f. f.now) station.entry) }
{
    match station {
        None => &[],
        Some(figures) => figures.peers.as_slice(),
    }
}

/// Returns how many devices are up.
fn count_up(targets: &[TargetFigures], devices: &[Device]) -> usize
    ensures { result ≡ length (filter (is_up targets.now) devices.now) }
{
    devices
        .iter()
        .filter(|device| device.is_up(targets))
        .count()
}

/// Returns how many instances are stale.
fn count_stale(rows: &[Row]) -> usize
    ensures { result ≡ length (filter (λ r. not r.fresh) rows.now) }
{
    rows.iter().filter(|row| !row.is_fresh()).count()
}

/// Returns how many peers are not silent.
fn count_heard(peers: &[PeerFigures]) -> usize
    ensures { result ≡ length (filter (λ p. not p.silent) peers.now) }
{
    peers.iter().filter(|peer| !peer.silent).count()
}

/// Returns the counts of a page.
pub(crate) fn counts_of(
    alloc: Global,
    station: Option<&Figures>,
    rows: &[Row],
) -> Result<Counts, AllocError>
    ensures { IfOk result (λ counts. counts ≡ counts_of (option_map (λ f. f.now) station.entry)
        rows.now) }
{
    let raised = raised_alarms(alloc, rows)?.len();
    let devices = devices_of(alloc, rows)?;
    let targets = targets_of(station);
    let peers = peers_of(station);
    Ok(Counts {
        devices: devices.len(),
        up: count_up(targets, devices.as_slice()),
        raised,
        stale: count_stale(rows),
        peers: peers.len(),
        heard: count_heard(peers),
    })
}

/// Returns the beginning of a count, which is marked if it is bad.
fn count_start(bad: bool) -> &'static [u8]
    ensures { result.now ≡ count_start bad }
{
    if bad {
        b"<li class=\"bad\"><b>"
    } else {
        b"<li><b>"
    }
}

/// Adds a count, which is bad if there are any.
#[tactic(auto, unfolding(crate::specs::Page::count_item))]
fn put_count_item(text: &mut Vec<u8>, count: usize, words: &[u8]) -> Result<(), AllocError>
    ensures { OnOk result (text.new.items ≡ text.old.items ++ count_item count words.now) }
{
    text.extend_from_slice(count_start(0 < count))?;
    put_count(text, count)?;
    text.extend_from_slice(words)
}

/// Adds how many of all, which is bad if it is not all.
#[tactic(auto, unfolding(crate::specs::Page::part_item))]
fn put_part_item(
    text: &mut Vec<u8>,
    count: usize,
    all: usize,
    words: &[u8],
) -> Result<(), AllocError>
    ensures { OnOk result (text.new.items ≡ text.old.items ++ part_item count all words.now) }
{
    text.extend_from_slice(count_start(count < all))?;
    put_count(text, count)?;
    text.extend_from_slice(b"</b> of ")?;
    put_count(text, all)?;
    text.extend_from_slice(words)
}

/// Adds the counts of a station.
#[tactic(auto, unfolding(crate::specs::Page::station_counts))]
fn put_station_counts(text: &mut Vec<u8>, counts: Counts) -> Result<(), AllocError>
    ensures { OnOk result (text.new.items ≡ text.old.items ++ station_counts counts) }
{
    text.extend_from_slice(b"<ul class=\"counts\">\n")?;
    put_part_item(text, counts.up, counts.devices, b" devices up</li>\n")?;
    put_count_item(text, counts.raised, b"</b> alarms raised</li>\n")?;
    put_count_item(text, counts.stale, b"</b> stale instances</li>\n")?;
    put_part_item(text, counts.heard, counts.peers, b" peers heard</li>\n")?;
    text.extend_from_slice(b"</ul>\n</header>\n")
}

/// Adds the counts of a file.
#[tactic(auto, unfolding(crate::specs::Page::file_counts))]
fn put_file_counts(text: &mut Vec<u8>, counts: Counts) -> Result<(), AllocError>
    ensures { OnOk result (text.new.items ≡ text.old.items ++ file_counts counts) }
{
    text.extend_from_slice(b"<ul class=\"counts\">\n<li><b>")?;
    put_count(text, counts.devices)?;
    text.extend_from_slice(b"</b> devices</li>\n")?;
    put_count_item(text, counts.raised, b"</b> alarms raised</li>\n")?;
    text.extend_from_slice(b"</ul>\n</header>\n")
}

/// Adds the counts of a station or of a file.
pub(crate) fn put_counts(
    text: &mut Vec<u8>,
    station: Option<&Figures>,
    counts: Counts,
) -> Result<(), AllocError>
    ensures { OnOk result (text.new.items ≡ text.old.items ++ counts_text
        (option_map (λ f. f.now) station.entry) counts) }
{
    match station {
        None => put_file_counts(text, counts),
        Some(_) => put_station_counts(text, counts),
    }
}

/// Adds the title of a page: the station's number and its label, or what there is of them.
pub(crate) fn put_title(
    text: &mut Vec<u8>,
    station: Option<&Figures>,
    label: Option<&str>,
) -> Result<(), AllocError>
    ensures { OnOk result (text.new.items ≡ text.old.items ++ title_text
        (option_map (λ f. f.now) station.entry) (option_map (λ l. l.now) label.entry)) }
{
    let Some(figures) = station else {
        return match label {
            None => text.extend_from_slice(b"snmpmon"),
            Some(label) => put_escaped(text, label.as_bytes()),
        };
    };
    text.extend_from_slice(b"station ")?;
    put_small(text, figures.station)?;
    let Some(label) = label else {
        return Ok(());
    };
    text.extend_from_slice(b" &middot; ")?;
    put_escaped(text, label.as_bytes())
}

/// Adds when the last round ended, if one did before the year 10000.
fn put_round(text: &mut Vec<u8>, round_at: Option<u64>) -> Result<(), AllocError>
    ensures { OnOk result (text.new.items ≡ text.old.items ++ round_text round_at) }
{
    match round_at {
        None => Ok(()),
        Some(seconds) => put_date(text, seconds),
    }
}

/// Adds the date of a second in which a round ended, if it is before the year 10000.
fn put_date(text: &mut Vec<u8>, seconds: u64) -> Result<(), AllocError>
    ensures { OnOk result (text.new.items ≡ text.old.items ++ round_text (Some seconds)) }
{
    match HttpDate::from_unix_secs(seconds) {
        Ok(date) => put_between(text, b", last round ", &date.to_bytes(), b""),
        Err(_) => Ok(()),
    }
}

/// Adds which incarnation it is, and when the last round ended.
#[tactic(auto, unfolding(crate::specs::Page::station_line))]
fn put_station_line(text: &mut Vec<u8>, figures: &Figures) -> Result<(), AllocError>
    ensures { OnOk result (text.new.items ≡ text.old.items ++ station_line figures.now) }
{
    text.extend_from_slice(b"<p><small>incarnation ")?;
    put_small(text, figures.incarnation)?;
    text.extend_from_slice(b"</small>")?;
    put_round(text, figures.round_at)?;
    text.extend_from_slice(b"</p>\n")
}

/// Adds the line of a station, or how old a file is, if that is known.
pub(crate) fn put_origin(
    text: &mut Vec<u8>,
    station: Option<&Figures>,
    file_age: Option<u64>,
) -> Result<(), AllocError>
    ensures { OnOk result (text.new.items ≡ text.old.items ++ origin_line
        (option_map (λ f. f.now) station.entry) file_age) }
{
    if let Some(figures) = station {
        return put_station_line(text, figures);
    }
    let Some(seconds) = file_age else {
        return Ok(());
    };
    text.extend_from_slice(b"<p>The file is ")?;
    put_duration(text, seconds)?;
    text.extend_from_slice(b" old.</p>\n")
}
