//! What a station says of itself.

ghost use Rattle.std.specs.Prelude.{◌≡◌, ◌++◌, OnOk};
ghost use Rattle.mon_formats.specs.Prometheus.{debt_line, debts_text, dropped_if, duration_text, info_text};
ghost use Rattle.mon_formats.specs.Prometheus.{plain_metric, rounds_text, station_head, station_help};
ghost use Rattle.mon_formats.specs.Prometheus.{station_name, station_text, station_type};

use crate::VERSION;
use crate::prometheus::peer::{put_peer_labels, put_peers};
use crate::prometheus::target::put_targets;
use crate::prometheus::text::{
    Exposition, Kind, put_head, put_line, put_more, put_number_end, put_rate_end, put_station_label,
};
use mon_page::Figures;
use std::alloc::AllocError;

/// A metric of the station itself.
#[derive(Clone, Copy, PartialEq, Eq)]
pub(crate) enum StationMetric {
    /// Which program and which station it is.
    Info,
    /// How often the station was started over its file.
    Incarnation,
    /// How many samples it took.
    Taken,
    /// How many polls it gave up.
    GivenUp,
    /// How many samples it owes a peer.
    Debt,
    /// How many of its saves failed.
    FailedSaves,
    /// How many datagrams came from an address of no target and no peer.
    Strangers,
    /// How many notifications it could not deliver and dropped.
    Dropped,
    /// How long its last round took.
    Duration,
    /// How long a round takes at least.
    Interval,
    /// How many rounds took longer than that.
    Overruns,
    /// When its last round ended.
    LastRound,
    /// In how many rounds an instance had no new sample.
    Age,
}

impl StationMetric {
    /// The name, as Prometheus has it.
    pub(crate) fn name(self) -> &'static str
        ensures { result.now ≡ station_name self }
    {
        match self {
            StationMetric::Info => "snmpmon_info",
            StationMetric::Incarnation => "snmpmon_incarnation",
            StationMetric::Taken => "snmpmon_samples_taken_total",
            StationMetric::GivenUp => "snmpmon_polls_given_up_total",
            StationMetric::Debt => "snmpmon_debt",
            StationMetric::FailedSaves => "snmpmon_saves_failed_total",
            StationMetric::Strangers => "snmpmon_strangers_total",
            StationMetric::Dropped => "snmpmon_notifications_dropped_total",
            StationMetric::Duration => "snmpmon_round_duration_seconds",
            StationMetric::Interval => "snmpmon_round_interval_seconds",
            StationMetric::Overruns => "snmpmon_rounds_overrun_total",
            StationMetric::LastRound => "snmpmon_last_round_timestamp_seconds",
            StationMetric::Age => "snmpmon_sample_age_rounds",
        }
    }

    /// What it is, and what to do with it.
    pub(crate) fn help(self) -> &'static str
        ensures { result.now ≡ station_help self }
    {
        match self {
            StationMetric::Info =>
                "The program's version and the station's number. Its value is always 1.",
            StationMetric::Incarnation =>
                "How often the station was started over its file. It rises by one at each restart.",
            StationMetric::Taken =>
                "Samples that the station took since it began. Look at snmpmon_target_up where it no longer rises.",
            StationMetric::GivenUp =>
                "Polls that the station gave up since it began. Look at snmpmon_target_up where it rises.",
            StationMetric::Debt =>
                "Samples that the station owes a peer. Look at that peer and the way to it where it goes on rising.",
            StationMetric::FailedSaves =>
                "Saves that failed since the station began. Look at its disk and the rights of its file where it rises.",
            StationMetric::Strangers =>
                "Datagrams since the station began from an address of no target and no peer. Find the sender where it rises.",
            StationMetric::Dropped =>
                "Notifications that the station could not deliver and dropped since it began. Look at the receiver of --notify where it rises.",
            StationMetric::Duration =>
                "How long the last round took. Rounds begin late where it exceeds snmpmon_round_interval_seconds.",
            StationMetric::Interval =>
                "Seconds between the beginnings of two rounds, at least. 0 where rounds follow one another.",
            StationMetric::Overruns =>
                "Rounds since the station began that took longer than the interval. Lower tries and wait_ms where it rises.",
            StationMetric::LastRound =>
                "When the last round ended, in seconds since 1970. Look at the station where it is long before time().",
            StationMetric::Age =>
                "Rounds since an instance had a new sample, or since the station began. It is stale from --stale-after on.",
        }
    }

    /// Its type.
    pub(crate) fn kind(self) -> Kind
        ensures { result ≡ station_type self }
    {
        match self {
            StationMetric::Taken
            | StationMetric::GivenUp
            | StationMetric::FailedSaves
            | StationMetric::Strangers
            | StationMetric::Dropped
            | StationMetric::Overruns => Kind::Counter,
            StationMetric::Info => Kind::Info,
            StationMetric::Incarnation
            | StationMetric::Debt
            | StationMetric::Duration
            | StationMetric::Interval
            | StationMetric::LastRound
            | StationMetric::Age => Kind::Gauge,
        }
    }
}

/// Adds what a station says of itself.
#[tactic(auto, unfolding(crate::specs::Prometheus::station_text))]
pub(crate) fn put_station(
    format: Exposition,
    text: &mut Vec<u8>,
    figures: &Figures,
) -> Result<(), AllocError>
    ensures { OnOk result (text.new.items ≡ text.old.items ++ station_text format figures.now) }
{
    let station = figures.station;
    let starts = u64::from(figures.incarnation);
    let given_up = figures.given_up;
    let failed = figures.failed_saves;
    let strangers = figures.strangers;
    put_info(format, text, station)?;
    put_plain(format, text, station, StationMetric::Incarnation, starts)?;
    put_plain(format, text, station, StationMetric::Taken, figures.taken)?;
    put_plain(format, text, station, StationMetric::GivenUp, given_up)?;
    put_debts(format, text, station, figures.debts.as_slice())?;
    put_peers(format, text, station, figures.peers.as_slice())?;
    put_plain(format, text, station, StationMetric::FailedSaves, failed)?;
    put_plain(format, text, station, StationMetric::Strangers, strangers)?;
    put_dropped(format, text, station, figures.notifications_dropped)?;
    put_rounds(format, text, figures)?;
    put_targets(format, text, station, figures.targets.as_slice())
}

/// Adds how many notifications the station dropped, if it sends any.
fn put_dropped(
    format: Exposition,
    text: &mut Vec<u8>,
    station: u32,
    dropped: Option<u64>,
) -> Result<(), AllocError>
    ensures { OnOk result (text.new.items ≡ text.old.items ++ dropped_if format station dropped) }
{
    match dropped {
        None => Ok(()),
        Some(count) => put_plain(format, text, station, StationMetric::Dropped, count),
    }
}

/// Adds what a station says of its rounds.
#[tactic(auto, unfolding(crate::specs::Prometheus::rounds_text))]
fn put_rounds(format: Exposition, text: &mut Vec<u8>, figures: &Figures) -> Result<(), AllocError>
    ensures { OnOk result (text.new.items ≡ text.old.items ++ rounds_text format figures.now) }
{
    let station = figures.station;
    let interval = u64::from(figures.interval);
    put_duration(format, text, station, figures.round_ms)?;
    put_plain(format, text, station, StationMetric::Interval, interval)?;
    put_plain(
        format,
        text,
        station,
        StationMetric::Overruns,
        figures.overruns,
    )?;
    match figures.round_at {
        None => Ok(()),
        Some(seconds) => put_plain(format, text, station, StationMetric::LastRound, seconds),
    }
}

/// Adds which program and which station it is: both are labels.
#[tactic(auto, unfolding(crate::specs::Prometheus::info_text))]
fn put_info(format: Exposition, text: &mut Vec<u8>, station: u32) -> Result<(), AllocError>
    ensures { OnOk result (text.new.items ≡ text.old.items ++ info_text format station) }
{
    let mut labels = Vec::new(*text.allocator());
    put_station_label(&mut labels, station)?;
    put_more(&mut labels, "version", VERSION.as_bytes())?;
    put_metric_head(format, text, StationMetric::Info)?;
    put_line(text, StationMetric::Info.name(), labels.as_slice(), 1)
}

/// Adds the first two lines of a metric.
pub(crate) fn put_metric_head(
    format: Exposition,
    text: &mut Vec<u8>,
    metric: StationMetric,
) -> Result<(), AllocError>
    ensures { OnOk result (text.new.items ≡ text.old.items ++ station_head format metric) }
{
    put_head(format, text, metric.name(), metric.help(), metric.kind())
}

/// Adds a metric of one line, which has no label but the station's number.
#[tactic(auto, unfolding(crate::specs::Prometheus::plain_metric, crate::specs::Prometheus::metric_line))]
fn put_plain(
    format: Exposition,
    text: &mut Vec<u8>,
    station: u32,
    metric: StationMetric,
    value: u64,
) -> Result<(), AllocError>
    ensures { OnOk result (text.new.items ≡ text.old.items ++ plain_metric format station metric
        value) }
{
    put_metric_head(format, text, metric)?;
    text.extend_from_slice(metric.name().as_bytes())?;
    put_station_label(text, station)?;
    put_number_end(text, value)
}

/// Adds how long the last round took, which is given in milliseconds.
#[tactic(auto, unfolding(crate::specs::Prometheus::duration_text, crate::specs::Prometheus::metric_line))]
fn put_duration(
    format: Exposition,
    text: &mut Vec<u8>,
    station: u32,
    milliseconds: u64,
) -> Result<(), AllocError>
    ensures { OnOk result (text.new.items ≡ text.old.items ++ duration_text format station
        milliseconds) }
{
    put_metric_head(format, text, StationMetric::Duration)?;
    text.extend_from_slice(StationMetric::Duration.name().as_bytes())?;
    put_station_label(text, station)?;
    put_rate_end(text, u128::from(milliseconds))
}

/// Adds how many samples the station owes each peer.
#[tactic(auto, unfolding(crate::specs::Prometheus::debts_text))]
fn put_debts(
    format: Exposition,
    text: &mut Vec<u8>,
    station: u32,
    debts: &[(u32, u32)],
) -> Result<(), AllocError>
    ensures { OnOk result (text.new.items ≡ text.old.items ++ debts_text format station debts.now) }
{
    put_metric_head(format, text, StationMetric::Debt)?;
    for (peer, count) in debts {
        put_debt(text, station, *peer, *count)?;
    }
    Ok(())
}

/// Adds a peer's line: its number is a label, and the value is how many samples it is owed.
#[tactic(auto, unfolding(crate::specs::Prometheus::metric_line))]
fn put_debt(text: &mut Vec<u8>, station: u32, peer: u32, count: u32) -> Result<(), AllocError>
    ensures { OnOk result (text.new.items ≡ text.old.items ++ debt_line station (peer, count)) }
{
    text.extend_from_slice(StationMetric::Debt.name().as_bytes())?;
    put_peer_labels(text, station, peer)?;
    put_number_end(text, u64::from(count))
}
