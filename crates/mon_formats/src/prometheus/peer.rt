//! What a station says of its peers.

ghost use Rattle.std.specs.Prelude.{◌≡◌, ◌++◌, OnOk};
ghost use Rattle.mon_formats.specs.Prometheus.{peer_help, peer_labels, peer_line, peer_metric};
ghost use Rattle.mon_formats.specs.Prometheus.{peer_name, peer_value, peers_text};

use crate::prometheus::target::one_if;
use crate::prometheus::text::{
    Exposition, Kind, put_head, put_more, put_number_end, put_station_label,
};
use itoa::Buffer;
use mon_page::PeerFigures;
use std::alloc::AllocError;

/// A metric of a peer.
#[derive(Clone, Copy, Debug, PartialEq, Eq)]
enum PeerMetric {
    /// Says whether a datagram came from it of late.
    PeerUp,
    /// How many rounds ago its last datagram came.
    LastHeard,
}

impl PeerMetric {
    /// The name, as Prometheus has it.
    fn name(self) -> &'static str
        ensures { result.now ≡ peer_name self }
    {
        match self {
            PeerMetric::PeerUp => "snmpmon_peer_up",
            PeerMetric::LastHeard => "snmpmon_peer_last_heard_rounds",
        }
    }

    /// What it is, and what to do with it.
    fn help(self) -> &'static str
        ensures { result.now ≡ peer_help self }
    {
        match self {
            PeerMetric::PeerUp =>
                "1 where a peer was heard within the rounds of --stale-after. Look at that station where it is 0.",
            PeerMetric::LastHeard =>
                "Whole rounds since a datagram came from a peer, or since the station began. Look at that peer where it rises.",
        }
    }

    /// What it says of a peer.
    fn value(self, peer: &PeerFigures) -> u64
        ensures { result ≡ peer_value self peer.now }
    {
        match self {
            PeerMetric::PeerUp => one_if(!peer.silent),
            PeerMetric::LastHeard => u64::from(peer.rounds),
        }
    }
}

/// Adds what a station says of its peers, metric by metric.
#[tactic(auto, unfolding(crate::specs::Prometheus::peers_text))]
pub(crate) fn put_peers(
    format: Exposition,
    text: &mut Vec<u8>,
    station: u32,
    peers: &[PeerFigures],
) -> Result<(), AllocError>
    ensures { OnOk result (text.new.items ≡ text.old.items ++ peers_text format station peers.now) }
{
    put_peer_metric(format, text, station, peers, PeerMetric::PeerUp)?;
    put_peer_metric(format, text, station, peers, PeerMetric::LastHeard)
}

/// Adds a metric with a line for each peer.
#[tactic(auto, unfolding(crate::specs::Prometheus::peer_metric))]
fn put_peer_metric(
    format: Exposition,
    text: &mut Vec<u8>,
    station: u32,
    peers: &[PeerFigures],
    metric: PeerMetric,
) -> Result<(), AllocError>
    ensures { OnOk result (text.new.items
        ≡ text.old.items ++ peer_metric format station metric peers.now) }
{
    put_head(format, text, metric.name(), metric.help(), Kind::Gauge)?;
    for peer in peers {
        put_peer(text, station, peer, metric)?;
    }
    Ok(())
}

/// Adds the line of a metric for a peer.
#[tactic(auto, unfolding(crate::specs::Prometheus::metric_line))]
fn put_peer(
    text: &mut Vec<u8>,
    station: u32,
    peer: &PeerFigures,
    metric: PeerMetric,
) -> Result<(), AllocError>
    ensures { OnOk result (text.new.items ≡ text.old.items ++ peer_line station metric peer.now) }
{
    text.extend_from_slice(metric.name().as_bytes())?;
    put_peer_labels(text, station, peer.station)?;
    put_number_end(text, metric.value(peer))
}

/// Adds the labels of a peer: the station's number, and the peer's.
#[tactic(auto, unfolding(crate::specs::Prometheus::peer_labels))]
pub(crate) fn put_peer_labels(
    labels: &mut Vec<u8>,
    station: u32,
    peer: u32,
) -> Result<(), AllocError>
    ensures { OnOk result (labels.new.items ≡ labels.old.items ++ peer_labels station peer) }
{
    let mut digits = Buffer::new();
    put_station_label(labels, station)?;
    put_more(labels, "peer", digits.format(peer).as_bytes())
}
