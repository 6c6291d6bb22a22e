//! The parts of Prometheus' text format and of OpenMetrics.

ghost use Rattle.std.specs.Prelude.{◌≡◌, ◌<◌, ◌≤◌, ◌+◌, ◌*◌, ◌++◌, OnOk, Some, decimal, true};
ghost use Rattle.std.specs.List.{flat_map, list_all};
ghost use Rattle.mon_formats.specs.Prometheus.{escaped, label_text, metric_line, head_text, comment_line};
ghost use Rattle.mon_formats.specs.Prometheus.{end_text, family_name, line_end, suffix_length, type_word};
ghost use Rattle.mon_formats.specs.Prometheus.{is_plain, more_label, station_label};
ghost use Rattle.mon_report.specs.Report.{rate_text};

use itoa::{Buffer, write_digits};
use mon_report::write_rate;
use std::alloc::AllocError;

/// A format that Prometheus reads.
#[derive(Clone, Copy, Debug, PartialEq, Eq)]
pub(crate) enum Exposition {
    /// The text format, version 0.0.4.
    Prometheus,
    /// OpenMetrics 1.0.
    OpenMetrics,
}

/// The type of a metric.
#[derive(Clone, Copy, Debug, PartialEq, Eq)]
pub(crate) enum Kind {
    /// It only rises, until it begins again.
    Counter,
    /// It may fall.
    Gauge,
    /// Its labels say something, and its value is always 1.
    Info,
}

impl Kind {
    /// Returns the word for it.
    fn word(self, format: Exposition) -> &'static str
        ensures { result.now ≡ type_word format self }
    {
        match self {
            Kind::Counter => "counter",
            Kind::Gauge => "gauge",
            Kind::Info => match format {
                Exposition::Prometheus => "gauge",
                Exposition::OpenMetrics => "info",
            },
        }
    }

    /// Returns how many octets at the end of a sample's name are no part of its family's name.
    fn suffix_length(self, format: Exposition) -> usize
        ensures { result ≡ suffix_length format self }
    {
        match format {
            Exposition::Prometheus => 0,
            Exposition::OpenMetrics => match self {
                Kind::Counter => 6,
                Kind::Info => 5,
                Kind::Gauge => 0,
            },
        }
    }
}

/// Adds what a metric is, and of which type, by the name of its family.
#[tactic(auto, unfolding(crate::specs::Prometheus::head_text, crate::specs::Prometheus::family_name))]
pub(crate) fn put_head(
    format: Exposition,
    text: &mut Vec<u8>,
    metric: &str,
    help: &str,
    kind: Kind,
) -> Result<(), AllocError>
    ensures { OnOk result (text.new.items
        ≡ text.old.items ++ head_text format metric.now help.now kind) }
{
    let name = metric.as_bytes();
    let family = &name[..name.len().saturating_sub(kind.suffix_length(format))];
    put_comment(text, "HELP", family, help)?;
    put_comment(text, "TYPE", family, kind.word(format))
}

/// Adds the end of a text.
pub(crate) fn put_end(format: Exposition, text: &mut Vec<u8>) -> Result<(), AllocError>
    ensures { OnOk result (text.new.items ≡ text.old.items ++ end_text format) }
{
    match format {
        Exposition::Prometheus => Ok(()),
        Exposition::OpenMetrics => text.extend_from_slice(b"# EOF\n"),
    }
}

/// Adds a line that says something of a metric to Prometheus.
#[tactic(auto, unfolding(crate::specs::Prometheus::comment_line))]
fn put_comment(
    text: &mut Vec<u8>,
    keyword: &str,
    metric: &[u8],
    content: &str,
) -> Result<(), AllocError>
    ensures { OnOk result (text.new.items ≡ text.old.items ++ comment_line keyword.now metric.now
        content.now) }
{
    text.extend_from_slice(b"# ")?;
    text.extend_from_slice(keyword.as_bytes())?;
    text.extend_from_slice(b" ")?;
    text.extend_from_slice(metric)?;
    text.extend_from_slice(b" ")?;
    text.extend_from_slice(content.as_bytes())?;
    text.extend_from_slice(b"\n")
}

/// Adds a line of a metric with its labels, which begin with their brace, and a number as its
/// value.
#[tactic(auto, unfolding(crate::specs::Prometheus::metric_line))]
pub(crate) fn put_line(
    text: &mut Vec<u8>,
    metric: &str,
    labels: &[u8],
    number: u64,
) -> Result<(), AllocError>
    ensures { OnOk result (text.new.items ≡ text.old.items ++ metric_line metric.now labels.now
        (decimal number)) }
{
    text.extend_from_slice(metric.as_bytes())?;
    text.extend_from_slice(labels)?;
    put_number_end(text, number)
}

/// Adds the end of a line with a number as its value, all at once.
pub(crate) fn put_number_end(text: &mut Vec<u8>, number: u64) -> Result<(), AllocError>
    ensures { OnOk result (text.new.items ≡ text.old.items ++ line_end (decimal number)) }
{
    let mut end = [b'\n'; 23];
    let start = write_digits(number, &mut end, 22);
    end[start - 1] = b' ';
    end[start - 2] = b'}';
    text.extend_from_slice(&end[start - 2..])
}

/// Adds the end of a line with a number of thousandths as its value, which is written with three
/// digits after the point.
#[tactic(auto, unfolding(crate::specs::Prometheus::line_end))]
pub(crate) fn put_rate_end(text: &mut Vec<u8>, thousandths: u128) -> Result<(), AllocError>
    ensures { OnOk result (text.new.items
        ≡ text.old.items ++ line_end (rate_text (Some thousandths))) }
{
    let below = (thousandths % 1000) as u16;
    match u64::try_from(thousandths / 1000) {
        Ok(whole) => put_point_end(text, whole, below),
        Err(_) => {
            text.extend_from_slice(b"} ")?;
            if !write_rate(text, true, thousandths) {
                return Err(AllocError);
            }
            text.extend_from_slice(b"\n")
        }
    }
}

/// Adds the end of a line with a number and thousandths behind the point as its value, all at once.
fn put_point_end(text: &mut Vec<u8>, whole: u64, below: u16) -> Result<(), AllocError>
    requires { below < 1000 }
    ensures { OnOk result (text.new.items
        ≡ text.old.items ++ line_end (rate_text (Some (1000 * whole + below)))) }
{
    let mut end = [b'\n'; 27];
    end[25] = b'0' + (below % 10) as u8;
    end[24] = b'0' + (below / 10 % 10) as u8;
    end[23] = b'0' + (below / 100) as u8;
    end[22] = b'.';
    let start = write_digits(whole, &mut end, 22);
    end[start - 1] = b' ';
    end[start - 2] = b'}';
    text.extend_from_slice(&end[start - 2..])
}

/// Adds a label with its value.
#[tactic(auto, unfolding(crate::specs::Prometheus::label_text))]
pub(crate) fn put_label(text: &mut Vec<u8>, label: &str, value: &[u8]) -> Result<(), AllocError>
    ensures { OnOk result (text.new.items ≡ text.old.items ++ label_text label.now value.now) }
{
    text.extend_from_slice(label.as_bytes())?;
    text.extend_from_slice(b"=\"")?;
    put_escaped(text, value)?;
    text.extend_from_slice(b"\"")
}

/// Adds one more label with its value.
#[tactic(auto, unfolding(crate::specs::Prometheus::more_label))]
pub(crate) fn put_more(text: &mut Vec<u8>, label: &str, value: &[u8]) -> Result<(), AllocError>
    ensures { OnOk result (text.new.items ≡ text.old.items ++ more_label label.now value.now) }
{
    text.extend_from_slice(b",")?;
    put_label(text, label, value)
}

/// Adds the number of a station as the first label.
#[tactic(auto, unfolding(crate::specs::Prometheus::station_label))]
pub(crate) fn put_station_label(text: &mut Vec<u8>, station: u32) -> Result<(), AllocError>
    ensures { OnOk result (text.new.items ≡ text.old.items ++ station_label station) }
{
    let mut digits = Buffer::new();
    text.extend_from_slice(b"{")?;
    put_label(text, "station", digits.format(station).as_bytes())
}

/// Adds octets, of which a backslash, a quote and a line feed get a backslash before them.
fn put_escaped(text: &mut Vec<u8>, octets: &[u8]) -> Result<(), AllocError>
    ensures { OnOk result (text.new.items ≡ text.old.items ++ flat_map escaped octets.now) }
{
    if are_plain(octets) {
        put_plain(text, octets)
    } else {
        put_octets(text, octets)
    }
}

/// Returns `true` if none of these octets gets a backslash before it.
fn are_plain(octets: &[u8]) -> bool
    ensures { result ≡ list_all is_plain octets.now }
{
    octets.iter().all(|octet| is_plain(*octet))
}

/// Returns `true` if an octet gets no backslash before it.
fn is_plain(octet: u8) -> bool
    ensures { result ≡ is_plain octet }
{
    octet != b'\\' && octet != b'"' && octet != b'\n'
}

/// Adds octets of which none gets a backslash before it, all at once.
#[tactic(auto, using(crate::proofs::Plain::added))]
fn put_plain(text: &mut Vec<u8>, octets: &[u8]) -> Result<(), AllocError>
    requires { list_all is_plain octets.now ≡ true }
    ensures { OnOk result (text.new.items ≡ text.old.items ++ flat_map escaped octets.now) }
{
    text.extend_from_slice(octets)
}

/// Adds octets one by one, those that need it with a backslash before them.
fn put_octets(text: &mut Vec<u8>, octets: &[u8]) -> Result<(), AllocError>
    ensures { OnOk result (text.new.items ≡ text.old.items ++ flat_map escaped octets.now) }
{
    for octet in octets {
        put_octet(text, *octet)?;
    }
    Ok(())
}

/// Adds an octet of a label's value.
fn put_octet(text: &mut Vec<u8>, octet: u8) -> Result<(), AllocError>
    ensures { OnOk result (text.new.items ≡ text.old.items ++ escaped octet) }
{
    match octet {
        b'\\' => text.extend_from_slice(b"\\\\"),
        b'"' => text.extend_from_slice(b"\\\""),
        b'\n' => text.extend_from_slice(b"\\n"),
        _ => text.extend_from_slice(&[octet]),
    }
}
