//! The formats of a report.

ghost use Rattle.std.specs.Prelude.{◌≡◌, ◌≢◌, IfNone, IfOk, IfSome, option_map};
ghost use Rattle.mon_formats.specs.FormatWord.{format_word};
ghost use Rattle.mon_formats.specs.Formats.{formatted};
ghost use Rattle.mon_formats.specs.Json.{ReadsAsReport};
ghost use Rattle.mon_formats.specs.declared.format.Format.TheVariants.{Json};

use crate::as_json::json_report;
use crate::named::named_report;
use crate::prometheus::prometheus_report;
use crate::prometheus::text::Exposition;
use mon_page::{Extras, page_report};
use mon_report::Entry;
use mon_smi::NameTexts;
use mon_table::table_report;
use std::alloc::AllocError;

/// A format of a report.
#[derive(Clone, Copy, Debug, PartialEq, Eq)]
pub enum Format {
    /// Of each instance a line of text, and a last line that counts.
    Text,
    /// JSON (RFC 8259) on one line.
    Json,
    /// Prometheus' text exposition format, version 0.0.4.
    Prometheus,
    /// OpenMetrics 1.0, which Prometheus reads too.
    OpenMetrics,
    /// A table for people.
    Columns,
    /// A page for a browser.
    Html,
}

impl Format {
    /// The format that this word names.
    pub fn from_word(word: &str) -> Option<Self>
        ensures found { IfSome result (λ format. word.now ≡ format_word format) }
        ensures none { IfNone result ((format : Format) → word.now ≢ format_word format) }
    {
        match word {
            "text" => Some(Format::Text),
            "json" => Some(Format::Json),
            "prometheus" => Some(Format::Prometheus),
            "openmetrics" => Some(Format::OpenMetrics),
            "columns" => Some(Format::Columns),
            "html" => Some(Format::Html),
            _ => None,
        }
    }
}

/// Makes the report of instances in a format, with their names as `names` has them. The buffer's
/// octets are dropped, and its capacity is used again. Which extras matter to which format:
///
/// | Extras | Formats |
/// |---|---|
/// | `station` | all but the lines of text |
/// | `labels` | Prometheus' text, OpenMetrics, a table and a page |
/// | `presentation.label`, `presentation.file_age` | a page |
/// | `presentation.sort` | a table |
/// | `presentation.station` | Prometheus' text, OpenMetrics: a label of each instance's series |
///
/// # Errors
/// `AllocError` if there is no memory for it.
pub fn format_report<S: NameTexts>(
    buffer: Vec<u8>,
    format: Format,
    names: &S,
    entries: &[Entry],
    extras: Extras<'_>,
) -> Result<Vec<u8>, AllocError>
    ensures text { IfOk result (λ text. text.items ≡ formatted format (S.shown names.now)
        entries.now (option_map (λ f. f.now) extras.entry.station) extras.entry.labels.now
        extras.entry.presentation.now) }
    // JSON reads back as the value of the report (RFC 8259).
    ensures read_back { format ≡ Json → IfOk result (λ text. ReadsAsReport (S.shown names.now)
        entries.now (option_map (λ f. f.now) extras.entry.station) text.items) }
{
    let alloc = *buffer.allocator();
    match format {
        Format::Text => named_report(alloc, buffer, names, entries),
        Format::Json => json_report(alloc, buffer, names, entries, extras.station),
        Format::Prometheus => {
            prometheus_report(Exposition::Prometheus, buffer, names, entries, extras)
        }
        Format::OpenMetrics => {
            prometheus_report(Exposition::OpenMetrics, buffer, names, entries, extras)
        }
        Format::Columns => table_report(alloc, buffer, names, entries, extras),
        Format::Html => page_report(alloc, buffer, names, entries, extras),
    }
}
