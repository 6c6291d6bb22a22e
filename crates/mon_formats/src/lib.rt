//! The formats of a report: lines of text, JSON, Prometheus' text format, a table for people, and a
//! page for a browser. Contract: each is a function of the instances' windows and rules, and of how
//! names are shown; so equal windows give equal octets.
#![tactic(auto)]

mod as_json;
mod cells;
mod changes;
mod format;
pub mod laws;
mod named;
mod prometheus;

pub use changes::{alarm_line, instance_text};
pub use format::{Format, format_report};
pub use mon_page::{
    Extras, Figures, InstanceLabels, PeerFigures, Presentation, Sort, TargetFigures,
};
pub use prometheus::series::SeriesLabels;

/// The program's version, as Prometheus' text has it.
pub const VERSION: &str = "0.1.0";
