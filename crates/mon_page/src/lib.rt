//! A report as a page for a browser: one HTML document without a script, readable without its
//! style.
//!
//! Each text that comes from an agent, a module, the settings or a file of labels is escaped. It
//! reads nothing but its arguments.
#![tactic(auto)]

pub(crate) mod cells;
mod devices;
mod escape;
mod extras;
mod figures;
mod freshness;
mod head;
pub mod laws;
mod numbers;
mod page;
mod plot;
mod row;
mod seats;
mod section;
mod style;
mod table;
mod words;
mod wrong;

pub use cells::state_cell;
pub use extras::{Extras, InstanceLabels, Presentation, Sort};
pub use figures::{Figures, PeerFigures, TargetFigures};
pub use freshness::{fresh_rate, is_fresh};
pub use page::page_report;
