//! Reports: of each watched instance its window, its totals and its alarms, a line each. Contract:
//! the text is a function of the watch and the windows, and of nothing else; a writer that fails
//! has a beginning of it.
#![tactic(auto)]

mod alarms;
mod fault;
pub mod laws;
mod line;
mod report;
mod writing;

pub use alarms::{Alarm, alarm_changes, alarm_states, raised_alarms, see_windows, seen_windows};
pub use fault::ReportFault;
pub use line::{write_end, write_rate};
pub use report::{Entry, announced_entries, entries_of, write_entry, write_report, write_rest};
