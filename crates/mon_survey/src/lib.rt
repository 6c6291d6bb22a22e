//! What an agent answers of its interfaces (RFC 2863), which of its counters a station is to poll,
//! and the text of that station's settings. No socket, file or clock.
//! Contract: the counters are those of a definition over the answers, and the text is one over the
//! counters; no octet of a name or alias leaves its comment.
#![tactic(auto)]

mod answers;
mod appending;
mod changes;
mod choice;
mod column;
mod comparing;
mod counter;
mod drafting;
mod editing;
mod engine;
mod fault;
mod kept;
mod labelled;
pub mod laws;
mod longest;
mod moving;
mod options;
mod planning;
mod relabelling;
mod ruling;
mod size;
mod surveying;
mod tables;
mod updating;
mod writing;

pub use answers::{Answers, Cell};
pub use appending::{Existing, append};
pub use changes::{Change, change_lines, changes_between};
pub use choice::{Choice, Kinds};
pub use column::{Column, Spot, columns};
pub use counter::{Counter, Kind, Planned};
pub use engine::engine_of;
pub use fault::SurveyFault;
pub use labelled::labels;
pub use longest::{Drafted, LongestRound};
pub use moving::Known;
pub use options::{Options, Peer};
pub use planning::{Thresholds, count_without_speed, plan, thresholds_of};
pub use relabelling::{known_names, relabel};
pub use size::TargetSize;
pub use surveying::{Surveyed, settings};
pub use updating::{Renamed, update};
