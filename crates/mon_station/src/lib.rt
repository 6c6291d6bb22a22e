//! Stations: they poll agents, keep windows of samples, share them with peers, and save them. It
//! follows no standard; its parts say which they follow. Contract: a station's windows are what the
//! watch keeps of the samples that it took, also after restarts; what is refused changes nothing
//! but a poll that it ends. `laws` say it of all lives of a station.
#![tactic(auto)]

mod event;
mod fault;
pub mod laws;
mod life;
mod mending;
mod moving;
mod opening;
mod running;
mod saved;
mod sharing;
mod station;

pub use event::{Event, LentEvent, Outgoing, OwnedEvent, TargetStamp, To, Told};
pub use fault::{Innermost, StationFault};
pub use running::{Answer, Outbox, OutboxFault, Run, Source, SourceFault};
pub use saved::{board_in, saved_board};
pub use station::Station;
