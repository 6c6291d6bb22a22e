//! The text of a replay of recorded SNMPv2c responses, and what the program's commands share: their
//! faults, whole inputs, and the system's network. Messages are those of RFC 1901 and RFC 3416; a
//! sample is stamped by the objects of RFC 3411 section 5.
//! Contract: what `replay` prints is fixed by its input and the grammar of messages.
#![tactic(auto)]

mod counted;
pub mod fault;
mod input;
pub mod laws;
mod line;
mod network;
mod reason;
mod refusal;
mod replaying;
mod reporting;
mod response;
mod sends;
mod table;
mod text;

pub use counted::{Counted, Reads};
pub use fault::{AppFault, SocketFault, socket_failure, socket_fault, unopened};
pub use input::read_all;
pub use network::SystemNetwork;
pub use reason::SocketReason;
pub use refusal::Refusal;
pub use replaying::replay;
pub use reporting::Recorded;
pub use sends::Sends;
