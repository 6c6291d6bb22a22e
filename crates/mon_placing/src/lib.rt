//! Where the stations of a network run: the machines that a text lists, and on which of them each
//! station of each group runs, listens and serves HTTP. It reads nothing but its arguments.
//!
//! Contract: no two stations of a group run on one machine if there are at least as many machines
//! as stations in a group, and no machine runs two stations more than another.
#![tactic(auto)]

mod fault;
pub mod laws;
mod machines;
mod network;
mod placing;
mod texts;

pub use fault::MachinesFault;
pub use machines::{Machine, machines_in};
pub use network::{Network, Seat, put_file, seat_path};
pub use placing::machine_of;
pub use texts::{targets_text, units_text};
