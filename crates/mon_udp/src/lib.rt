//! UDP over IPv4: addresses, sockets, waits for what comes to a socket, and what contracts of the
//! layers above say of a wire, a port, a source of events or an outbox: what it reports, and how
//! often it failed. Contract: an address is what its text writes; a wait is over when it was idle
//! for its length, and at the latest four times its length after it started; what is received is
//! what the system gave. What comes to a socket is not known.
#![tactic(auto)]

mod addr;
mod binding;
mod failures;
pub mod laws;
mod receiving;
mod socket;
mod ticks;
mod timer;
mod waiting;

pub use addr::Addr;
pub use binding::{Binds, open_at};
pub use failures::failed_after;
pub use receiving::Receives;
pub use socket::{Socket, datagram_buffer};
pub use ticks::Ticks;
pub use timer::Timer;
pub use waiting::Waiting;
