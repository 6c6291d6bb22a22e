//! Serving an agent: datagrams that come to a port, and the replies that go out by it.
//! Contract: each datagram is answered as the agent is then, at the time that the port gives.
#![tactic(auto)]

mod network;
mod port;
mod serving;
mod socket_port;

pub use network::Listens;
pub use port::{Port, Received};
pub use serving::{Buffers, Served, serve_one};
pub use socket_port::{PortBy, SocketPort};
