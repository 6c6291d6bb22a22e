//! The lines of `answer`: what an agent answers to recorded datagrams (RFC 3416 section 4.2).
//! Contract: each line in hex digits is a datagram that arrives N times; the agent's reply to the
//! last of them is printed in hex digits, or as a client prints it.
#![tactic(auto)]

mod answering;
mod scene;
mod showing;

pub use answering::answer_lines;
pub use scene::Scene;
