//! What a client asks agents: requests, walks, and the text of what is answered. Messages are those
//! of RFC 1901 and RFC 3416.
//! Contract: an answer is only printed of a reply.
#![tactic(auto)]

mod asking;
mod client;
mod fault;
pub mod laws;
mod network;
mod printed;
mod question;
mod socket;
mod value;
mod walking;
mod wire;

pub use asking::{send_request, take_reply};
pub use client::answer_text;
pub use fault::WalkFault;
pub use network::Opens;
pub use printed::bindings_text;
pub use question::{Asking, Question, Repeats, is_reply, request};
pub use socket::{SocketWire, WireBy};
pub use value::{ValueKind, value_of};
pub use walking::{Stride, WalkPlan, walk};
pub use wire::{Heard, Wire};
