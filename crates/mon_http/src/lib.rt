//! HTTP/1.1 for a station that is scraped and looked at (RFC 9110 and RFC 9112): octets in, octets
//! out.
//!
//! It has no socket and no clock. A caller hands it the octets that it received, makes what a
//! request asks for, and sends what is pending.
#![tactic(auto)]

mod accept;
mod answer;
mod body;
mod connection;
mod front;
mod host;
pub mod laws;
mod request;
mod response;
mod route;
mod step;

pub use answer::{Answer, LastRound};
pub use connection::Connection;
pub use request::{Refusal, Request, Verdict};
pub use response::{Media, Status};
pub use route::Route;
pub use step::StepOutcome;
