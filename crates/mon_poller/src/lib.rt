//! Polls of agents: which datagram asks for a target's objects, which polls are open, and what a
//! response to one offers. Requests and responses are those of RFC 3416; a sample is stamped by the
//! objects of RFC 3411 section 5. Contract: a response is answered by the first refusal that holds
//! of it, else by one sample for each object with a value of a sampled kind; the open polls are a
//! map from request-ids, and each call says what becomes of it.
#![tactic(auto)]

mod asked;
mod asking;
mod awaiting;
mod fault;
mod finding;
mod in_place;
pub mod laws;
mod lent;
mod names;
mod offers;
mod poller;
pub mod stamp;
mod status;
mod target;

pub use asking::poll_names;
pub use fault::{PollFault, ResponseFault};
pub use lent::Stamp;
pub use poller::{Offered, Poller, Request, TimedOut};
pub use status::status_name;
pub use target::{Object, Objects, Target, are_targets};
