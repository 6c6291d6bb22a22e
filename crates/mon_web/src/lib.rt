//! A station that is scraped and looked at over HTTP/1.1 (RFC 9110 and 9112): one listener and at
//! most 32 connections, none of which ever waits. To serve: an `Acceptor`, and a `Server` over it,
//! which is given its `Content` and its turns. `Server::turn` does one thing for one client, or
//! waits for what comes. A text is made when it is first asked for. Contract: what is answered to a
//! request is fixed by the octets that came, what the content says and the time of the last round
//! (mon_http says how); who is closed for a newcomer, and when a client is late, are exact.
#![tactic(auto)]

mod acceptor;
mod client;
mod content;
mod pages;
mod response;
mod server;
mod slot;
mod stream;
mod table;

pub use acceptor::{Acceptor, AcceptorBy, Listener};
pub use content::{Content, Text};
pub use pages::Pages;
pub use response::Moment;
pub use server::Server;
pub use slot::{Slot, Stage, choose_slot, is_late};
