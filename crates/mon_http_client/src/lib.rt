//! An HTTP/1.1 client's side, without a socket (RFC 9110 and RFC 9112): the text of a request, the
//! target that a URL names, and what octets that came come to.
#![tactic(auto)]

pub mod laws;
mod request;
mod response;
mod target;

pub use request::{put_get, put_post};
pub use response::{Progress, read_response};
pub use target::{Target, TargetFault, parse_target};
