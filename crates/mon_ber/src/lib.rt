//! Values of SNMP in BER, read and written (RFC 3417 section 8, X.690, RFC 2578 section 7.1). Long
//! lengths, lengths and numbers with leading octets that they do not need, and octets after a value
//! are read. To the layer above: a value is read exactly where octets spell it, and written in its
//! shortest spelling.
#![tactic(auto)]

pub mod element;
mod fault;
pub mod laws;
mod name;
mod number;
mod octets;
pub mod reading;
mod tag;
mod value;
pub mod writing;

pub use fault::BerFault;
pub use octets::Octets;
pub use reading::read_value;
pub use tag::{INTEGER, OBJECT_IDENTIFIER, OCTET_STRING, SEQUENCE, Tag};
pub use value::Value;
pub use writing::{size_of, write_value};
