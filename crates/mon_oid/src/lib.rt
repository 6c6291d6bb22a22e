//! Object identifiers of the SMI: lists of sub-identifiers, their order and their dotted text.
//! It follows RFC 2578 section 3.5 and X.690 8.19.4 on which lists are identifiers.
//! To the layer above an `Oid` is the list of its sub-identifiers, of which `IsOid` holds.
#![tactic(auto)]

mod fault;
pub mod laws;
mod oid;

pub use fault::OidFault;
pub use oid::{Oid, dotted_numbers};
