//! View-based access control: which community may read or write which names, by tables of
//! communities, groups, access entries and view families. It follows RFC 3415 sections 2 to 4, only
//! for model 2 (SNMPv2c) and the empty context. Contract: `judge` is the written policy, `access`
//! and `sees` are its two halves; none of the three allocates.
#![tactic(auto)]

mod access;
mod access_entry;
mod community;
mod decision;
mod denied;
mod family;
mod fault;
mod group;
pub mod laws;
mod model;
mod names;
mod policy;
mod runs;
mod tables;
mod view_type;

pub use access::Access;
pub use access_entry::AccessEntry;
pub use community::Community;
pub use decision::Decision;
pub use denied::Denied;
pub use family::ViewTreeFamily;
pub use fault::PolicyFault;
pub use group::Group;
pub use model::SecurityModel;
pub use mon_ber::Octets;
pub use policy::Policy;
pub use tables::Tables;
pub use view_type::ViewType;
