//! What stations say to one another: claims of samples that they have taken, and what is noted of
//! them. All numbers are big-endian. A station's lives differ by its incarnation.
//! Contract: octets are a claim exactly where its one spelling is these octets; a claim that is
//! noted marks exactly what it claims.
#![tactic(auto)]

mod claim;
mod fault;
pub mod laws;
mod marking;
mod noted;
mod peers;
mod reading;
mod sharing;
mod writing;

pub use claim::{Claim, ClaimKind, ClaimRef};
pub use fault::ExchangeFault;
pub use noted::Noted;
pub use peers::Peers;
pub use reading::read_claim;
pub use sharing::{Portion, portions, serial_after};
pub use writing::{write_claim, write_within};
