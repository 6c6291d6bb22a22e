//! What may go wrong in a command of the program: the faults of the crates that commands call, and
//! what is wrong in a settings text. It follows no standard. Contract: the line of a fault names
//! the innermost of nested faults; an unknown key is the first one of its table, and a place in a
//! text is the line and the character there.
#![tactic(auto)]

mod explaining;
mod fault;
mod line_column;
mod unknown;

pub use explaining::explain;
pub use fault::Fault;
pub use mon_station::StationFault;
