//! The commands over a station's file, which is only read: the report of its windows, by its
//! settings or by what it holds itself. Contract: what is read, said and printed, in this order,
//! and from which octets it follows.
#![tactic(auto)]

mod age;
mod command;
mod own;
mod saved;

pub use command::print_saved_report;
pub use saved::{MORE_READS, read_saved, saved_in};
