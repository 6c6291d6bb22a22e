//! A report as a table for people: In and Out of an interface in one row, rates in bits a second,
//! the rows of a device below its address.
//!
//! Contract: the text is a function of the instances, their labels, a running station's figures and
//! the order that is asked for. It reads nothing but its arguments.
#![tactic(auto)]

mod cells;
mod down;
pub mod laws;
mod listing;
mod order;
mod printing;
mod report;
mod rows;

pub use report::table_report;
