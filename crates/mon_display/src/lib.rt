//! How rates, interfaces and devices are written for people: one vocabulary of all lines, tables
//! and pages. It reads nothing but its arguments, and formats for machines do not use it.
//!
//! Contract: each text is a function of its arguments, and a rate is at most half of its last digit
//! from the text.
#![tactic(auto)]

mod interface;
pub mod laws;
mod naming;
mod rate;
mod visible;

pub use interface::{Column, column_of, interface_of};
pub use naming::{device_text, interface_text};
pub use rate::{Unit, percent_text, rate_text};
pub use visible::{put_quoted, put_visible};
