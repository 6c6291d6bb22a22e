//! What rows of all groups read and print alike: octets in hex digits, faults, reports and
//! instances. They are rows of tests, which mon_rows answers. It follows no standard.
//!
//! Functions whose names begin with `put` append to the text that they are lent. All return `None`
//! if a row cannot be answered.
#![tactic(auto)]

mod texts;

pub use texts::{
    first_line, first_word, octets, parsed, put, put_digits, put_fault, put_name, put_refused,
    put_report, put_trimmed, three, two, watched, zeros,
};
