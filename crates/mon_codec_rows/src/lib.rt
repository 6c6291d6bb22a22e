//! Rows of codecs: values, messages, claims, images, names, samples, windows, boards and texts; and
//! the jobs that time one of these calls. They are rows of tests, which mon_rows answers.
#![tactic(auto)]

mod boards;
mod claims;
mod exchange;
mod images;
mod marks;
mod modules;
mod names;
mod rows;
mod samples;
mod track;
mod values;

pub use exchange::Exchange;
pub use images::time_images;
pub use rows::answer;
pub use track::time_track;
pub use values::time_messages;
