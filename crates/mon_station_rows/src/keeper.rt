//! Lines of a keeper: what openings find after stops, faults and saves.
//!
//!     keeper save-stopped CALLS KEEP     a save that is stopped after CALLS calls of the disk, one
//!                                        after it, and what a crash that keeps what is not synced
//!                                        (`keep`) or loses it (`lose`) leaves
//!     keeper opening-stopped CALLS KEEP  the same of openings: of a fresh disk, of one whose open
//!                                        gate is not synced, and of one on which a crash left it
//!                                        open
//!     keeper failing-call N              an opening and a save while call N fails
//!     keeper reopened CALLS KEEP         a save that is stopped after CALLS calls of the disk, a
//!                                        reopening by the same keeper and a save, and what a
//!                                        crash leaves after each of the three
//!     keeper mended-after N              an opening and a save while call N fails, then a
//!                                        reopening and a save
//!     keeper file NAME: SLOT SLOT SIZE   what an opening answers of a file of SIZE octets, and
//!                                        then a save; a slot is open, GENERATION/LENGTH, or
//!                                        shut, a dash
//!     keeper sized N                     a save of N octets
//!     keeper real-file BODY              what an opening of saved.mon finds, and then a save of
//!                                        BODY
//!     keeper found                       what an opening of saved.mon finds
//!     keeper removed                     whether an opening of saved.mon is refused once it is
//!                                        removed
//!     keeper folder                      what openings answer of a folder

mod files;
mod found;
pub mod real_file;
mod stops;

use mon_row_texts::{first_word, parsed};
use std::fs::File;
use std::rt::Files;

/// Appends the answer to a line, without its first word.
pub fn answer<R: Files<File = File> + AllocGlobal>(
    rt: &R,
    text: &mut String,
    line: &str,
) -> Option<()> {
    let alloc = rt.alloc();
    let (word, rest) = first_word(line);
    match word {
        "save-stopped" => stops::save_row(alloc, text, rest),
        "opening-stopped" => stops::opening_row(alloc, text, rest),
        "failing-call" => stops::failing_row(alloc, text, parsed(rest)?),
        "reopened" => stops::reopened_row(alloc, text, rest),
        "mended-after" => stops::mended_row(alloc, text, parsed(rest)?),
        "file" => files::row(alloc, text, rest),
        "sized" => files::sized(alloc, text, parsed(rest)?),
        "real-file" => real_file::saved_row(rt, text, rest),
        "found" => real_file::found_row(rt, text),
        "removed" => real_file::removed_row(rt, text),
        "folder" => real_file::folder_row(rt, text),
        _ => None,
    }
}
