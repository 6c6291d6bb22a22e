//! Does what each line of standard input says, and prints what is answered, a line for each, to be
//! compared with the expected lines: tests/calls runs it over the rows of tests/cases/calls. A line
//! that is empty or begins with # is passed over. Where no answer can be given, the program ends
//! with status 1.
//!
//! The crate of each group has its lines:
//!
//!     mon_codec_rows    values, messages, claims, images, names, samples, windows, boards and
//!                       texts
//!     mon_call_rows     `agent ..`, `client ..`, `mib ..`, `reader ..` and `smi ..`, single calls;
//!                       `poller ..`, polls of three targets
//!     mon_station_rows  `station ..`, a station over a disk in memory, and `world ..`;
//!                       `keeper ..`, what openings of disks and files find after stops, faults
//!                       and saves
//!
//! usage: mon_rows                              as above
//!        mon_rows image-times N                reads the image of the first line, WATCH HEX, and
//!                                              writes it, N times, for bench/image
//!        mon_rows message-times N              the same of a message, HEX, for bench/codec
//!        mon_rows track-times ORDER SHARE N    inserts N samples into a track, for bench/track
//!        mon_rows poll-times N PLACE           polls the second target N times, and answers with
//!                                              the octets of the first line, HEX, and the
//!                                              request-id at the place, for bench/poller
//!        mon_rows save-times FILE OCTETS N     saves N bodies of OCTETS octets, for bench/save
//!        mon_rows saves FILE                   prints what it finds, then the number of each save
//!                                              that is acknowledged and `failed` with that of each
//!                                              that failed, until it is stopped, for tests/kill
//!        mon_rows opens FILE                   prints what an opening of a file answers, for
//!                                              tests/files
#![tactic(auto)]

mod subjects;

use mon_call_rows::time_polls;
use mon_codec_rows::{time_images, time_messages, time_track};
use mon_station_rows::{print_found, save_on, time_saves};
use std::env;
use std::process::ExitCode;
use subjects::Subjects;

fn main(rt: HostRuntime) -> ExitCode {
    match run(&rt) {
        Some(()) => ExitCode::SUCCESS,
        None => ExitCode::FAILURE,
    }
}

/// Does what the arguments, of which the first is the program, ask for; without more of them,
/// prints the answer to each line.
fn run(rt: &HostRuntime) -> Option<()> {
    let alloc = rt.alloc();
    let words: Vec<String> = env::args(rt).ok()?.collect(alloc).ok()?;
    let Some(word) = words.get(1) else {
        let mut subjects = Subjects::new(alloc)?;
        return subjects.answer_all(rt);
    };
    let words = words.get(2..)?;
    match word.as_str() {
        "image-times" => time_images(rt, alloc, words.first()?.parse().ok()?),
        "message-times" => time_messages(rt, alloc, words.first()?.parse().ok()?),
        "track-times" => time_track(rt, alloc, words),
        "poll-times" => time_polls(rt, words),
        "save-times" => time_saves(rt, words),
        "saves" => save_on(rt, words.first()?),
        "opens" => print_found(rt, words.first()?),
        _ => None,
    }
}
