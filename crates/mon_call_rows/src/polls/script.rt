//! What each line asks of the poller, and what is answered.

use mon_poller::{Offered, Poller, ResponseFault, TimedOut};
use mon_row_texts::{first_word, octets, parsed, put, put_digits, put_refused, two};
use mon_udp::Addr;
use std::alloc::Global;
use std::fmt::Write;

/// Appends the answer to a line, without its first word.
pub fn answer(alloc: Global, text: &mut String, polls: &mut Poller, line: &str) -> Option<()> {
    let (word, rest) = first_word(line);
    match word {
        "start" => start(alloc, text, polls, parsed(rest)?),
        "timeout" => {
            let id = parsed(rest)?;
            let tries = polls.has_tries(id);
            put_timed_out(text, polls.time_out(alloc, id).ok()?)?;
            write!(text, " ({tries})").ok()
        }
        "oldest" => oldest(text, polls),
        "from" => received(alloc, text, polls, rest),
        _ => None,
    }
}

fn start(alloc: Global, text: &mut String, polls: &mut Poller, target: u16) -> Option<()> {
    match polls.start(alloc, target) {
        Ok(request) => {
            write!(text, "id {} ", request.id).ok()?;
            put_digits(text, request.octets.as_slice())
        }
        Err(why) => put_refused(text, why.number(), why.name()),
    }
}

fn put_timed_out(text: &mut String, timed_out: TimedOut) -> Option<()> {
    match timed_out {
        TimedOut::Again { target, octets } => {
            write!(text, "again {target} ").ok()?;
            put_digits(text, octets.as_slice())
        }
        TimedOut::GivenUp { target } => write!(text, "given up {target}").ok(),
        TimedOut::NotOpen => put(text, "not open"),
    }
}

fn oldest(text: &mut String, polls: &Poller) -> Option<()> {
    match polls.oldest() {
        Some(id) => write!(text, "oldest {id}").ok(),
        None => put(text, "none open"),
    }
}

/// Answers a datagram of a line `ADDRESS HEX`.
fn received(alloc: Global, text: &mut String, polls: &mut Poller, line: &str) -> Option<()> {
    let (from, digits) = two(line, ' ')?;
    let from = Addr::parse(from)?;
    let octets = octets(alloc, digits)?;
    match polls.response(alloc, from, octets.as_slice()) {
        Ok(offered) => put_offered(text, &offered),
        Err(why) => {
            put_refused(text, why.number(), why.name())?;
            match why {
                ResponseFault::AgentError(status, index) => write!(text, " {status} {index}").ok(),
                _ => Some(()),
            }
        }
    }
}

/// Appends the target, and each sample with its instance's number.
fn put_offered(text: &mut String, offered: &Offered) -> Option<()> {
    write!(text, "target {}", offered.target).ok()?;
    for (instance, sample) in offered.pairs.as_slice() {
        let (boots, time, mark) = (sample.boots(), sample.time(), sample.discontinuity());
        let (kind, value) = (sample.kind().name(), sample.number());
        write!(text, "; {instance}: {boots} {time} {mark} {kind} {value}").ok()?;
    }
    Some(())
}
