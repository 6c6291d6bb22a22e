//! Polls that are started and answered at once, again and again.

use crate::polls::targets::{local, poller};
use mon_poller::{Offered, Poller};
use mon_row_texts::{first_line, octets, parsed};
use std::alloc::Global;

/// What the responses brought.
#[derive(Clone, Copy)]
struct Tally {
    samples: u64,
    marks: u64,
    refused: u64,
}

/// What the arguments ask for.
#[derive(Clone, Copy)]
struct Arguments {
    times: u32,
    place: usize,
}

/// Reads the response's digits from standard input, polls the second target as often as the
/// arguments TIMES PLACE say, and answers each poll with the response, with the request-id at the
/// place.
pub fn time_polls<R: Input + Print + AllocGlobal>(rt: &R, words: &[String]) -> Option<()> {
    let asked = Arguments {
        times: parsed(words.first()?)?,
        place: parsed(words.get(1)?)?,
    };
    let line = first_line(rt, rt.alloc())?;
    let tally = answered(rt.alloc(), line.trim(), asked)?;
    println!(rt;
        "{} samples, marks {}, {} refused",
        tally.samples, tally.marks, tally.refused
    )
    .ok()
}

/// Polls and answers as often as is asked, with the response of these digits.
fn answered(alloc: Global, digits: &str, asked: Arguments) -> Option<Tally> {
    let mut octets = octets(alloc, digits)?;
    let mut polls = poller(alloc)?;
    answer_all(alloc, &mut polls, &mut octets, asked)
}

fn answer_all(
    alloc: Global,
    polls: &mut Poller,
    octets: &mut [u8],
    asked: Arguments,
) -> Option<Tally> {
    let mut tally = Tally {
        samples: 0,
        marks: 0,
        refused: 0,
    };
    for _ in 0..asked.times {
        let id = polls.start(alloc, 1).ok()?.id;
        number(octets, asked.place, id)?;
        answer(alloc, polls, octets, &mut tally);
    }
    Some(tally)
}

fn answer(alloc: Global, polls: &mut Poller, octets: &[u8], tally: &mut Tally) {
    match polls.response(alloc, local(16102), octets) {
        Ok(offered) => count(tally, &offered),
        Err(_) => tally.refused = tally.refused.wrapping_add(1),
    }
}

/// Writes the request-id, in four octets, at its place.
fn number(octets: &mut [u8], place: usize, id: u32) -> Option<()> {
    for (i, octet) in id.to_be_bytes().iter().enumerate() {
        *octets.get_mut(place.checked_add(i)?)? = *octet;
    }
    Some(())
}

fn count(tally: &mut Tally, offered: &Offered) {
    for (_, sample) in offered.pairs.as_slice() {
        tally.samples = tally.samples.wrapping_add(1);
        tally.marks = tally.marks.wrapping_add(u64::from(sample.discontinuity()));
    }
}
