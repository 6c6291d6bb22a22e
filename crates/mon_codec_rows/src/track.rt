//! Samples inserted into one track of 64, in rising, falling or mixed order, for bench/track.

use mon_rates::Track;
use mon_row_texts::parsed;
use mon_sample::{Kind, Sample};
use mon_window::Inserted;
use std::alloc::Global;

/// How many samples the track holds.
const SIZE: usize = 64;

/// The agent restarts after this many seconds.
const LIFE: u32 = 48;

/// In which order the samples come.
#[derive(Clone, Copy)]
enum Order {
    Rising,
    Falling,
    Mixed,
}

/// What the arguments ask for.
#[derive(Clone, Copy)]
struct Arguments {
    order: Order,
    epoch: usize,
    times: u32,
}

/// What the insertions answered.
#[derive(Clone, Copy)]
struct Tally {
    added: u64,
    known: u64,
    too_old: u64,
    places: u64,
}

/// Inserts samples as the arguments ORDER SHARE TIMES say: ORDER is `rising`, `falling` or `mixed`,
/// SHARE is 1 to 64. Prints how many samples were added, known and too old, the sum of the places
/// of those added, and the totals.
pub fn time_track<R: Print>(rt: &R, alloc: Global, words: &[String]) -> Option<()> {
    let asked = words_of(words)?;
    if asked.epoch < 1 || asked.epoch > SIZE {
        return None;
    }
    let mut track = Track::new(alloc, SIZE, asked.epoch).ok()?;
    let tally = inserted(&mut track, asked);
    let totals = track.totals();
    println!(rt;
        "{} added, {} known, {} too old, {}",
        tally.added, tally.known, tally.too_old, tally.places
    )
    .ok()?;
    println!(rt;
        "{} in {} s, {} pairs",
        totals.delta, totals.span, totals.pairs
    )
    .ok()
}

/// Reads the three arguments.
fn words_of(words: &[String]) -> Option<Arguments> {
    let order = match words.first()?.as_str() {
        "rising" => Order::Rising,
        "falling" => Order::Falling,
        "mixed" => Order::Mixed,
        _ => return None,
    };
    let epoch = parsed(words.get(1)?.as_str())?;
    let times = parsed(words.get(2)?.as_str())?;
    Some(Arguments {
        order,
        epoch,
        times,
    })
}

/// Inserts them all: samples of a counter that rises by 3 a second.
fn inserted(track: &mut Track, asked: Arguments) -> Tally {
    let mut tally = Tally {
        added: 0,
        known: 0,
        too_old: 0,
        places: 0,
    };
    let mut random: u64 = 1;
    for turn in 0..asked.times {
        random = random
            .wrapping_mul(6364136223846793005)
            .wrapping_add(1442695040888963407);
        let second = second(asked, turn, random);
        let value = u64::from(second.wrapping_mul(3));
        let sample = Sample::new(second / LIFE, second % LIFE, 0, Kind::Counter32, value);
        match track.insert(sample) {
            Inserted::Added { at, .. } => {
                tally.added = tally.added.wrapping_add(1);
                tally.places = tally.places.wrapping_add(at as u64);
            }
            Inserted::Known => tally.known = tally.known.wrapping_add(1),
            Inserted::TooOld => tally.too_old = tally.too_old.wrapping_add(1),
        }
    }
    tally
}

/// Returns the second at which the sample of this turn was taken: in mixed order up to 63 seconds
/// early.
fn second(asked: Arguments, turn: u32, random: u64) -> u32 {
    match asked.order {
        Order::Rising => turn,
        Order::Falling => asked.times.wrapping_sub(turn),
        Order::Mixed => turn.wrapping_add((random >> 58) as u32),
    }
}
