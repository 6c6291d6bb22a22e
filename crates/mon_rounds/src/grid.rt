//! When a station's rounds begin: at a phase and whole intervals after it. So they do not drift,
//! and stations whose clocks agree poll one after another.

ghost use Rattle.std.specs.Prelude.{◌≡◌, ◌≤◌, ◌<◌, ◌+◌, ◌^◌, length};
ghost use Rattle.std.specs.Duration.{as_nanos};
ghost use Rattle.mon_rounds.specs.Grid.{IsNextStart, milliseconds_of, share_of};

use std::time::Duration;

/// The longest time that is counted, in milliseconds: some 36 million years.
const LONGEST: u128 = 1 << 60;

/// Returns the first time after `now` at which a round begins: the phase, or whole intervals after
/// it. All are counted in one unit from one point in time; a time beyond 2^64 - 1 is that.
pub fn next_start(now: u64, interval: u64, phase: u64) -> u64
    requires interval { 1 ≤ interval }
    ensures { now + interval + phase < 2 ^ 64 → IsNextStart now interval phase result }
{
    if now < phase {
        return phase;
    }
    let begun = (now - phase) / interval;
    phase.saturating_add(begun.saturating_add(1).saturating_mul(interval))
}

/// Returns the whole milliseconds of a time, at most 2^60.
pub fn milliseconds(time: Duration) -> u64
    ensures given { result ≡ milliseconds_of (as_nanos time) }
    ensures bounded { result ≤ 2 ^ 60 }
{
    time.as_millis().min(LONGEST) as u64
}

/// Returns the phase of a station among its peers: of k stations, by their numbers, the j-th begins
/// at j/k of the interval, j from 0.
pub fn phase_of(station: u32, peers: &[u32], interval: u64) -> u64
    requires few { length peers.now ≤ 15 }
    requires interval { interval < 2 ^ 60 }
    ensures { result ≡ share_of station peers.now interval }
{
    let before = peers.iter().filter(|peer| **peer < station).count();
    interval * before as u64 / (peers.len() as u64 + 1)
}
