//! What is left of a wait, without a clock or a socket.

ghost use Rattle.std.specs.Prelude.{◌≡◌, ◌-◌, ◌*◌};
ghost use Rattle.std.specs.Duration.{as_nanos};
ghost use Rattle.std.specs.Time.{instant_nanos};
ghost use Rattle.mon_udp.specs.Wait.{begun, left_at, renewed};

use std::time::{Duration, Instant};

/// How many times its length a wait lasts at most, however often it is renewed.
const MOST: u64 = 4;

/// The times of a wait: how long it is, when it started, and since when it is idle.
#[derive(Clone, Copy)]
pub struct Timer {
    milliseconds: u32,
    began: Instant,
    quiet: Instant,
}

impl Timer {
    /// Returns a wait of this many milliseconds that begins now. One of 0 is over.
    pub fn begin(milliseconds: u32, now: Instant) -> Self
        ensures { result ≡ begun milliseconds now }
    {
        Timer {
            milliseconds,
            began: now,
            quiet: now,
        }
    }

    /// Returns the wait renewed: idle since now. When it started stays.
    pub fn renew(self, now: Instant) -> Self
        ensures { result ≡ renewed self now }
    {
        Timer { quiet: now, ..self }
    }

    /// Returns since when the wait is idle.
    pub fn quiet(self) -> Instant
        ensures { result ≡ self.quiet }
    {
        self.quiet
    }

    /// Returns what is left of the wait now: it is over when it was idle for its length, and at
    /// the latest four times its length after it started.
    pub fn left(self, now: Instant) -> Duration
        ensures { as_nanos result ≡ left_at self now }
    {
        let length = u64::from(self.milliseconds);
        let quiet = left_of(length, self.quiet, now);
        let whole = left_of(MOST * length, self.began, now);
        if quiet < whole { quiet } else { whole }
    }
}

/// Returns what is left now of this many milliseconds that started then.
fn left_of(milliseconds: u64, began: Instant, now: Instant) -> Duration
    ensures { as_nanos result ≡ milliseconds * 1_000_000
        - (instant_nanos now - instant_nanos began) }
{
    Duration::from_millis(milliseconds).saturating_sub(now.duration_since(began))
}
