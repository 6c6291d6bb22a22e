//! The times that waits are reckoned by.

use std::io;
use std::rt::Clock;
use std::time::Instant;

/// The clock of waits.
pub trait Ticks {
    ghost use Rattle.std.specs.Prelude.{◌≤◌, IfOk};
    ghost use Rattle.std.specs.Time.{instant_nanos};
    ghost use Rattle.std.specs.declared.time.Instant.{Instant as AnyInstant};

    // It returned the second of these times when asked for one after the first. Code that is
    // generic over clocks has this only from a call of `after`.
    ghost told: { Self → AnyInstant → AnyInstant → Type 0 };

    /// Returns the time now.
    ///
    /// # Errors
    /// That of the system, if the clock fails.
    fn first(&self) -> io::Result<Instant>;

    /// Returns the time now. If the clock says an earlier time than this one, it is this one.
    ///
    /// # Errors
    /// That of the system, if the clock fails.
    fn after(&self, earlier: Instant) -> io::Result<Instant>
        ensures told { IfOk result (told self.now earlier) }
        ensures onward { IfOk result (λ now. instant_nanos earlier ≤ instant_nanos now) };
}

impl<R: Clock> Ticks for R {
    // What a clock says is not known.
    ghost told = { λ _ _ _. Unit {0} };

    fn first(&self) -> io::Result<Instant> {
        Instant::now(self)
    }

    fn after(&self, earlier: Instant) -> io::Result<Instant> {
        let now = Instant::now(self)?;
        Ok(if now < earlier { earlier } else { now })
    }
}
