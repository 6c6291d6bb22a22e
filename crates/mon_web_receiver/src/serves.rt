//! What serves HTTP while a station waits for datagrams, and the date that it says.

use httpdate::HttpDate;
use mon_web::{Content, Moment, Server};
use std::io;
use std::rt::Clock;
use std::time::{Duration, SystemTime, UNIX_EPOCH};

/// What serves HTTP, a turn at a time.
pub trait Serves {
    ghost use Rattle.std.specs.Prelude.{◌≡◌, OnOk, ℕ};
    ghost use Rattle.std.specs.Duration.{as_nanos};
    ghost use Rattle.mon_web.specs.declared.response.Moment.{Moment as At};
    ghost use Rattle.mon_web.specs.Pages.{View};

    // What it shows.
    ghost pages: { Self → View };

    // It had a turn at this time, in which it could wait this many nanoseconds: what it was
    // before, and after. Code that is generic over what serves has this only from a call, made
    // once.
    ghost served: { Self → At → ℕ → Self → Type 0 };

    /// Does one thing for one client at this time, or waits for what comes, for `left` at most.
    ///
    /// # Errors
    /// That of the system, if it cannot be waited.
    fn serve(&mut self, at: Moment, left: Duration) -> io::Result<()>
        ensures served { OnOk result (served self.old at (as_nanos left) self.new) }
        ensures pages { pages self.new ≡ pages self.old };
}

// What comes to a listener is not known.
impl<C: Content> Serves for Server<C> {
    ghost use Rattle.mon_web.specs.Pages.{view_of};

    ghost pages = { λ web. view_of C.says web.table.pages };

    ghost served = { λ _ _ _ _. Unit {0} };

    fn serve(&mut self, at: Moment, left: Duration) -> io::Result<()> {
        self.turn(at, left)
    }
}

/// What returns the date.
pub trait Dates {
    ghost use Rattle.std.specs.Prelude.{Option};
    ghost use Rattle.httpdate.specs.declared.date.HttpDate.{HttpDate as AnyDate};

    // It returned this date, or none. Code that is generic over what returns the date has this only
    // from a call.
    ghost dated: { Self → Option AnyDate → Type 0 };

    /// Returns the date now. `None` if the clock fails or is out of range of a date.
    fn date(&self) -> Option<HttpDate>
        ensures { dated self.now result };
}

impl<R: Clock> Dates for R {
    // What a clock says is not known.
    ghost dated = { λ _ _. Unit {0} };

    fn date(&self) -> Option<HttpDate> {
        let now = SystemTime::now(self).ok()?;
        let since = now.duration_since(UNIX_EPOCH).ok()?;
        HttpDate::from_unix_secs(since.as_secs()).ok()
    }
}
