//! How grave a line on standard error is.

ghost use Rattle.std.specs.Prelude.{◌≡◌};
ghost use Rattle.mon_host.specs.Level.{mark};

/// How grave a line on standard error is, by the levels that systemd's journal reads
/// (sd-daemon(3)).
#[derive(Clone, Copy, Debug, PartialEq, Eq)]
pub enum Level {
    /// The program ends by it, or the newest windows are on no disk.
    Error,
    /// Something is wrong or too high, and the program goes on.
    Warning,
    /// What was wrong or too high is so no more.
    Notice,
    /// All else.
    Info,
}

impl Level {
    /// Returns what is written before a line of this level for the journal.
    pub fn mark<'a>(self) -> &'a str
        ensures { result.now ≡ mark self }
    {
        match self {
            Level::Error => "<3>",
            Level::Warning => "<4>",
            Level::Notice => "<5>",
            Level::Info => "<6>",
        }
    }
}
