//! What a program is run on, as the code that runs on it sees it.

use crate::level::Level;
use crate::reason::Reason;
use std::fmt::Display;
use std::time::{Instant, SystemTime};

/// A part of a file: at most `length` octets, from the octet after the first `at` ones on.
#[derive(Clone, Copy, Debug, PartialEq, Eq)]
pub struct Part {
    pub at: u64,
    pub length: u64,
}

/// Arguments, standard input, output and error, files, and clocks. Each call is one event of the
/// log.
pub trait Host {
    ghost use Rattle.std.specs.Prelude.{[], ◌∷◌, List, Option};
    ghost use Rattle.mon_host.specs.AtHost.{AtHost, IsNoted, LevelsShown, dating_file, finding, finding_node, listing_arguments, looking_at_output, looking_at_terminal, permitting, printing, reading_file, reading_input, reading_part, renaming, telling_date, telling_time, writing};
    ghost use Rattle.mon_host.specs.Log.{GoesOn, GoesOnBy};

    // The log, if there is one.
    ghost log: { Self → Option (List AtHost) };

    /// Returns the program's arguments, its own name first.
    fn arguments(&mut self) -> Result<Vec<String>, Reason>
        ensures { GoesOn (listing_arguments result ∷ []) (log self.old) (log self.new) };

    /// Returns `true` if standard input is a terminal.
    fn is_at_terminal(&mut self) -> bool
        ensures { GoesOn (looking_at_terminal result ∷ []) (log self.old) (log self.new) };

    /// Returns `true` if standard output is a terminal.
    fn prints_to_terminal(&mut self) -> bool
        ensures { GoesOn (looking_at_output result ∷ []) (log self.old) (log self.new) };

    /// Prints octets on standard output. Where that fails, a beginning of them may have been
    /// printed.
    fn print(&mut self, octets: &[u8]) -> Result<(), Reason>
        ensures { GoesOn (printing octets.now result ∷ []) (log self.old) (log self.new) };

    /// Sends a text of this level to standard error. A failure of that is not reported.
    fn note<D: Display + Drop>(&mut self, level: Level, text: D)
        ensures { GoesOnBy (IsNoted level (D.output text)) (log self.old) (log self.new) };

    /// Puts the mark of its level before each text on standard error from now on.
    fn show_levels(&mut self)
        ensures { GoesOn (LevelsShown ∷ []) (log self.old) (log self.new) };

    /// Reads standard input to its end.
    fn read_input(&mut self) -> Result<Vec<u8>, Reason>
        ensures { GoesOn (reading_input result ∷ []) (log self.old) (log self.new) };

    /// Reads the file at a path to its end.
    fn read_file(&mut self, path: &str) -> Result<Vec<u8>, Reason>
        ensures { GoesOn (reading_file path.now result ∷ []) (log self.old) (log self.new) };

    /// Reads a part of the file at a path: fewer octets only if the file ends before.
    fn read_part(&mut self, path: &str, part: Part) -> Result<Vec<u8>, Reason>
        ensures { GoesOn (reading_part path.now part result ∷ []) (log self.old) (log self.new) };

    /// Writes octets to the file at a path, which is made, or emptied before.
    fn write_file(&mut self, path: &str, octets: &[u8]) -> Result<(), Reason>
        ensures { GoesOn (writing path.now octets.now result ∷ []) (log self.old) (log self.new) };

    /// Renames the file at a path, in the place of a file that is there.
    fn rename(&mut self, path: &str, other: &str) -> Result<(), Reason>
        ensures { GoesOn (renaming path.now other.now result ∷ []) (log self.old) (log self.new) };

    /// Returns `true` if something is at a path.
    fn is_there(&mut self, path: &str) -> Result<bool, Reason>
        ensures { GoesOn (finding path.now result ∷ []) (log self.old) (log self.new) };

    /// Returns when the file at a path was changed last: its octets, not its name or its mode.
    fn changed(&mut self, path: &str) -> Result<SystemTime, Reason>
        ensures { GoesOn (dating_file path.now result ∷ []) (log self.old) (log self.new) };

    /// Permits all users to read the file at a path, and only its owner to write it: its mode is
    /// then 0644.
    fn permit_reading(&mut self, path: &str) -> Result<(), Reason>
        ensures { GoesOn (permitting path.now result ∷ []) (log self.old) (log self.new) };

    /// Returns which file is at a path now: its device and its inode, in this order. Returns `None`
    /// if there is none.
    fn node(&mut self, path: &str) -> Result<Option<(u64, u64)>, Reason>
        ensures { GoesOn (finding_node path.now result ∷ []) (log self.old) (log self.new) };

    /// Returns the time by a clock that never goes back.
    fn time(&mut self) -> Result<Instant, Reason>
        ensures { GoesOn (telling_time result ∷ []) (log self.old) (log self.new) };

    /// Returns the time by the wall clock.
    fn date(&mut self) -> Result<SystemTime, Reason>
        ensures { GoesOn (telling_date result ∷ []) (log self.old) (log self.new) };
}
