//! Why a call of the surroundings failed.

ghost use Rattle.std.specs.Prelude.{◌≡◌};
ghost use Rattle.std.specs.IoError.{error_kind};

use std::alloc::Global;
use std::io;

/// Why the system refused a call: of which kind the failure is, and the system's words for it, if
/// there was memory for them.
#[derive(Debug, Drop)]
pub struct Reason {
    pub kind: io::ErrorKind,
    pub words: Option<String>,
}

impl Reason {
    /// Returns the reason that the system gave.
    pub fn of(alloc: Global, error: io::Error) -> Self
        ensures { result.kind ≡ error_kind error }
    {
        let words = match error.kind() {
            // The system's number says no more.
            io::ErrorKind::IsADirectory => String::from_str(alloc, "is a directory"),
            _ => format!(in alloc; "{error}"),
        };
        Reason {
            kind: error.kind(),
            words: words.ok(),
        }
    }
}
