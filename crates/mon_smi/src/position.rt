//! Lines and columns of a text.

ghost use Rattle.std.specs.Prelude.{◌≡◌, take};
ghost use Rattle.mon_smi.specs.Positions.{position_behind};

/// A place in a text, as an editor shows it.
#[derive(Clone, Copy, Debug, PartialEq, Eq)]
pub struct Position {
    /// The number of its line, from 1. A line feed is the last octet of its line.
    pub line: usize,
    /// The number of its octet in the line, from 1.
    pub column: usize,
}

impl Position {
    /// Returns the place of the octet that follows this many octets, or of the text's end, if it
    /// has fewer.
    pub fn of(text: &str, before: usize) -> Position
        ensures { result ≡ position_behind (take before text.now) }
    {
        let octets = text.as_bytes();
        let mut place = Position { line: 1, column: 1 };
        for octet in &octets[..before.min(octets.len())] {
            if *octet == b'\n' {
                place.line += 1;
                place.column = 1;
            } else {
                place.column += 1;
            }
        }
        place
    }
}
