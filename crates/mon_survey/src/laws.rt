//! Laws of what is written. Each is a function that does nothing.

ghost use Rattle.std.specs.Prelude.{ℕ, List};
ghost use Rattle.mon_survey.specs.Text.{cleaned};
ghost use Rattle.mon_survey.specs.Shown.{StaysInComment};

/// No octet of a name or an alias leaves its comment: each is shown as one from 20 to 7E that is no
/// quote, and at most 64 are shown.
pub fn comments()
    ensures { (octets : List ℕ) → StaysInComment (cleaned octets) }
{}
