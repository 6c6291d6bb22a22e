//! Laws over what a replay prints. Each is a function that does nothing; its clauses are the law.

ghost use Rattle.std.specs.Prelude.{◌≡◌, ℕ, List, Result};
ghost use Rattle.mon_app.specs.declared.refusal.Refusal.{Refusal};
ghost use Rattle.mon_app.specs.Line.{Says};
ghost use Rattle.mon_app.specs.Offer.{Offer};
ghost use Rattle.mon_app.specs.Outcome.{IsReplay};
ghost use Rattle.mon_app.specs.Reading.{hex_reading};
ghost use Rattle.mon_app.specs.Replay.{replayed};
ghost use Rattle.mon_app.specs.Reported.{IsKept, kept_of};

/// A line says what reading it from left to right gives, and nothing else.
pub fn readings()
    ensures says { (text : List ℕ) → Says text (hex_reading text) }
    ensures only { (text : List ℕ) (reading : Result (List Offer) Refusal) → Says text reading
        → hex_reading text ≡ reading }
{
    mon_pdu::laws::takes();
    mon_pdu::laws::again();
}

/// What is printed follows from what the lines say, and from nothing else; so does what is kept.
pub fn one_text()
    ensures meets { (n : ℕ) (input : List ℕ) → IsReplay n input (replayed n input) }
    ensures only { (n : ℕ) (input text : List ℕ) → IsReplay n input text → text ≡ replayed n input }
    ensures kept { (n : ℕ) (input : List ℕ) → IsKept n input (kept_of n input) }
{
    readings();
}
