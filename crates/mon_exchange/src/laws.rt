//! Laws of claims, of marks as what claims said, and of the pieces that are offered. Each is a
//! function that does nothing.

ghost use Rattle.std.specs.Prelude.{◌≡◌, ◌≢◌, ◌≤◌, ◌<◌, ◌+◌, ◌∷◌, ℕ, Bool, List, Option, Some, length, slice_index_or};
ghost use Rattle.std.specs.FinSet as set;
ghost use Rattle.std.specs.List.{AllByRecursion, flat_map};
ghost use Rattle.mon_board.specs.Owed.{kept_marks, owed_in};
ghost use Rattle.mon_board.specs.Windows.{IsPartOf, window};
ghost use Rattle.mon_board.specs.Watch.{Watch};
ghost use Rattle.mon_exchange.specs.declared.claim.Claim.{Claim};
ghost use Rattle.mon_exchange.specs.Claim.{SpellsClaim};
ghost use Rattle.mon_exchange.specs.Debts.{Heard, TellsDebts, WereTaken, is_owed};
ghost use Rattle.mon_exchange.specs.Peers.{is_claimed, latest, marked_by, noted_as};
ghost use Rattle.mon_exchange.specs.Portions.{pieces};
ghost use Rattle.mon_window.specs.Window.{Samples};

/// Each claim has one spelling, and octets spell one claim at most.
pub fn one_spelling()
    ensures spelling { (a b : List ℕ) (c : Claim) → SpellsClaim a c → SpellsClaim b c → a ≡ b }
    ensures meaning { (octets : List ℕ) (c d : Claim) → SpellsClaim octets c → SpellsClaim octets d
        → c ≡ d }
{
    mon_fields::laws::samples();
}

/// Marks that say what a station's claims have said still say it after more samples were taken, if
/// they stay with their entries: what fell out of a window does not come back, and what is new
/// there was not said.
pub fn taking()
    ensures { (watch : Watch) (y : ℕ) (old new : List (ℕ × ℕ)) (claims : List Heard)
        (known : Option ℕ) (marked : ℕ → ℕ → Bool)
        → IsPartOf old new → WereTaken old claims → TellsDebts y (window watch old) claims known
        marked
        → TellsDebts y (window watch new) claims known (kept_marks (window watch old)
        (window watch new) marked) }
{}

/// They say it with one claim more, marked as it was noted; a claim of another station changes
/// nothing of them.
pub fn noting()
    ensures own { (y : ℕ) (windows : ℕ → Samples) (claims : List Heard) (known : Option ℕ)
        (marked : ℕ → ℕ → Bool) (c : Heard)
        → c.station ≡ y → TellsDebts y windows claims known marked
        → TellsDebts y windows (c ∷ claims) (Some (latest known c.incarnation))
        (λ i s. marked_by (noted_as known c.incarnation)
        (is_claimed c.instance c.samples windows i s) (marked i s)) }
    ensures other { (y : ℕ) (windows : ℕ → Samples) (claims : List Heard) (known : Option ℕ)
        (marked : ℕ → ℕ → Bool) (c : Heard)
        → c.station ≢ y → TellsDebts y windows claims known marked
        → TellsDebts y windows (c ∷ claims) known marked }
{}

/// What is not marked is then what no claim of the station, in the incarnation that is known, has
/// said.
pub fn owing()
    ensures { (y : ℕ) (windows : ℕ → Samples) (claims : List Heard) (known : Option ℕ)
        (marked : ℕ → ℕ → Bool) → TellsDebts y windows claims known marked
        → (i : ℕ) → owed_in windows marked i ≡ set.retain (windows i) (λ s. is_owed y claims i s) }
{}

/// The pieces of samples are the samples in their order, each of 1 to 40, and all but the last of
/// 40.
pub fn cut_pieces()
    ensures whole { (samples : List ℕ) → flat_map (λ (piece : List ℕ). piece) (pieces samples)
        ≡ samples }
    ensures each { (samples : List ℕ) → AllByRecursion (λ (piece : List ℕ). (1 ≤ length piece)
        × (length piece ≤ 40)) (pieces samples) }
    ensures full { (samples : List ℕ) (k : ℕ) (d : List ℕ) → k + 1 < length (pieces samples)
        → length (slice_index_or (pieces samples) k d) ≡ 40 }
{}
