//! Laws of how long a round waits, of its save, of which peers and targets are named, and of
//! restarts. Each is a function that does nothing; its clauses are the law.

ghost use Rattle.std.specs.Prelude.{◌≡◌, ◌≤◌, ◌+◌, ◌*◌, Bool, ℕ, List, None, Some, false, map, true};
ghost use Rattle.mon_station.specs.declared.event.TargetStamp.{TargetStamp};
ghost use Rattle.mon_rounds.specs.Changes.{offers_often};
ghost use Rattle.mon_rounds.specs.Clock.{Follows, Happened, clock_after, responses_of};
ghost use Rattle.mon_rounds.specs.Freshness.{AreQuiet, IsSeldom, late_after, late_over, new_peer, no_row, peer_over, rounds_in};
ghost use Rattle.mon_rounds.specs.Order.{IsRound, RoundEvent, SavesAtTheEnd, saves_in};
ghost use Rattle.mon_rounds.specs.Reception.{AreTimely, HasWaits, Timed, time_in};
ghost use Rattle.mon_rounds.specs.declared.clock.Clock.{Clock};
ghost use Rattle.mon_rounds.specs.declared.clock.Restart.{Restart};
ghost use Rattle.mon_rounds.specs.declared.late.LateRow.{LateRow};
ghost use Rattle.mon_rounds.specs.declared.round.Span.{Span};
ghost use Rattle.mon_rounds.specs.declared.round.Span.TheVariants.{Round};

/// If each reception is over when its wait is, then receptions in which at most this many waits
/// begin take at most four times the length of a wait for each of them, whatever comes and
/// whenever.
pub fn waiting_ends()
    ensures { (most wait_ms now end : ℕ) (all : List Timed) → end ≤ now → AreTimely now end all
        → HasWaits most wait_ms (map (λ t. t.reception) all)
        → time_in all ≤ most * (4 * (wait_ms * 1_000_000)) }
{}

/// Of the events of a round that saves the last one is a save, and no other one is. A round that
/// does not save has no save among its events.
pub fn saves_once()
    ensures saved { (targets most : ℕ) (peers : List ℕ) (events : List RoundEvent)
        → IsRound targets most peers true events → SavesAtTheEnd events }
    ensures unsaved { (targets most : ℕ) (peers : List ℕ) (events : List RoundEvent)
        → IsRound targets most peers false events → saves_in events ≡ 0 }
{}

/// If at most one spell of a peer is counted between two rounds, it is never said to offer often.
pub fn seldom_is_unnamed()
    ensures { (slot station : ℕ) (spells : List (Span × Bool))
        → IsSeldom spells (new_peer slot station) → offers_often
        (peer_over spells (new_peer slot station)) ≡ false }
{}

/// A round without a late datagram, and none in the time after it, ends the row of rounds: the next
/// round begins another one.
pub fn late_ends()
    ensures { (n : ℕ) (spells : List (Span × ℕ)) (row : LateRow) → AreQuiet spells
        → late_after Round n (late_over spells (late_after Round 0 row))
        ≡ late_after Round n no_row }
{}

/// A row that begins in a round has no more rounds than there were since: a target is named in the
/// third at the earliest.
pub fn late_in_a_row()
    ensures { (n : ℕ) (spells : List (Span × ℕ)) → (late_over spells
        (late_after Round n no_row)).rounds ≤ rounds_in spells + 1 }
{}

/// Each restart that is said happened between two responses of the target, of which one was taken
/// directly after the other. If each response has the boots of the one before it and no lesser
/// time, none is said.
pub fn restarts_happened()
    ensures happened { (number : ℕ) (answered : List TargetStamp) (clock : Clock) (r : Restart)
        → (clock_after number answered clock).restart ≡ Some r
        → Happened (responses_of number clock answered) r }
    ensures none { (number : ℕ) (answered : List TargetStamp) (clock : Clock)
        → ((a b : TargetStamp) → Follows a b (responses_of number clock answered)
        → (a.boots ≡ b.boots) × (a.time ≤ b.time))
        → (clock_after number answered clock).restart ≡ None }
{}
