//! Laws of worlds. Each is a function that does nothing; its clauses are the law.

ghost use Rattle.std.specs.Prelude.{◌≡◌, ℕ, List, Result, Some, map};
ghost use Rattle.std.specs.List.{AllByRecursion};
ghost use Rattle.mon_board.specs.Watch.{IsWatch};
ghost use Rattle.mon_exchange.specs.Claim.{IsClaim};
ghost use Rattle.mon_config.specs.StationCore.{Core};
ghost use Rattle.mon_station.specs.Lived.{last_state};
ghost use Rattle.mon_station.specs.State.{State, owed_to, setting_of};
ghost use Rattle.mon_station.specs.Verdict.{Setting, slot_of};
ghost use Rattle.mon_world.specs.Begun.{AreBegun};
ghost use Rattle.mon_world.specs.Debts.{owed_by};
ghost use Rattle.mon_world.specs.declared.fault.WorldFault.{WorldFault};
ghost use Rattle.mon_world.specs.declared.sending.Sent.{Sent};
ghost use Rattle.mon_world.specs.declared.step.Step.{Step};
ghost use Rattle.mon_world.specs.Moves.{AreMoves, AreUnforged, Move, lives_of, sent_in};
ghost use Rattle.mon_world.specs.Outcome.{AreStepOutcomes, IsUnforged, first_lives};
ghost use Rattle.mon_world.specs.Places.{setting_at};
ghost use Rattle.mon_world.specs.Shows.{StatesOweTruly};

/// Over all moves of a world in which no claim was forged, restarts and stops among them: what a
/// station does not owe a peer whose present incarnation it knows, the peer has taken. Two stations
/// that know each other's present incarnation and owe each other nothing hold equal windows and
/// print equal reports. Every sample in a window was offered by an agent.
pub fn debts()
    ensures owed { (core : Core) (count x y slot : ℕ) (moves : List Move) (s : State)
        → IsWatch core.watch → AreMoves (setting_at core count) moves
        → last_state (lives_of x moves) ≡ Some s
        → slot_of (setting_of s).peers y ≡ Some slot → (i : ℕ)
        → owed_to s slot i ≡ owed_by s (lives_of x moves) y i }
    ensures states { (core : Core) (count : ℕ) (moves : List Move) → IsWatch core.watch
        → AreMoves (setting_at core count) moves → AreUnforged moves → StatesOweTruly moves }
{
    mon_station::laws::taken();
    mon_exchange::laws::taking();
    mon_exchange::laws::noting();
    mon_exchange::laws::owing();
    mon_board::laws::joined_windows();
    mon_window::laws::bound();
    mon_window::laws::rising_list();
    mon_saved::laws::one_image();
}

/// Where no step forges a claim, every claim that was accepted had been sent: of the first lives of
/// stations, and over steps with their results, if what was sent are claims, as of every world.
pub fn unforged()
    ensures first { (settings : ℕ → Setting) (x : ℕ) (states : List State)
        → AreUnforged (first_lives settings x states) }
    ensures steps { (settings : ℕ → Setting) (count : ℕ) (steps : List Step)
        (results : List (Result Sent WorldFault)) (past now : List Move)
        → AllByRecursion IsUnforged steps
        → AllByRecursion IsClaim (map (λ l. l.claim) (sent_in now))
        → AreStepOutcomes settings count steps results past now → AreUnforged past
        → AreUnforged now }
{
    mon_exchange::laws::one_spelling();
}

/// Over all moves of a world, stops within a save among them: a station's first life begins with
/// empty windows and incarnation 1. Each other has the windows of the last save that was answered
/// without a fault, or of one after it that was stopped or met the disk's fault; an opening's own
/// save is one of these. Its incarnation is the one after that of the life before, so greater than
/// each earlier one.
pub fn lives_start()
    ensures { (core : Core) (count x : ℕ) (moves : List Move)
        → AreMoves (setting_at core count) moves → AreBegun (lives_of x moves) }
{
    mon_saved::laws::one_image();
    mon_saved::laws::read_back();
    mon_station::laws::taken();
}
