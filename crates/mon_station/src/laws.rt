//! Laws over all lives of a station. Each is a function that does nothing; its clauses are the law.

ghost use Rattle.std.specs.Prelude.{◌≡◌, ◌<◌, ◌∷◌, true, List, Option, Some, ℕ};
ghost use Rattle.std.specs.List.{AllByRecursion};
ghost use Rattle.mon_board.specs.Board.{window_of};
ghost use Rattle.mon_board.specs.Watch.{Watch as AnyWatch, epoch_of, size_of};
ghost use Rattle.mon_board.specs.Windows.{IsWhole, of_both};
ghost use Rattle.mon_disk.specs.Disk.{Leaves};
ghost use Rattle.mon_disk.specs.Keeper.{is_undamaged};
ghost use Rattle.mon_station.specs.Alike.{EqualReports, EqualWindows, WindowsAreOfTaken};
ghost use Rattle.mon_station.specs.declared.fault.StationFault.{StationFault};
ghost use Rattle.mon_station.specs.Lived.{IsLeftAlone, IsLived, entries_of, last_state};
ghost use Rattle.mon_station.specs.ReadEvent.{ReadEvent};
ghost use Rattle.mon_station.specs.State.{State};
ghost use Rattle.mon_station.specs.Stops.{FindsOneOf, GoesOn, Happening, IsHistory, MayFind, Opened, begun_in, last_disk};
ghost use Rattle.mon_station.specs.Taken as lives;
ghost use Rattle.mon_station.specs.Taken.{Answered, Entry};
ghost use Rattle.mon_station.specs.Verdict.{Setting};
ghost use Rattle.mon_window.specs.Top.{top};
ghost use Rattle.mon_window.specs.Window.{Samples};

use mon_disk::Disk;

/// Over any list of lawful answers, in which each life begins from the image that it found: a
/// station's windows are what the watch keeps of the samples that it took. So two stations with
/// equal watches that took the same samples, directly or through others, hold equal windows and
/// print equal reports.
pub fn taken()
    ensures windows { WindowsAreOfTaken }
    ensures equal { EqualWindows }
    ensures reports { EqualReports }
{
    mon_saved::laws::one_image();
    mon_saved::laws::read_back();
}

/// The headline. Over any list of events, answered in any lawful way, and of lives that begin from
/// what was saved: each window is what the watch keeps of the samples that were taken of its
/// instance (the n newest, where its epoch is as great as the window's size n), so two stations
/// with equal watches that took the same, directly or through others, hold equal windows and print
/// equal reports. Joining windows is commutative, associative and idempotent. What is refused, for
/// memory too, changes nothing but a poll that it ends.
///
/// `Station::open`, `step` and `run` extend such a list by what they answered (`lived`), so it
/// holds of every station.
pub fn headline()
    ensures windows { WindowsAreOfTaken }
    ensures equal { EqualWindows }
    ensures reports { EqualReports }
    ensures newest { (history : List (Entry × State)) (s : State) → IsLived history
        → last_state history ≡ Some s → (i : ℕ) → epoch_of s.board.watch i ≡ size_of s.board.watch i
        → window_of s.board i ≡ top (size_of s.board.watch i) (lives.taken (entries_of history) i) }
    ensures commutative { (watch : AnyWatch) (a b : ℕ → Samples) (i : ℕ)
        → of_both watch a b i ≡ of_both watch b a i }
    ensures associative { (watch : AnyWatch) (a b c : ℕ → Samples) (i : ℕ)
        → of_both watch (of_both watch a b) c i ≡ of_both watch a (of_both watch b c) i }
    ensures idempotent { (watch : AnyWatch) (a : ℕ → Samples) (i : ℕ) → IsWhole watch a i
        → of_both watch a a i ≡ a i }
    ensures refused { (past : List (Entry × State)) (old new : State) (e : ReadEvent)
        (fault : StationFault) → IsLived ((Answered e (Some fault), new) ∷ past)
        → last_state past ≡ Some old
        → IsLeftAlone old new }
    ensures untaken { (past : List (Entry × State)) (new : State) (e : ReadEvent)
        (fault : StationFault) (i : ℕ)
        → lives.taken (entries_of ((Answered e (Some fault), new) ∷ past)) i
        ≡ lives.taken (entries_of past) i }
{
    taken();
    mon_window::laws::whole_epoch();
    mon_board::laws::joining();
}

/// Stopped at any time: over any list of lives on an honest disk on which nothing was saved before,
/// whatever openings, events, saves and stops there were, and under changing watches. A life may
/// move to another honest disk, whatever is on it: that counts from its first save there on that is
/// acknowledged. An opening finds the last save that was acknowledged, or one that was running
/// since, and no older one later; none is damaged. A life that an opening answers goes on from such
/// a save, with what its watch keeps of the windows. Its incarnation is greater than that of each
/// earlier life over a file; no other life sent anything.
pub fn stops<D: Disk>()
    ensures left { (first : D) (history : List (Happening × D)) → IsHistory D.Disk first history
        → Leaves (D.may_leave (last_disk first history))
        (FindsOneOf (MayFind D.Disk first history)) }
    ensures undamaged { (first : D) (history : List (Happening × D))
        → IsHistory D.Disk first history
        → is_undamaged (D.seen (last_disk first history)) ≡ true }
    ensures opened { (first disk : D) (past : List (Happening × D)) (w : Setting) (s : State)
        → IsHistory D.Disk first ((Opened w s, disk) ∷ past) → (save : Option State)
        × MayFind D.Disk first past save × GoesOn w save s }
    ensures later { (first disk : D) (past : List (Happening × D)) (w : Setting) (s : State)
        → IsHistory D.Disk first ((Opened w s, disk) ∷ past)
        → AllByRecursion (λ life. life.incarnation < s.incarnation) (begun_in past) }
{
    mon_saved::laws::one_image();
    mon_saved::laws::read_back();
}
