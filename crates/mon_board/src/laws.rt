//! Laws of the windows that pairs leave, of any watch. Each is a function that does nothing.

ghost use Rattle.std.specs.Prelude.{◌≡◌, ◌++◌, ◌∷◌, [], List, ℕ, ◌==◌, if◌then◌else◌};
ghost use Rattle.std.specs.FinSet as set;
ghost use Rattle.mon_board.specs.Windows.{Has, IsPartOf, IsTaken, IsWhole, kept_by, window, joined, of_both};
ghost use Rattle.mon_board.specs.Watch.{Watch};
ghost use Rattle.mon_window.specs.Window.{In, Samples};

/// InstanceSamples put into the windows of a list leave the windows of both.
pub fn joined_windows()
    ensures { (watch : Watch) (taken pairs : List (ℕ × ℕ)) (i : ℕ)
        → joined watch (window watch taken) pairs i ≡ window watch (taken ++ pairs) i }
{}

/// Lists of which each has what is in the other's window of an instance leave one window of it.
pub fn windows_meet()
    ensures { (watch : Watch) (a b : List (ℕ × ℕ)) (i : ℕ) →
        ((s : ℕ) → In s (window watch a i) → Has b i s) → ((s : ℕ) → In s (window watch b i)
        → Has a i s)
        → window watch a i ≡ window watch b i }
{}

/// What is in the window of a larger list is in that of each part that has it.
pub fn windows_stay()
    ensures { (watch : Watch) (a b : List (ℕ × ℕ)) (i s : ℕ) → Has a i s → IsPartOf a b
        → In s (window watch b i) → In s (window watch a i) }
{}

/// A pair changes the window of its own instance: its sample is put in, and the watch keeps what it
/// keeps.
pub fn one_more()
    ensures { (watch : Watch) (taken : List (ℕ × ℕ)) (pair : ℕ × ℕ) (i : ℕ)
        → window watch (taken ++ pair ∷ []) i
        ≡ (if pair.0 == i then kept_by watch i (set.insert (window watch taken i) pair.1)
        else window watch taken i) }
{}

/// Joining windows does not depend on order, grouping or repeats, and leaves what the samples of
/// both leave.
pub fn joining()
    ensures commutative { (watch : Watch) (a b : ℕ → Samples) (i : ℕ)
        → of_both watch a b i ≡ of_both watch b a i }
    ensures associative { (watch : Watch) (a b c : ℕ → Samples) (i : ℕ)
        → of_both watch (of_both watch a b) c i ≡ of_both watch a (of_both watch b c) i }
    ensures idempotent { (watch : Watch) (a : ℕ → Samples) (i : ℕ) → IsWhole watch a i
        → of_both watch a a i ≡ a i }
    ensures taken { (watch : Watch) (some others : List (ℕ × ℕ)) (i : ℕ)
        → of_both watch (window watch some) (window watch others) i
        ≡ window watch (some ++ others) i }
{}

/// Samples that are taken one after another leave the windows with all their pairs put in.
pub fn taken_in_turn()
    ensures none { (watch : Watch) (windows : ℕ → Samples) (i : ℕ) → IsWhole watch windows i
        → joined watch windows [] i ≡ windows i }
    ensures one { (watch : Watch) (old new : ℕ → Samples) (pair : ℕ × ℕ)
        → ((i : ℕ) → IsWhole watch old i) → IsTaken watch old new pair.0 pair.1
        → (i : ℕ) → new i ≡ joined watch old (pair ∷ []) i }
    ensures more { (watch : Watch) (windows : ℕ → Samples) (pairs more : List (ℕ × ℕ)) (i : ℕ)
        → joined watch (joined watch windows pairs) more i
        ≡ joined watch windows (pairs ++ more) i }
{}
