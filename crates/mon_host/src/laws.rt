//! Laws of the definitions. Each function does nothing, and its clause is the law.

ghost use Rattle.std.specs.Prelude.{◌≡◌, ◌⊎◌, ◌++◌, ℕ, List, Bool, Result, Ok, Err, IsTrue};
ghost use Rattle.mon_host.specs.AtHost.{AtHost};
ghost use Rattle.mon_host.specs.Then.{Then};

/// Where the first of two steps failed, nothing more was done, and its failure is that of both.
/// Else the second one was done after it. It is said of steps on numbers, which tests decide.
pub fn then_stops()
    ensures { (first : List AtHost → Result ℕ ℕ → Bool)
        (second : ℕ → List AtHost → Result ℕ ℕ → Bool) (log : List AtHost) (result : Result ℕ ℕ)
        → Then (λ l r. IsTrue (first l r)) (λ a l r. IsTrue (second a l r)) log result
        → ((failure : ℕ) × IsTrue (first log (Err failure)) × (result ≡ Err failure))
        ⊎ ((value : ℕ) × (begin rest : List AtHost) × IsTrue (first begin (Ok value))
        × IsTrue (second value rest result) × (log ≡ begin ++ rest)) }
{}
