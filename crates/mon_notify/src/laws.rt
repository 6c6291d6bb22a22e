//! Laws over the definitions. Each is a function that does nothing; its clauses are the law.

ghost use Rattle.std.specs.Prelude.{ℕ, List};
ghost use Rattle.mon_notify.specs.Mail.{Mail};
ghost use Rattle.mon_notify.specs.History.{History, IsKept};

/// Each text that was put and was not too long was taken, dropped or waits, in the order in which
/// they came; what is dropped or too long is counted.
pub fn outboxes()
    ensures { (came taken : List (List ℕ)) (d l : ℕ) (m : Mail) → History came taken d l m
        → IsKept came taken d l m }
{}
