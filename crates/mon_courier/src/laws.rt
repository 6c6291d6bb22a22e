//! Laws over the definitions. Each is a function that does nothing; its clauses are the law.

ghost use Rattle.std.specs.Prelude.{ℕ, List};
ghost use Rattle.mon_courier.specs.Courier.{State};
ghost use Rattle.mon_courier.specs.History.{History, IsKept};

use crate::stream::Stream;

/// Each text that was put and was not too long was delivered, refused or dropped, is in hand or
/// waits, in the order in which they came; what is refused, dropped, too long or not made is
/// counted.
pub fn couriers<S: Stream>()
    ensures { (came : List (List ℕ)) (long lost : ℕ) (s : State S)
        → History S.asked_connect S.asked_write S.asked_read came long lost s
        → IsKept came long lost s }
{}
