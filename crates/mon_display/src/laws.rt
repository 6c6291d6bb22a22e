//! Laws over the definitions. Each is a function that does nothing; its clauses are the law.

ghost use Rattle.std.specs.Prelude.{◌≤◌, ◌<◌, ◌+◌, ◌*◌, ◌^◌, ℕ};
ghost use Rattle.mon_display.specs.Rate.{digits_of, exponent_of, rounded};

/// What is read from a rate is at most half of its last digit below it, and less than that above
/// it. So of two rates with equal texts each is less than one of the last digit from the other.
pub fn rounding()
    ensures below { (n step : ℕ) → 1 ≤ step → 2 * (rounded n step * step) ≤ 2 * n + step }
    ensures above { (n step : ℕ) → 1 ≤ step → 2 * n < 2 * (rounded n step * step) + step }
{}

/// At most three digits are written of a rate below 10 ^ 32 thousandths, and at least 100 of them
/// if it is at least 1.
pub fn three_digits()
    ensures few { (n : ℕ) → n < 10 ^ 32 → digits_of n ≤ 999 }
    ensures many { (n : ℕ) → 1000 ≤ n → 100 ≤ digits_of n }
{}
