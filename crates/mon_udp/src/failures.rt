//! The count of failures.

ghost use Rattle.std.specs.Prelude.{◌≡◌};
ghost use Rattle.mon_udp.specs.Counts.{failed_after};

/// A count of failures after what a call answered. It stays at its greatest.
pub fn failed_after<T, F>(count: u64, answer: &Result<T, F>) -> u64
    ensures { result ≡ failed_after answer.now count }
{
    match answer {
        Ok(_) => count,
        Err(_) => count.saturating_add(1),
    }
}
