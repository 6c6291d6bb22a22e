//! Laws over these definitions. Each is a function that does nothing; its clauses are the law.

ghost use Rattle.std.specs.Prelude.{◌≡◌, ◌↔◌, ◌≤◌, ◌<◌, ◌+◌, ◌-◌, ◌*◌, ◌^◌, ℕ, suc, List, Some};
ghost use Rattle.mon_udp.specs.declared.addr.Addr.{Addr};
ghost use Rattle.mon_udp.specs.Addr.{IsAddrText, addr_of};
ghost use Rattle.mon_udp.specs.Counts.{next_count};
ghost use Rattle.mon_udp.specs.Wait.{left_of};

/// A count rises by one, until it is at its greatest; there it stays.
pub fn counts_rise()
    ensures rises { (count : ℕ) → count < 2 ^ 64 - 1 → next_count count ≡ suc count }
    ensures stays { next_count (2 ^ 64 - 1) ≡ 2 ^ 64 - 1 }
{}

/// A text is read as an address exactly if it writes that address.
pub fn addresses()
    ensures { (text : List ℕ) (a : Addr) → (addr_of text ≡ Some a) ↔ IsAddrText text a }
{}

/// A wait is over four times its length after it started, however often and at whatever times it
/// was renewed; and when it was idle for its length. Until then something of it is left.
pub fn waits_end()
    ensures whole { (length began quiet now : ℕ) → began + 4 * length ≤ now
        → left_of length began quiet now ≡ 0 }
    ensures quiet { (length began quiet now : ℕ) → quiet + length ≤ now
        → left_of length began quiet now ≡ 0 }
    ensures on { (length began quiet now : ℕ) → began ≤ now → quiet ≤ now → now < quiet + length
        → now < began + 4 * length → 0 < left_of length began quiet now }
{}
