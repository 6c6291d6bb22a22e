//! Laws of the datagrams that are kept. Each is a function that does nothing; its clauses are the
//! law.

ghost use Rattle.std.specs.Prelude.{◌≡◌, ℕ, List, take};
ghost use Rattle.mon_reasons.specs.NewestDatagrams.{datagrams_of, newest_of, other_datagrams};
ghost use Rattle.mon_reasons.specs.declared.newest_datagrams.Datagram.{Datagram};
ghost use Rattle.mon_udp.specs.declared.addr.Addr.{Addr};

/// Datagrams from other addresses stay as they are, and of this address the newest stay.
pub fn newest_stay()
    ensures others { (from : Addr) (most : ℕ) (all : List Datagram)
        → other_datagrams from (newest_of from most all) ≡ other_datagrams from all }
    ensures own { (from : Addr) (most : ℕ) (all : List Datagram)
        → datagrams_of from (newest_of from most all) ≡ take most (datagrams_of from all) }
{}
