//! Sending datagrams by the system.

use mon_udp::{Addr, Socket};
use std::io;

/// What datagrams are sent by, as a socket of the system.
pub trait Sends {
    ghost use Rattle.std.specs.Prelude.{List, ℕ, OnErr, OnOk};
    ghost use Rattle.mon_udp.specs.declared.addr.Addr.{Addr as AnyAddr};

    // These octets were sent to this address. Code that is generic over what sends has this only
    // from a call of `send`.
    ghost sent: { Self → List ℕ → AnyAddr → Type 0 };

    // These octets could not be sent to this address. This too comes only from a call.
    ghost unsent: { Self → List ℕ → AnyAddr → Type 0 };

    /// Sends a datagram to this address.
    ///
    /// # Errors
    /// That of the system.
    fn send(&self, octets: &[u8], to: Addr) -> io::Result<()>
        ensures sent { OnOk result (sent self.now octets.now to) }
        ensures unsent { OnErr result (unsent self.now octets.now to) };
}

impl Sends for Socket {
    // What happens at a socket is not known.
    ghost sent = { λ _ _ _. Unit {0} };

    ghost unsent = { λ _ _ _. Unit {0} };

    fn send(&self, octets: &[u8], to: Addr) -> io::Result<()> {
        Socket::send(self, octets, to)
    }
}
