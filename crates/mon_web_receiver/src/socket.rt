//! A socket of UDP whose calls do not wait.

use mio::net::UdpSocket;
use mon_rounds::Sends;
use mon_udp::{Addr, Binds, open_at};
use std::io::{self, ErrorKind};
use std::net::{Net, SocketAddr};

/// A socket of UDP over IPv4 whose calls do not wait. It is closed when it is dropped.
#[derive(Drop)]
pub struct PolledSocket {
    pub(crate) udp: UdpSocket,
}

impl PolledSocket {
    /// Opens a socket at this address; port 0 takes a free one.
    ///
    /// # Errors
    /// That of the system, or `AddrNotAvailable` if the system bound it to another address.
    pub fn open<R: Net>(rt: &R, at: Addr) -> io::Result<Self> {
        open_at(rt, at)
    }

    /// Returns the address that it is at.
    ///
    /// # Errors
    /// That of the system.
    pub fn address(&self) -> io::Result<SocketAddr> {
        self.udp.local_addr()
    }
}

/// What is looked at for a datagram, as a socket of the system whose calls do not wait.
pub trait Looks {
    ghost use Rattle.std.specs.Prelude.{◌≡◌, IfNone, IfOk, IfSome, List, ℕ, length};
    ghost use Rattle.std.specs.declared.net.socket_addr.SocketAddr.{SocketAddr as AnySocketAddr};

    // A call left this in a buffer, with this many octets of a datagram at its front, which came
    // from this address. Code that is generic over what is looked at has this only from a call.
    ghost found: { Self → List ℕ → ℕ → AnySocketAddr → Type 0 };

    // A call found no datagram, as the system said. Such code has this, too, only from a call.
    ghost was_empty: { Self → Type 0 };

    /// Puts a datagram into the buffer, if one is there. Returns how many of its octets are there,
    /// and where it came from.
    ///
    /// # Errors
    /// That of the system.
    fn look(&self, buffer: &mut [u8]) -> io::Result<Option<(usize, SocketAddr)>>
        ensures found { IfOk result (λ datagram. IfSome datagram
            (λ r. found self.now buffer.new r.0 r.1)) }
        ensures none { IfOk result (λ datagram. IfNone datagram (was_empty self.now)) }
        ensures length { length buffer.new ≡ length buffer.old };
}

impl Looks for PolledSocket {
    // What happens at a socket is not known.
    ghost found = { λ _ _ _ _. Unit {0} };

    ghost was_empty = { λ _. Unit {0} };

    fn look(&self, buffer: &mut [u8]) -> io::Result<Option<(usize, SocketAddr)>> {
        match self.udp.recv_from(buffer) {
            Ok(received) => Ok(Some(received)),
            Err(error) => match error.kind() {
                ErrorKind::WouldBlock | ErrorKind::Interrupted => Ok(None),
                _ => Err(error),
            },
        }
    }
}

impl Binds for PolledSocket {
    // What happens at a socket is not known.
    ghost bound = { λ _ _. Unit {0} };

    ghost stands = { λ _ _. Unit {0} };

    fn bind<R: Net>(rt: &R, at: Addr) -> io::Result<Self> {
        let udp = UdpSocket::bind(rt, at.socket())?;
        Ok(PolledSocket { udp })
    }

    fn bound_to(&self) -> io::Result<SocketAddr> {
        self.udp.local_addr()
    }
}

impl Sends for PolledSocket {
    // What happens at a socket is not known.
    ghost sent = { λ _ _ _. Unit {0} };

    /// Sends a datagram to this address. If the socket's buffer is full, that is an error: the
    /// datagram is lost.
    fn send(&self, octets: &[u8], to: Addr) -> io::Result<()> {
        self.udp.send_to(octets, to.socket())?;
        Ok(())
    }
}
