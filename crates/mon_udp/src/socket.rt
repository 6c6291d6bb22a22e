//! A socket of UDP over IPv4.

ghost use Rattle.std.specs.Prelude.{◌≡◌, ◌≤◌, IfOk, length};

use crate::addr::Addr;
use crate::binding::{Binds, open_at};
use crate::receiving::{Receives, receive_from};
use std::alloc::{AllocError, Global};
use std::io;
use std::net::{Net, SocketAddr, UdpSocket};
use std::time::Duration;

/// How often a reception that a signal interrupts is tried in all.
pub(crate) const TRIES: u8 = 255;

/// How many octets a datagram of UDP over IPv4 has at most (RFC 768, RFC 791).
const MAX_DATAGRAM: usize = 65_507;

/// Allocates a buffer for the largest datagram, of 65507 octets.
pub fn datagram_buffer(alloc: Global) -> Result<Vec<u8>, AllocError>
    ensures { IfOk result (λ buffer. length buffer.items ≡ 65507) }
{
    vec![in alloc; 0u8; MAX_DATAGRAM]
}

/// A socket of UDP over IPv4, which is closed when it is dropped.
#[derive(Drop)]
pub struct Socket {
    pub(crate) udp: UdpSocket,
}

impl Socket {
    /// Opens a socket at this address; port 0 takes a free one.
    ///
    /// # Errors
    /// That of the system, or `AddrNotAvailable` if the system bound it to another address.
    pub fn open<R: Net>(rt: &R, at: Addr) -> io::Result<Self> {
        open_at(rt, at)
    }

    /// Returns the address that it is at.
    ///
    /// # Errors
    /// That of the system.
    pub fn address(&self) -> io::Result<SocketAddr> {
        self.udp.local_addr()
    }

    /// Sends a datagram to this address.
    ///
    /// # Errors
    /// That of the system.
    pub fn send(&self, octets: &[u8], to: Addr) -> io::Result<()> {
        self.udp.send_to(octets, to.socket())?;
        Ok(())
    }

    /// Waits for a datagram without end, and puts it into the buffer. Returns how many of its
    /// octets are there, and where it came from.
    ///
    /// # Errors
    /// That of the system; a reception that a signal interrupts is tried 255 times.
    pub fn receive(&self, buffer: &mut [u8]) -> io::Result<(usize, SocketAddr)>
        ensures length { length buffer.new ≡ length buffer.old }
        ensures within { IfOk result (λ r. r.0 ≤ length buffer.new) }
    {
        receive_from(self, buffer)
    }
}

impl Binds for Socket {
    // What happens at a socket is not known.
    ghost bound = { λ _ _. Unit {0} };

    ghost stands = { λ _ _. Unit {0} };

    fn bind<R: Net>(rt: &R, at: Addr) -> io::Result<Self> {
        let udp = UdpSocket::bind(rt, at.socket())?;
        Ok(Socket { udp })
    }

    fn bound_to(&self) -> io::Result<SocketAddr> {
        self.udp.local_addr()
    }
}

impl Receives for Socket {
    // What happens at a socket is not known.
    ghost received = { λ _ _ _ _. Unit {0} };

    ghost quiet = { λ _ _. Unit {0} };

    fn receive_next(&self, buffer: &mut [u8]) -> io::Result<(usize, SocketAddr)> {
        self.udp.recv_from(buffer)
    }

    fn receive_within(
        &self,
        time: Duration,
        buffer: &mut [u8],
    ) -> io::Result<Option<(usize, SocketAddr)>> {
        self.udp.set_read_timeout(Some(time))?;
        match self.udp.recv_from(buffer) {
            Ok(received) => Ok(Some(received)),
            Err(error) => match error.kind() {
                io::ErrorKind::WouldBlock | io::ErrorKind::TimedOut => Ok(None),
                _ => Err(error),
            },
        }
    }
}
