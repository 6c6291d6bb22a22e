//! Receiving datagrams from the system.

ghost use Rattle.std.specs.Prelude.{◌≡◌, ◌≤◌, IfOk, length};

use crate::socket::TRIES;
use std::io;
use std::net::SocketAddr;
use std::time::Duration;

/// What datagrams are received by, as a socket of the system.
pub trait Receives {
    ghost use Rattle.std.specs.Prelude.{◌≡◌, ◌≤◌, IfOk, IfSome, List, None, Ok, ℕ, length};
    ghost use Rattle.std.specs.Duration.{as_nanos};
    ghost use Rattle.std.specs.declared.net.socket_addr.SocketAddr.{SocketAddr as AnySocketAddr};

    // A call left this in a buffer, with this many octets of a datagram at its front, which came
    // from this address. Code that is generic over what receives has this only from a call.
    ghost received: { Self → List ℕ → ℕ → AnySocketAddr → Type 0 };

    // A call waited this many nanoseconds, and nothing came. Had only from a call as well.
    ghost quiet: { Self → ℕ → Type 0 };

    /// Waits for a datagram without end, and puts it into the buffer. Returns how many of its
    /// octets are there, and where it came from.
    ///
    /// # Errors
    /// That of the system; `Interrupted` if a signal interrupted it.
    fn receive_next(&self, buffer: &mut [u8]) -> io::Result<(usize, SocketAddr)>
        ensures received { IfOk result (λ r. received self.now buffer.new r.0 r.1) }
        ensures length { length buffer.new ≡ length buffer.old }
        ensures within { IfOk result (λ r. r.0 ≤ length buffer.new) };

    /// Does the same, and waits no longer than this. `None` if nothing came.
    ///
    /// # Errors
    /// That of the system; `Interrupted` if a signal interrupted it.
    fn receive_within(
        &self,
        time: Duration,
        buffer: &mut [u8],
    ) -> io::Result<Option<(usize, SocketAddr)>>
        ensures received { IfOk result (λ received_one. IfSome received_one
            (λ r. received self.now buffer.new r.0 r.1)) }
        ensures quiet { result ≡ Ok None → quiet self.now (as_nanos time) }
        ensures length { length buffer.new ≡ length buffer.old }
        ensures within { IfOk result (λ received_one. IfSome received_one
            (λ r. r.0 ≤ length buffer.new)) };
}

/// Waits for a datagram without end, and puts it into the buffer. Returns how many of its octets
/// are there, and where it came from.
///
/// # Errors
/// That of the system; a reception that a signal interrupts is tried 255 times.
pub(crate) fn receive_from<S: Receives>(
    socket: &S,
    buffer: &mut [u8],
) -> io::Result<(usize, SocketAddr)>
    ensures received { IfOk result (λ r. S.received socket.now buffer.new r.0 r.1) }
    ensures length { length buffer.new ≡ length buffer.old }
    ensures within { IfOk result (λ r. r.0 ≤ length buffer.new) }
{
    for _ in 1..TRIES {
        match socket.receive_next(buffer) {
            Err(error) if error.kind() == io::ErrorKind::Interrupted => {}
            received => return received,
        }
    }
    socket.receive_next(buffer)
}
