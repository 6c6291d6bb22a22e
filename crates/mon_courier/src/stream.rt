//! The stream to the receiver of the texts.

use mio::net::TcpStream;
use std::io::{self, Read, Write};
use std::net::{Net, SocketAddr};

/// A stream whose calls return at once.
///
/// Each ghost relation says what one call did: what was asked, what was answered, and the stream
/// before and after it. Code that is generic over the stream has such a relation only from that
/// call.
pub trait Stream {
    ghost use Rattle.std.specs.Prelude.{List, ℕ, Result};
    ghost use Rattle.std.specs.Io.{ReadsAtMost, WritesAtMost};
    ghost use Rattle.std.specs.declared.io.Error.{Error};
    ghost use Rattle.std.specs.declared.net.socket_addr.SocketAddr.{SocketAddr as Place};

    // The system was asked to connect a stream to this address, and answered this.
    ghost asked_connect: { Place → Result Self Error → Type 0 };

    // The stream was asked to send these octets, and answered how many of the first it took.
    ghost asked_write: { Self → List ℕ → Result ℕ Error → Self → Type 0 };

    // The stream was asked for octets, and answered how many of the first of the buffer it gave.
    ghost asked_read: { Self → List ℕ → Result ℕ Error → Self → Type 0 };

    /// Begins to connect to this address, and returns at once.
    ///
    /// # Errors
    /// That of the system, if it already knows one.
    fn connect<R: Net>(rt: &R, to: SocketAddr) -> io::Result<Self>
    where
        Self: Sized,
        ensures { asked_connect to result };

    /// Sends the first of these octets, as many as the stream takes, and returns their number.
    ///
    /// # Errors
    /// `WouldBlock` if it takes none now; those of the connection.
    fn put(&mut self, octets: &[u8]) -> io::Result<usize>
        ensures bound { WritesAtMost result octets.now }
        ensures asked { asked_write self.old octets.now result self.new };

    /// Reads octets to the front of the buffer, and returns their number. 0 if the other side sends
    /// no more, or if the buffer is empty.
    ///
    /// # Errors
    /// `WouldBlock` if there are none now; those of the connection.
    fn get(&mut self, buffer: &mut [u8]) -> io::Result<usize>
        ensures bound { ReadsAtMost result buffer.new }
        ensures asked { asked_read self.old buffer.new result self.new };
}

// What happens at a socket is not known, so each relation holds. That each call asks the system for
// just this is trusted, line by line.
impl Stream for TcpStream {
    ghost asked_connect = { λ _ _. Unit {0} };

    ghost asked_write = { λ _ _ _ _. Unit {0} };

    ghost asked_read = { λ _ _ _ _. Unit {0} };

    fn connect<R: Net>(rt: &R, to: SocketAddr) -> io::Result<TcpStream> {
        TcpStream::connect(rt, to)
    }

    fn put(&mut self, octets: &[u8]) -> io::Result<usize> {
        self.write(octets)
    }

    fn get(&mut self, buffer: &mut [u8]) -> io::Result<usize> {
        self.read(buffer)
    }
}
