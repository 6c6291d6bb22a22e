//! The stream of a client, and what goes over it in a turn.

ghost use Rattle.mon_web.specs.Stream.{IsReceived, IsSent, part_of, read_into};

use mio::net::TcpStream;
use mon_http::Connection;
use std::io::{self, Read, Write};
use std::net::Shutdown;

/// How many octets are sent in a turn at most.
const MAX_SENT: usize = 65_536;

/// The stream of a client.
///
/// Each ghost relation says what one call did: the stream before it, what was asked, what the
/// stream answered, and the stream after it. Code that is generic over the stream has such a
/// relation only from that call, made once and no other since.
pub(crate) trait Stream {
    ghost use Rattle.std.specs.Prelude.{List, ℕ, Result};
    ghost use Rattle.std.specs.Io.{ReadsAtMost, WritesAtMost};
    ghost use Rattle.std.specs.declared.io.Error.{Error};

    // The stream was asked to send these octets, and answered how many of the first it took.
    ghost asked_write: { Self → List ℕ → Result ℕ Error → Self → Type 0 };

    // The stream was asked for octets, and answered how many of the first of the buffer it gave.
    ghost asked_read: { Self → List ℕ → Result ℕ Error → Self → Type 0 };

    // The stream was asked to end what it sends, and answered whether it did.
    ghost asked_end: { Self → Result Unit Error → Self → Type 0 };

    /// Sends the first of these octets, as many as the stream takes, and returns their number.
    fn put(&mut self, octets: &[u8]) -> io::Result<usize>
        ensures bound { WritesAtMost result octets.now }
        ensures asked { asked_write self.old octets.now result self.new };

    /// Reads octets to the front of the buffer, and returns their number.
    fn get(&mut self, buffer: &mut [u8]) -> io::Result<usize>
        ensures bound { ReadsAtMost result buffer.new }
        ensures asked { asked_read self.old buffer.new result self.new };

    /// Ends what is sent, after what the stream took.
    fn end(&mut self) -> io::Result<()>
        ensures asked { asked_end self.old result self.new };
}

// What happens at a socket is not known, so each relation holds. That each call asks the system for
// just this is trusted, line by line.
impl Stream for TcpStream {
    ghost asked_write = { λ _ _ _ _. Unit {0} };

    ghost asked_read = { λ _ _ _ _. Unit {0} };

    ghost asked_end = { λ _ _ _. Unit {0} };

    fn put(&mut self, octets: &[u8]) -> io::Result<usize> {
        self.write(octets)
    }

    fn get(&mut self, buffer: &mut [u8]) -> io::Result<usize> {
        self.read(buffer)
    }

    fn end(&mut self) -> io::Result<()> {
        self.shutdown(Shutdown::Write)
    }
}

/// Sends a part of what is pending, as much as the stream takes, and returns its number of octets.
///
/// # Errors
/// That of the stream; nothing is sent then.
pub(crate) fn send_part<S: Stream>(stream: &mut S, connection: &mut Connection) -> io::Result<usize>
    ensures asked { S.asked_write stream.old (part_of connection.old.unsent) result stream.new }
    ensures sent { IsSent result connection.old connection.new }
{
    let pending = connection.pending();
    let len = pending.len().min(MAX_SENT);
    match stream.put(&pending[..len]) {
        Ok(n) => {
            connection.sent(n);
            Ok(n)
        }
        Err(error) => Err(error),
    }
}

/// Reads as much as the stream gives and the connection has capacity for, and returns its number of
/// octets. They are read into the buffer first.
///
/// # Errors
/// That of the stream; nothing is received then.
pub(crate) fn receive_part<S: Stream>(
    stream: &mut S,
    connection: &mut Connection,
    buffer: &mut [u8],
) -> io::Result<usize>
    ensures asked { S.asked_read stream.old (read_into connection.old buffer.new) result
        stream.new }
    ensures received { IsReceived result buffer.new connection.old connection.new }
{
    let room = connection.room().min(buffer.len());
    match stream.get(&mut buffer[..room])? {
        0 => Ok(0),
        n => {
            connection.receive(&buffer[..n]);
            Ok(n)
        }
    }
}
