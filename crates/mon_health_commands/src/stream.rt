//! Streams of TCP as the command uses them.

ghost use Rattle.std.specs.Prelude.{◌≡◌};

use std::io::{self, Read, Write};
use std::net::{Net, OpenStream, SocketAddr, TcpStream};
use std::time::Duration;

/// A stream of TCP. Each call is one event of its log.
pub trait Stream {
    ghost use Rattle.std.specs.Prelude.{[], ◌∷◌, List, Option};
    ghost use Rattle.std.specs.Io.{ReadsAtMost, WritesAtMost};
    ghost use Rattle.mon_host.specs.Log.{GoesOn};
    ghost use Rattle.mon_health_commands.specs.AtStream.{AtStream, limiting_reads, limiting_writes, offering, receiving};

    // The log, if there is one.
    ghost log: { Self → Option (List AtStream) };

    /// Limits how long each further wait for octets may be, in seconds.
    fn limit_reads(&mut self, seconds: u64) -> io::Result<()>
        ensures { GoesOn (limiting_reads seconds result ∷ []) (log self.old) (log self.new) };

    /// Limits how long each further sending may wait, in seconds.
    fn limit_writes(&mut self, seconds: u64) -> io::Result<()>
        ensures { GoesOn (limiting_writes seconds result ∷ []) (log self.old) (log self.new) };

    /// Sends the first of these octets, as many as the stream takes, and returns their number.
    fn put(&mut self, octets: &[u8]) -> io::Result<usize>
        ensures bound { WritesAtMost result octets.now }
        ensures log { GoesOn (offering octets.now result ∷ []) (log self.old) (log self.new) };

    /// Reads octets to the front of the buffer, and returns their number. 0 if the other side sends
    /// no more, or if the buffer is empty.
    fn get(&mut self, buffer: &mut [u8]) -> io::Result<usize>
        ensures bound { ReadsAtMost result buffer.new }
        ensures log { GoesOn (receiving buffer.new result ∷ []) (log self.old) (log self.new) };
}

// What happens at a socket is not known. That each call asks the system for just this is trusted,
// line by line.
impl<T: Read + Write + OpenStream> Stream for T {
    ghost use Rattle.std.specs.Prelude.{None};

    ghost log = { λ _. None };

    fn limit_reads(&mut self, seconds: u64) -> io::Result<()> {
        self.set_read_timeout(Some(Duration::from_secs(seconds)))
    }

    fn limit_writes(&mut self, seconds: u64) -> io::Result<()> {
        self.set_write_timeout(Some(Duration::from_secs(seconds)))
    }

    fn put(&mut self, octets: &[u8]) -> io::Result<usize> {
        self.write(octets)
    }

    fn get(&mut self, buffer: &mut [u8]) -> io::Result<usize> {
        self.read(buffer)
    }
}

/// Connects streams to stations. That a stream was connected only this call shows.
pub trait Connects {
    ghost use Rattle.std.specs.Prelude.{IfErr, IfOk, ℕ};
    ghost use Rattle.std.specs.declared.io.Error.{Error};
    ghost use Rattle.std.specs.declared.net.socket_addr.SocketAddr.{SocketAddr as AnySocketAddr};

    type Stream: Stream + Drop;

    // It connected this stream to an address, within this many seconds.
    ghost has_connected: { Self → AnySocketAddr → ℕ → Self.Stream → Type 0 };

    // It could not connect a stream to an address within this many seconds, for this error.
    ghost has_failed: { Self → AnySocketAddr → ℕ → Error → Type 0 };

    /// Connects a stream to an address, within this many seconds.
    ///
    /// # Errors
    /// The system's: `TimedOut` if nothing answered in time.
    fn connect(&self, to: SocketAddr, seconds: u64) -> io::Result<Self::Stream>
        ensures connected { IfOk result (has_connected self.now to seconds) }
        ensures failed { IfErr result (has_failed self.now to seconds) };
}

/// Streams of the system's network.
#[derive(Clone, Copy)]
pub struct Tcp<'a, R> {
    rt: &'a R,
}

impl<'a, R> Tcp<'a, R> {
    /// Returns the streams of the operating system's network.
    pub fn new(rt: &'a R) -> Self
        ensures { result.rt.now ≡ rt.now }
    {
        Tcp { rt }
    }
}

// Whether a stream was connected is not known, so each relation holds.
impl<R: Net> Connects for Tcp<'_, R> {
    type Stream = R::Stream;

    ghost has_connected = { λ _ _ _ _. Unit {0} };

    ghost has_failed = { λ _ _ _ _. Unit {0} };

    fn connect(&self, to: SocketAddr, seconds: u64) -> io::Result<R::Stream> {
        TcpStream::connect_timeout(self.rt, &to, Duration::from_secs(seconds))
    }
}
