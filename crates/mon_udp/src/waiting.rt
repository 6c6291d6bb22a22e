//! Waits of a limited length for what comes to a socket.

ghost use Rattle.std.specs.Prelude.{◌≡◌, ◌≤◌, IfOk, IfSome, OnErr, OnOk, length};
ghost use Rattle.mon_udp.specs.Wait.{Begins, IsReception, Renews};

use crate::receiving::Receives;
use crate::socket::TRIES;
use crate::ticks::Ticks;
use crate::timer::Timer;
use std::io;
use std::net::SocketAddr;

/// A wait for what comes to a socket.
#[derive(Drop)]
pub struct Waiting<'a, R: Ticks> {
    rt: &'a R,
    timer: Timer,
}

impl<'a, R: Ticks> Waiting<'a, R> {
    /// Returns a wait that is over.
    ///
    /// # Errors
    /// That of the system, if the clock fails.
    pub fn new(rt: &'a R) -> io::Result<Self>
        ensures over { IfOk result (λ w. w.timer.milliseconds ≡ 0) }
    {
        let timer = Timer::begin(0, rt.first()?);
        Ok(Waiting { rt, timer })
    }

    /// Begins a wait of this many milliseconds.
    ///
    /// # Errors
    /// That of the system, if the clock fails. Then the last wait goes on.
    pub fn begin(&mut self, milliseconds: u32) -> io::Result<()>
        // It begins at the time that the clock returns in this call.
        ensures begins { OnOk result (Begins (R.told self.old.rt.now self.old.timer.quiet)
            milliseconds self.new.timer) }
        ensures same { OnErr result (self.new.timer ≡ self.old.timer) }
        ensures rt { self.new.rt ≡ self.old.rt }
    {
        let now = self.rt.after(self.timer.quiet())?;
        self.timer = Timer::begin(milliseconds, now);
        Ok(())
    }

    /// Renews the wait: it is idle since now. When it started stays, so it ends at the latest four
    /// times its length after that.
    ///
    /// # Errors
    /// That of the system, if the clock fails. Then the wait is not renewed.
    pub fn renew(&mut self) -> io::Result<()>
        // It is idle since the time that the clock returns in this call.
        ensures renews { OnOk result (Renews (R.told self.old.rt.now self.old.timer.quiet)
            self.old.timer self.new.timer) }
        ensures same { OnErr result (self.new.timer ≡ self.old.timer) }
        ensures rt { self.new.rt ≡ self.old.rt }
    {
        let now = self.rt.after(self.timer.quiet())?;
        self.timer = self.timer.renew(now);
        Ok(())
    }

    /// Receives a datagram in the rest of the wait, and puts it into the buffer. Returns how many
    /// of its octets are there, and where it came from; `None` if the wait is over.
    ///
    /// # Errors
    /// That of the system; `Interrupted` if a signal interrupted 255 receptions.
    pub fn receive<S: Receives>(
        &self,
        socket: &S,
        buffer: &mut [u8],
    ) -> io::Result<Option<(usize, SocketAddr)>>
        ensures gives { IfOk result (IsReception (R.told self.now.rt.now self.now.timer.quiet)
            (S.quiet socket.now) (S.received socket.now buffer.new) self.now.timer) }
        ensures length { length buffer.new ≡ length buffer.old }
        ensures within { IfOk result (λ received. IfSome received (λ r. r.0 ≤ length buffer.new)) }
    {
        for _ in 0..TRIES {
            let left = self.timer.left(self.rt.after(self.timer.quiet())?);
            if left.is_zero() {
                return Ok(None);
            }
            match socket.receive_within(left, buffer) {
                Err(error) if error.kind() == io::ErrorKind::Interrupted => {}
                received => return received,
            }
        }
        Err(io::Error::from(io::ErrorKind::Interrupted))
    }
}
