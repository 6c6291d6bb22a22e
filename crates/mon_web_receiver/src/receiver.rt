//! Receives a station's datagrams, and serves HTTP while it waits for them.

ghost use Rattle.std.specs.Prelude.{◌⊎◌, ◌≡◌, ◌<◌, ◌≤◌, ◌+◌, IfNone, IfOk, IfSome, OnOk, length};
ghost use Rattle.std.specs.Duration.{as_nanos};
ghost use Rattle.mon_rounds.specs.AtSocket.{IsGot};
ghost use Rattle.mon_rounds.specs.Reception.{IsTimed};
ghost use Rattle.mon_udp.specs.Wait.{begun};
ghost use Rattle.mon_web_receiver.specs.Attempt.{HadTurn, HadTurns, IsAttempt, IsTurnIn, TakesTurns, no_silence, wait_after};

use crate::serves::{Dates, Serves};
use crate::shows::Shows;
use crate::socket::{Looks, PolledSocket};
use mio::unix::SourceFd;
use mon_rounds::{Arrival, Receiver, ReceiverFault, Wait, arrival_of, milliseconds};
use mon_udp::{Ticks, Timer, datagram_buffer, failed_after};
use mon_web::{Content, Moment, Server};
use std::alloc::Global;
use std::io;
use std::net::SocketAddr;
use std::os::fd::AsRawFd;
use std::time::{Duration, Instant};

/// How often a wait looks for a datagram at most, after each thing that it does for HTTP. A wait is
/// over long before.
const TRIES: u32 = u32::MAX;

/// How many datagrams are received at most before HTTP has a turn.
const MAX_UNSERVED: u32 = 64;

/// What an attempt to receive came to.
#[derive(Clone, Copy)]
pub(crate) enum Attempt {
    /// A datagram of this length came from this address.
    Received(usize, SocketAddr),
    /// The wait is over.
    Over,
    /// Nothing came, or HTTP was due; HTTP had a turn.
    Served,
}

/// Receives a station's datagrams by its socket, and serves HTTP while it waits for them.
#[derive(Drop)]
pub struct WebReceiver<'a, R: Dates, T: Ticks, S: Looks, W: Serves> {
    rt: &'a R,
    ticks: &'a T,
    alloc: Global,
    socket: &'a S,
    web: W,
    origin: Instant,
    timer: Timer,
    buffer: Vec<u8>,
    /// How many datagrams were received since HTTP had a turn.
    unserved: u32,
    failures: u64,
}

impl<'a, C: Content, R: Dates + AllocGlobal, T: Ticks> WebReceiver<
    'a,
    R,
    T,
    PolledSocket,
    Server<C>,
> {
    /// Returns a receiver by this socket, in no wait yet. Waits are reckoned by `ticks`; the times
    /// of the pages are since `origin`.
    ///
    /// # Errors
    /// `OutOfMemory` if there is no memory for a datagram, else the system's fault.
    pub fn new(
        rt: &'a R,
        ticks: &'a T,
        socket: &'a PolledSocket,
        web: Server<C>,
        origin: Instant,
    ) -> io::Result<Self>
        ensures pages { IfOk result (λ r. r.web.table.pages ≡ web.table.pages) }
        ensures origin { IfOk result (λ r. r.origin ≡ origin) }
        ensures over { IfOk result (λ r. r.timer ≡ begun 0 origin) }
        ensures buffer { IfOk result (λ r. length r.buffer.items ≡ 65507) }
        ensures served { IfOk result (λ r. r.unserved ≡ 0) }
        ensures failures { IfOk result (λ r. r.failures ≡ 0) }
    {
        let alloc = rt.alloc();
        web.watch(&mut SourceFd(&socket.udp.as_raw_fd()))?;
        Ok(WebReceiver {
            rt,
            ticks,
            alloc,
            socket,
            web,
            origin,
            timer: Timer::begin(0, origin),
            buffer: datagram_buffer(alloc)?,
            unserved: 0,
            failures: 0,
        })
    }
}

impl<R: Dates, T: Ticks, S: Looks, W: Serves> WebReceiver<'_, R, T, S, W> {
    /// Begins a wait, renews it, or goes on with it.
    fn begin(&mut self, wait: Wait) -> io::Result<()>
        ensures wait { OnOk result (IsTimed (T.told self.old.ticks.now self.old.timer.quiet) wait
            self.old.timer self.new.timer) }
        ensures by { (self.new.ticks ≡ self.old.ticks) × (self.new.socket ≡ self.old.socket)
            × (self.new.rt ≡ self.old.rt) }
        ensures buffer { self.new.buffer ≡ self.old.buffer }
        ensures web { (self.new.web ≡ self.old.web) × (self.new.unserved ≡ self.old.unserved) }
        ensures origin { self.new.origin ≡ self.old.origin }
    {
        match wait {
            Wait::Begin(milliseconds) => {
                self.timer = Timer::begin(milliseconds, self.ticks.after(self.timer.quiet())?);
            }
            Wait::Renew => self.timer = self.timer.renew(self.ticks.after(self.timer.quiet())?),
            Wait::Rest => {}
        }
        Ok(())
    }

    /// Receives something in the rest of the wait.
    fn receive_rest(&mut self) -> Result<Arrival, ReceiverFault>
        ensures got { IfOk result (IsGot (T.told self.old.ticks.now self.old.timer.quiet) no_silence
            (S.found self.old.socket.now) self.new.buffer.items self.old.timer) }
        ensures turns { IfOk result (HadTurns
            (IsTurnIn (T.told self.old.ticks.now self.old.timer.quiet) (R.dated self.old.rt.now)
            W.served self.old.origin self.old.timer)
            self.old.unserved self.new.unserved self.old.web self.new.web) }
        ensures timer { self.new.timer ≡ self.old.timer }
        ensures buffer { length self.new.buffer.items ≡ length self.old.buffer.items }
        ensures pages { W.pages self.new.web ≡ W.pages self.old.web }
        ensures origin { self.new.origin ≡ self.old.origin }
    {
        for _ in 0..TRIES {
            match self.attempt() {
                Ok(Attempt::Received(len, from)) => {
                    return arrival_of(self.alloc, self.buffer.as_slice(), len, from);
                }
                Ok(Attempt::Over) => return Ok(Arrival::Quiet),
                Ok(Attempt::Served) => {}
                Err(_) => return Err(ReceiverFault),
            }
        }
        Err(ReceiverFault)
    }

    /// Looks at the time; then for a datagram, and gives HTTP a turn in what is left of the wait if
    /// there is none. After 64 datagrams HTTP has its turn first.
    fn attempt(&mut self) -> io::Result<Attempt>
        ensures attempt { IfOk result (IsAttempt
            (T.told self.old.ticks.now self.old.timer.quiet)
            (S.found self.old.socket.now self.new.buffer.items)
            (HadTurn (R.dated self.old.rt.now) W.served self.old.origin self.old.web self.new.web)
            self.old.unserved self.old.timer) }
        ensures turns { IfOk result (TakesTurns self.old.unserved self.new.unserved
            self.old.web self.new.web) }
        ensures timer { self.new.timer ≡ self.old.timer }
        ensures by { (self.new.ticks ≡ self.old.ticks) × (self.new.socket ≡ self.old.socket)
            × (self.new.rt ≡ self.old.rt) }
        ensures buffer { length self.new.buffer.items ≡ length self.old.buffer.items }
        ensures pages { W.pages self.new.web ≡ W.pages self.old.web }
        ensures origin { self.new.origin ≡ self.old.origin }
    {
        let now = self.ticks.after(self.timer.quiet())?;
        let left = self.timer.left(now);
        if left.is_zero() {
            return Ok(Attempt::Over);
        }
        match self.look()? {
            Some((len, from)) => Ok(Attempt::Received(len, from)),
            None => {
                self.serve(now, left)?;
                Ok(Attempt::Served)
            }
        }
    }

    /// Looks for a datagram, if HTTP is not due.
    fn look(&mut self) -> io::Result<Option<(usize, SocketAddr)>>
        ensures found { IfOk result (λ found. IfSome found (λ r. S.found self.old.socket.now
            self.new.buffer.items r.0 r.1)) }
        ensures turns { IfOk result (λ found. IfSome found (λ _.
            (self.old.unserved < 64) × (self.new.unserved ≡ self.old.unserved + 1))) }
        ensures none { IfOk result (λ found. IfNone found (self.new.unserved ≡ self.old.unserved)) }
        ensures empty { IfOk result (λ found. IfNone found ((64 ≤ self.old.unserved)
            ⊎ S.was_empty self.old.socket.now)) }
        ensures timer { self.new.timer ≡ self.old.timer }
        ensures by { (self.new.ticks ≡ self.old.ticks) × (self.new.socket ≡ self.old.socket)
            × (self.new.rt ≡ self.old.rt) }
        ensures buffer { length self.new.buffer.items ≡ length self.old.buffer.items }
        ensures web { self.new.web ≡ self.old.web }
        ensures origin { self.new.origin ≡ self.old.origin }
    {
        if self.unserved >= MAX_UNSERVED {
            return Ok(None);
        }
        let found = self.socket.look(self.buffer.as_mut_slice())?;
        if found.is_some() {
            self.unserved += 1;
        }
        Ok(found)
    }

    /// Gives HTTP a turn, in what is left of the wait; without a wait if datagrams had it wait.
    fn serve(&mut self, now: Instant, left: Duration) -> io::Result<()>
        ensures served { OnOk result (HadTurn (R.dated self.old.rt.now) W.served self.old.origin
            self.old.web self.new.web now (wait_after self.old.unserved (as_nanos left))) }
        ensures turns { self.new.unserved ≡ 0 }
        ensures timer { self.new.timer ≡ self.old.timer }
        ensures by { (self.new.ticks ≡ self.old.ticks) × (self.new.socket ≡ self.old.socket)
            × (self.new.rt ≡ self.old.rt) }
        ensures buffer { self.new.buffer ≡ self.old.buffer }
        ensures pages { W.pages self.new.web ≡ W.pages self.old.web }
        ensures origin { self.new.origin ≡ self.old.origin }
    {
        let wait = if self.unserved < MAX_UNSERVED {
            left
        } else {
            Duration::ZERO
        };
        self.unserved = 0;
        let at = Moment {
            now: milliseconds(now.duration_since(self.origin)),
            date: self.rt.date(),
        };
        self.web.serve(at, wait)
    }
}

impl<R: Dates, T: Ticks, S: Looks, W: Serves> Receiver for WebReceiver<'_, R, T, S, W> {
    ghost use Rattle.std.specs.Prelude.{None};
    ghost use Rattle.mon_udp.specs.Counts.{failed_after};

    // What happens at a socket is not known.
    ghost log = { λ _. None };

    ghost failures = { λ r. r.failures };

    fn receive(&mut self, wait: Wait) -> Result<Arrival, ReceiverFault>
        ensures failures { self.new.failures ≡ failed_after result self.old.failures }
        // The wait begins at the time that the clock returns in this call, or is idle since then.
        ensures wait { OnOk result (IsTimed (T.told self.old.ticks.now self.old.timer.quiet) wait
            self.old.timer self.new.timer) }
        // A datagram is the system's; there is none only if the wait is over by the clock.
        ensures got { IfOk result (IsGot (T.told self.old.ticks.now self.new.timer.quiet) no_silence
            (S.found self.old.socket.now) self.new.buffer.items self.new.timer) }
        // HTTP has its turns, and one at the latest after each 64 datagrams.
        ensures turns { IfOk result (HadTurns
            (IsTurnIn (T.told self.old.ticks.now self.new.timer.quiet) (R.dated self.old.rt.now)
            W.served self.old.origin self.new.timer)
            self.old.unserved self.new.unserved self.old.web self.new.web) }
        ensures buffer { length self.new.buffer.items ≡ length self.old.buffer.items }
        ensures pages { W.pages self.new.web ≡ W.pages self.old.web }
        ensures origin { self.new.origin ≡ self.old.origin }
    {
        let failures = self.failures;
        let received = match self.begin(wait) {
            Ok(()) => self.receive_rest(),
            Err(_) => Err(ReceiverFault),
        };
        self.failures = failed_after(failures, &received);
        received
    }
}

impl<C: Content, R: Dates, T: Ticks, S: Looks> Shows<C> for WebReceiver<'_, R, T, S, Server<C>> {
    ghost use Rattle.std.specs.Prelude.{Some, option_map};
    ghost use Rattle.mon_web.specs.Pages.{view_of, with_texts};

    ghost shown = { λ r. Some (view_of C.says r.web.table.pages) };

    fn is_shown(&self) -> bool {
        true
    }

    fn show(&mut self, content: Option<C>)
        ensures shown { Some (view_of C.says self.new.web.table.pages)
            ≡ option_map (with_texts (option_map C.says content))
            (Some (view_of C.says self.old.web.table.pages)) }
        ensures failures { self.new.failures ≡ self.old.failures }
    {
        self.web.show(content);
    }

    fn take_content(&mut self) -> Option<C> {
        self.web.take_content()
    }

    fn note_round(&mut self, at: u64, number: u32) {
        self.web.note_round(at, number);
    }
}
