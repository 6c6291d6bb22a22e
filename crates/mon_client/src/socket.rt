//! A wire over UDP and IPv4.

ghost use Rattle.std.specs.Prelude.{◌≡◌, IfOk, OnOk, length};
ghost use Rattle.mon_udp.specs.Addr.{addr_in};
ghost use Rattle.mon_udp.specs.Bound.{IsBound};
ghost use Rattle.mon_udp.specs.Wait.{Begins};
ghost use Rattle.mon_client.specs.AtSocket.{IsHeardFrom, IsHeardIn, free_port};
ghost use Rattle.mon_client.specs.AtWire.{FitsRoom};

use crate::wire::{Heard, Wire};
use mon_app::{AppFault, Sends, SocketFault, socket_failure, socket_fault};
use mon_udp::{Addr, Binds, Receives, Socket, Ticks, Waiting, failed_after, open_at};
use std::net::{Net, SocketAddr};
use std::rt::Clock;

/// How long a wait lasts after a sending, in milliseconds.
const WAIT: u32 = 2000;

/// A free port of any address.
const FREE: Addr = Addr {
    octets: [0; 4],
    port: 0,
};

/// A wire to the agent at an address. Its socket is at a free port of any address and not
/// connected, so if nobody listens at the agent's port the wait is over, and nothing failed.
#[derive(Drop)]
pub struct WireBy<'a, R: Ticks, S: Receives + Sends> {
    waiting: Waiting<'a, R>,
    socket: S,
    agent: Addr,
    failures: u64,
}

/// A wire by a socket of the operating system's.
pub type SocketWire<'a, R> = WireBy<'a, R, Socket>;

impl<'a, R: Clock + Net> WireBy<'a, R, Socket> {
    /// Opens a wire to the agent at this address.
    ///
    /// # Errors
    /// `SocketFault` if the system gives no socket, `OutOfMemory`.
    pub fn open(rt: &'a R, agent: Addr) -> Result<Self, AppFault>
        ensures agent { IfOk result (λ w. w.agent ≡ agent) }
        ensures failures { IfOk result (λ w. w.failures ≡ 0) }
    {
        Self::open_by(rt, agent)
    }
}

impl<'a, R: Ticks + Net, S: Binds + Receives + Sends> WireBy<'a, R, S> {
    /// Opens a wire to the agent at this address, by a socket at a free port.
    ///
    /// # Errors
    /// `SocketFault` if the system gives no socket, `OutOfMemory`.
    pub fn open_by(rt: &'a R, agent: Addr) -> Result<Self, AppFault>
        ensures bound { IfOk result (λ w. IsBound (S.bound w.socket) (S.stands w.socket)
            free_port) }
        ensures agent { IfOk result (λ w. w.agent ≡ agent) }
        ensures failures { IfOk result (λ w. w.failures ≡ 0) }
    {
        let socket = open_at(rt, FREE).map_err(socket_fault)?;
        let waiting = Waiting::new(rt).map_err(socket_fault)?;
        Ok(WireBy {
            waiting,
            socket,
            agent,
            failures: 0,
        })
    }
}

impl<R: Ticks, S: Receives + Sends> WireBy<'_, R, S> {
    /// Begins a wait, and sends.
    fn begin(&mut self, octets: &[u8]) -> Result<(), SocketFault>
        ensures wait { OnOk result (Begins
            (R.told self.old.waiting.rt.now self.old.waiting.timer.quiet) 2000 self.new.waiting.timer) }
        ensures sent { OnOk result (S.sent self.old.socket octets.now self.old.agent) }
        ensures rt { self.new.waiting.rt ≡ self.old.waiting.rt }
        ensures socket { self.new.socket ≡ self.old.socket }
        ensures agent { self.new.agent ≡ self.old.agent }
        ensures failures { self.new.failures ≡ self.old.failures }
    {
        self.waiting.begin(WAIT).map_err(socket_failure)?;
        self.socket.send(octets, self.agent).map_err(socket_failure)
    }

    /// Receives something in the rest of the wait.
    fn receive_in_wait(&self, room: &mut [u8]) -> Result<Heard, SocketFault>
        ensures received { IfOk result (IsHeardIn
            (R.told self.now.waiting.rt.now self.now.waiting.timer.quiet) (S.quiet self.now.socket)
            (S.received self.now.socket) self.now.agent room.new self.now.waiting.timer) }
        ensures within { IfOk result (FitsRoom (length room.new)) }
        ensures room { length room.new ≡ length room.old }
    {
        match self.waiting.receive(&self.socket, room) {
            Ok(Some((len, from))) => Ok(heard_from(self.agent, from, len, room.len())),
            Ok(None) => Ok(Heard::Quiet),
            Err(error) => Err(socket_failure(error)),
        }
    }
}

impl<R: Ticks, S: Receives + Sends> Wire for WireBy<'_, R, S> {
    ghost use Rattle.std.specs.Prelude.{None};
    ghost use Rattle.mon_udp.specs.Counts.{failed_after};

    // What happens at a socket is not known.
    ghost log = { λ _. None };

    ghost failures = { λ w. w.failures };

    fn send(&mut self, octets: &[u8]) -> Result<(), SocketFault>
        ensures failures { self.new.failures ≡ failed_after result self.old.failures }
        // A wait of 2,000 ms begins at the time that the clock returns in this call.
        ensures wait { OnOk result (Begins
            (R.told self.old.waiting.rt.now self.old.waiting.timer.quiet) 2000 self.new.waiting.timer) }
        // What is answered as sent was sent: these octets, to the agent's address.
        ensures sent { OnOk result (S.sent self.old.socket octets.now self.old.agent) }
        ensures rt { self.new.waiting.rt ≡ self.old.waiting.rt }
        ensures socket { self.new.socket ≡ self.old.socket }
        ensures agent { self.new.agent ≡ self.old.agent }
    {
        let sent = self.begin(octets);
        self.failures = failed_after(self.failures, &sent);
        sent
    }

    fn receive(&mut self, room: &mut [u8]) -> Result<Heard, SocketFault>
        ensures failures { self.new.failures ≡ failed_after result self.old.failures }
        // A datagram is the system's and the agent's; the wire times out only if the wait is over.
        ensures received { IfOk result (IsHeardIn
            (R.told self.old.waiting.rt.now self.old.waiting.timer.quiet) (S.quiet self.old.socket)
            (S.received self.old.socket) self.old.agent room.new self.old.waiting.timer) }
        ensures within { IfOk result (FitsRoom (length room.new)) }
        ensures room { length room.new ≡ length room.old }
        ensures waiting { self.new.waiting ≡ self.old.waiting }
        ensures socket { self.new.socket ≡ self.old.socket }
        ensures agent { self.new.agent ≡ self.old.agent }
    {
        let heard = self.receive_in_wait(room);
        self.failures = failed_after(self.failures, &heard);
        heard
    }
}

/// Returns what a datagram of this length is, from there, in a buffer of this size: the agent's, if
/// it comes from the agent and fits.
fn heard_from(agent: Addr, from: SocketAddr, len: usize, room: usize) -> Heard
    ensures { IsHeardFrom agent (addr_in from) len room result }
{
    match Addr::of(from) {
        Some(from) if from == agent && len <= room => Heard::Datagram(len),
        _ => Heard::Other,
    }
}
