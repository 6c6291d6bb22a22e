//! A port over UDP and IPv4.

ghost use Rattle.std.specs.Prelude.{◌≡◌, ◌≤◌, IfErr, IfOk, OnErr, length};
ghost use Rattle.mon_udp.specs.Bound.{IsBound};
ghost use Rattle.mon_serving.specs.AtSocket.{IsArrival, IsStart, hundredths_between};

use crate::port::{Port, Received};
use mon_app::{AppFault, Sends, SocketFault, SocketReason, socket_failure, socket_fault};
use mon_mib::Moment;
use mon_udp::{Addr, Binds, Receives, Socket, Ticks, failed_after, open_at};
use std::io;
use std::net::{Net, SocketAddr};
use std::rt::Clock;
use std::time::Instant;

/// How often a reception that a signal interrupts is tried in all.
const TRIES: u8 = 255;

/// No failure that the system named: the agent's life is over, or a datagram is not of IPv4.
const OTHER: SocketFault = SocketFault {
    reason: SocketReason::Other,
};

/// A port over a socket. The agent's life begins when it is opened.
#[derive(Drop)]
pub struct PortBy<'a, R: Ticks, S: Receives + Sends> {
    rt: &'a R,
    socket: S,
    began: Instant,
    /// Where the last datagram came from.
    from: Addr,
    failures: u64,
}

/// A port over a socket of the operating system's.
pub type SocketPort<'a, R> = PortBy<'a, R, Socket>;

impl<'a, R: Clock + Net> PortBy<'a, R, Socket> {
    /// Listens at this address; port 0 takes a free one.
    ///
    /// # Errors
    /// `SocketFault` if the address is not available, `OutOfMemory`.
    pub fn open(rt: &'a R, listen: Addr) -> Result<Self, AppFault>
        ensures listen { IfOk result (λ port. port.from ≡ listen) }
        ensures failures { IfOk result (λ port. port.failures ≡ 0) }
    {
        Self::open_by(rt, listen)
    }
}

impl<'a, R: Ticks, S: Binds + Receives + Sends> PortBy<'a, R, S> {
    /// Listens at this address by a socket; port 0 takes a free one.
    ///
    /// # Errors
    /// `SocketFault` if the address is not available, `OutOfMemory`.
    pub fn open_by(rt: &'a R, listen: Addr) -> Result<Self, AppFault>
    where
        R: Net,
        ensures bound { IfOk result (λ p. IsBound (S.bound p.socket) (S.stands p.socket) listen) }
        // Its life begins at a time that the clock returns in this call.
        ensures life { IfOk result (λ p. IsStart (R.told rt.now) p.began) }
        // Until a datagram comes, replies go to the address that was asked for.
        ensures listen { IfOk result (λ port. port.from ≡ listen) }
        ensures failures { IfOk result (λ port. port.failures ≡ 0) }
    {
        let socket = open_at(rt, listen).map_err(socket_fault)?;
        let first = rt.first().map_err(socket_fault)?;
        let began = rt.after(first).map_err(socket_fault)?;
        Ok(PortBy {
            rt,
            socket,
            began,
            from: listen,
            failures: 0,
        })
    }

    /// Returns the address that it listens at.
    ///
    /// # Errors
    /// `SocketFault` if the system does not say it, `OutOfMemory`.
    pub fn address(&self) -> Result<SocketAddr, AppFault>
        ensures { IfOk result (S.stands self.now.socket) }
    {
        self.socket.bound_to().map_err(socket_fault)
    }
}

impl<R: Ticks, S: Receives + Sends> PortBy<'_, R, S> {
    /// Waits for a datagram, and keeps where it came from. If it fails replies go where they went.
    fn receive_next(&mut self, room: &mut [u8]) -> Result<Received, SocketFault>
        ensures arrives { IfOk result (IsArrival (S.received self.old.socket room.new)
            (R.told self.old.rt.now self.old.began) self.old.began self.new.from) }
        ensures from { OnErr result (self.new.from ≡ self.old.from) }
        ensures rt { self.new.rt ≡ self.old.rt }
        ensures socket { self.new.socket ≡ self.old.socket }
        ensures life { self.new.began ≡ self.old.began }
        ensures failures { self.new.failures ≡ self.old.failures }
        ensures room { length room.new ≡ length room.old }
        ensures within { IfOk result (λ received. received.len ≤ length room.new) }
    {
        let (len, sender) = receive_from(&self.socket, room).map_err(socket_failure)?;
        let from = Addr::of(sender).ok_or(OTHER)?;
        let at = self.rt.after(self.began).map_err(socket_failure)?;
        let moment = moment_at(self.began, at)?;
        self.from = from;
        Ok(Received { len, moment })
    }
}

/// Waits for a datagram without end, and puts it into the buffer. Returns how many of its octets
/// are there, and where it came from.
///
/// # Errors
/// That of the system; a reception that a signal interrupts is tried 255 times.
fn receive_from<S: Receives>(socket: &S, room: &mut [u8]) -> io::Result<(usize, SocketAddr)>
    ensures received { IfOk result (λ r. S.received socket.now room.new r.0 r.1) }
    ensures room { length room.new ≡ length room.old }
    ensures within { IfOk result (λ r. r.0 ≤ length room.new) }
{
    for _ in 1..TRIES {
        match socket.receive_next(room) {
            Err(error) if error.kind() == io::ErrorKind::Interrupted => {}
            received => return received,
        }
    }
    socket.receive_next(room)
}

/// Returns the time now of a life that started then, in whole hundredths of a second. At 2^31
/// seconds the life is over.
fn moment_at(began: Instant, now: Instant) -> Result<Moment, SocketFault>
    ensures moment { IfOk result (λ moment. moment ≡ hundredths_between began now) }
    ensures over { IfErr result (λ _. 214_748_364_800 ≤ hundredths_between began now) }
{
    let passed = now.duration_since(began);
    match u64::try_from(passed.as_millis() / 10) {
        Ok(hundredths) => Moment::new(hundredths).ok_or(OTHER),
        Err(_) => Err(OTHER),
    }
}

impl<R: Ticks, S: Receives + Sends> Port for PortBy<'_, R, S> {
    ghost use Rattle.std.specs.Prelude.{None};
    ghost use Rattle.mon_udp.specs.Counts.{failed_after};
    ghost use Rattle.mon_serving.specs.AtPort.{Happens, IsReplied};
    ghost use Rattle.mon_serving.specs.AtSocket.{IsSentOrCounted};

    // What happens at a socket is not known.
    ghost log = { λ _. None };

    ghost failures = { λ p. p.failures };

    fn receive(&mut self, room: &mut [u8]) -> Result<Received, SocketFault>
        ensures failures { self.new.failures ≡ failed_after result self.old.failures }
        // The datagram is the system's, at a time that the clock returns in this call; replies go
        // to its sender from now on.
        ensures arrives { IfOk result (IsArrival (S.received self.old.socket room.new)
            (R.told self.old.rt.now self.old.began) self.old.began self.new.from) }
        // If it fails replies go where they went.
        ensures from { OnErr result (self.new.from ≡ self.old.from) }
        ensures rt { self.new.rt ≡ self.old.rt }
        ensures socket { self.new.socket ≡ self.old.socket }
        ensures life { self.new.began ≡ self.old.began }
        ensures room { length room.new ≡ length room.old }
        ensures within { IfOk result (λ received. received.len ≤ length room.new) }
    {
        let received = self.receive_next(room);
        self.failures = failed_after(self.failures, &received);
        received
    }

    fn reply(&mut self, octets: &[u8])
        ensures happens { Happens
            (IsReplied octets.now) None None self.old.failures self.new.failures }
        // These octets were sent where the last datagram came from, or could not be sent there.
        ensures sent { IsSentOrCounted
            (S.sent self.old.socket octets.now self.old.from)
            (S.unsent self.old.socket octets.now self.old.from)
            self.old.failures self.new.failures }
        ensures from { self.new.from ≡ self.old.from }
        ensures rt { self.new.rt ≡ self.old.rt }
        ensures socket { self.new.socket ≡ self.old.socket }
        ensures life { self.new.began ≡ self.old.began }
    {
        let sent = self.socket.send(octets, self.from);
        self.failures = failed_after(self.failures, &sent);
    }
}
