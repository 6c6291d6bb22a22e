//! A station receives and sends by one socket, so that responses and claims come back to it.

ghost use Rattle.std.specs.Prelude.{◌≡◌, IfOk, IsErr, None, OnOk, length};
ghost use Rattle.mon_rounds.specs.AtSocket.{IsArrival, IsGot, IsSentTo, goes_to};
ghost use Rattle.mon_rounds.specs.Reception.{IsTimed};

use crate::addresses::Addresses;
use crate::receiver::{Arrival, Receiver, ReceiverFault, Wait};
use mon_ber::Octets;
use mon_station::{Outbox, OutboxFault, Outgoing, To};
use mon_udp::{Addr, Receives, Socket, Ticks, Waiting, datagram_buffer, failed_after};
use std::alloc::Global;
use std::io;
use std::net::SocketAddr;

/// Receives a station's datagrams by its socket.
#[derive(Drop)]
pub struct SocketReceiver<'a, R: Ticks, S: Receives> {
    alloc: Global,
    socket: &'a S,
    waiting: Waiting<'a, R>,
    buffer: Vec<u8>,
    failures: u64,
}

impl<'a, R: Ticks, S: Receives> SocketReceiver<'a, R, S> {
    /// Returns a receiver by this socket, in no wait yet, with a buffer for the largest datagram.
    ///
    /// # Errors
    /// `OutOfMemory` if there is no memory for a datagram, the system's fault if the clock fails.
    pub fn new(rt: &'a R, alloc: Global, socket: &'a S) -> io::Result<Self>
        ensures failures { IfOk result (λ r. r.failures ≡ 0) }
        ensures over { IfOk result (λ r. r.waiting.timer.milliseconds ≡ 0) }
        ensures buffer { IfOk result (λ r. length r.buffer.items ≡ 65507) }
    {
        Ok(SocketReceiver {
            alloc,
            socket,
            waiting: Waiting::new(rt)?,
            buffer: datagram_buffer(alloc)?,
            failures: 0,
        })
    }
}

impl<R: Ticks, S: Receives> SocketReceiver<'_, R, S> {
    /// Begins a wait, renews it, or goes on with it, and receives something in it.
    fn receive_in(&mut self, wait: Wait) -> Result<Arrival, ReceiverFault>
        ensures wait { OnOk result (IsTimed (R.told self.old.waiting.rt.now
            self.old.waiting.timer.quiet) wait self.old.waiting.timer self.new.waiting.timer) }
        ensures got { IfOk result (IsGot (R.told self.old.waiting.rt.now
            self.new.waiting.timer.quiet) (S.quiet self.old.socket.now)
            (S.received self.old.socket.now) self.new.buffer.items self.new.waiting.timer) }
        ensures buffer { length self.new.buffer.items ≡ length self.old.buffer.items }
    {
        let begun = match wait {
            Wait::Begin(milliseconds) => self.waiting.begin(milliseconds),
            Wait::Renew => self.waiting.renew(),
            Wait::Rest => Ok(()),
        };
        if begun.is_err() {
            return Err(ReceiverFault);
        }
        match self
            .waiting
            .receive(self.socket, self.buffer.as_mut_slice())
        {
            Ok(Some((len, from))) => arrival_of(self.alloc, self.buffer.as_slice(), len, from),
            Ok(None) => Ok(Arrival::Quiet),
            Err(_) => Err(ReceiverFault),
        }
    }
}

/// Returns the datagram of this length at the front of a buffer, which came from this address.
///
/// # Errors
/// `ReceiverFault` if the address is of IPv6, the buffer is shorter, or there is no memory for it.
pub fn arrival_of(
    alloc: Global,
    buffer: &[u8],
    len: usize,
    from: SocketAddr,
) -> Result<Arrival, ReceiverFault>
    ensures { IfOk result (IsArrival buffer.now len from) }
{
    let address = Addr::of(from).ok_or(ReceiverFault)?;
    let datagram = buffer.get(..len).ok_or(ReceiverFault)?;
    match Octets::from_slice(alloc, datagram) {
        Ok(octets) => Ok(Arrival::Datagram(address, octets)),
        Err(_) => Err(ReceiverFault),
    }
}

impl<R: Ticks, S: Receives> Receiver for SocketReceiver<'_, R, S> {
    ghost use Rattle.mon_udp.specs.Counts.{failed_after};

    // What happens at a socket is not known.
    ghost log = { λ _. None };

    ghost failures = { λ r. r.failures };

    fn receive(&mut self, wait: Wait) -> Result<Arrival, ReceiverFault>
        ensures failures { self.new.failures ≡ failed_after result self.old.failures }
        // The wait begins at the time that the clock returns in this call, or is idle since then.
        ensures wait { OnOk result (IsTimed (R.told self.old.waiting.rt.now
            self.old.waiting.timer.quiet) wait self.old.waiting.timer self.new.waiting.timer) }
        // A datagram is the system's; there is none only if the wait is over.
        ensures got { IfOk result (IsGot (R.told self.old.waiting.rt.now
            self.new.waiting.timer.quiet) (S.quiet self.old.socket.now)
            (S.received self.old.socket.now) self.new.buffer.items self.new.waiting.timer) }
        ensures buffer { length self.new.buffer.items ≡ length self.old.buffer.items }
    {
        let failures = self.failures;
        let received = self.receive_in(wait);
        self.failures = failed_after(failures, &received);
        received
    }
}

/// What a station's datagrams are sent by.
pub trait Sends {
    ghost use Rattle.std.specs.Prelude.{List, ℕ, OnOk};
    ghost use Rattle.mon_udp.specs.declared.addr.Addr.{Addr as AnyAddr};

    // These octets were sent to this address. Code that is generic over what sends has this only
    // from a call of `send`.
    ghost sent: { Self → List ℕ → AnyAddr → Type 0 };

    /// Sends a datagram to this address.
    fn send(&self, octets: &[u8], to: Addr) -> io::Result<()>
        ensures { OnOk result (sent self.now octets.now to) };
}

impl Sends for Socket {
    // What happens at a socket is not known.
    ghost sent = { λ _ _ _. Unit {0} };

    fn send(&self, octets: &[u8], to: Addr) -> io::Result<()> {
        Socket::send(self, octets, to)
    }
}

/// Sends a station's datagrams by its socket.
pub struct SocketOutbox<'a, S: Sends> {
    socket: &'a S,
    addresses: Addresses,
    failures: u64,
}

// By hand: where one is let go, a proof has one call and not a drop of each field.
impl<'a, S: Sends> Drop for SocketOutbox<'a, S> {
    fn drop(self) {
        let SocketOutbox {
            socket: _,
            addresses: _,
            failures: _,
        } = self;
    }
}

impl<'a, S: Sends> SocketOutbox<'a, S> {
    /// An outbox by this socket, to these addresses.
    pub fn new(socket: &'a S, addresses: Addresses) -> Self
        ensures addresses { result.addresses ≡ addresses }
        ensures failures { result.failures ≡ 0 }
    {
        SocketOutbox {
            socket,
            addresses,
            failures: 0,
        }
    }

    /// Sends a datagram to where it goes.
    fn put(&self, out: &Outgoing) -> Result<(), OutboxFault>
        ensures nowhere { goes_to self.now.addresses out.now.to ≡ None → IsErr result }
        // What is answered as sent was sent: its octets, to where it goes.
        ensures sent { OnOk result (IsSentTo (S.sent self.now.socket.now)
            (goes_to self.now.addresses out.now.to) out.now.octets) }
    {
        let to = match out.to {
            To::Target(number) => self.addresses.target(number),
            To::Peer(station) => self.addresses.peer(station),
        };
        let Some(to) = to else {
            return Err(OutboxFault);
        };
        self.socket
            .send(out.octets.as_slice(), to)
            .map_err(|_| OutboxFault)
    }
}

impl<S: Sends> Outbox for SocketOutbox<'_, S> {
    ghost use Rattle.mon_udp.specs.Counts.{failed_after};

    // What happens at a socket is not known.
    ghost log = { λ _. None };

    ghost failures = { λ o. o.failures };

    fn send(&mut self, out: &Outgoing) -> Result<(), OutboxFault>
        ensures failures { self.new.failures ≡ failed_after result self.old.failures }
        ensures addresses { self.new.addresses ≡ self.old.addresses }
        // What has no address is not sent, and that counts as a failure.
        ensures nowhere { goes_to self.old.addresses out.now.to ≡ None → IsErr result }
        // What is answered as sent was sent: its octets, to where it goes.
        ensures sent { OnOk result (IsSentTo (S.sent self.old.socket.now)
            (goes_to self.old.addresses out.now.to) out.now.octets) }
    {
        let sent = self.put(out);
        self.failures = failed_after(self.failures, &sent);
        sent
    }
}
