//! A wire to one agent: what is sent to it, and what is received from it.

use mon_app::SocketFault;

/// What a wire received.
#[derive(Clone, Copy)]
pub enum Heard {
    /// A datagram of the agent's, of this many octets at the front of the buffer.
    Datagram(usize),
    /// Something else, as a datagram from another address; the wait goes on.
    Other,
    /// Nothing more: the wait after the last sending is over.
    Quiet,
}

/// A wire to one agent. Each sending begins a wait, and what comes is received in the rest of it.
pub trait Wire {
    ghost use Rattle.std.specs.Prelude.{◌≡◌, ◌≤◌, ℕ, List, Option, length, IfOk};
    ghost use Rattle.mon_udp.specs.Counts.{failed_after};
    ghost use Rattle.mon_udp.specs.Told.{extended};
    ghost use Rattle.mon_client.specs.AtWire.{AtWire, FitsRoom, hearing, sending};

    // What happened at it, in order, if the wire states that.
    ghost log: { Self → Option (List AtWire) };

    // How often it failed, at most 2^64 - 1.
    ghost failures: { Self → ℕ };

    /// Sends a datagram to the agent.
    fn send(&mut self, octets: &[u8]) -> Result<(), SocketFault>
        ensures log { log self.new ≡ extended (log self.old) (sending octets.now result) }
        ensures failures { failures self.new ≡ failed_after result (failures self.old) };

    /// Waits for a datagram, which is put into the buffer.
    fn receive(&mut self, room: &mut [u8]) -> Result<Heard, SocketFault>
        ensures log { log self.new ≡ extended (log self.old) (hearing room.new result) }
        ensures failures { failures self.new ≡ failed_after result (failures self.old) }
        ensures within { IfOk result (FitsRoom (length room.new)) };
}
