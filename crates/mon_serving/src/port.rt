//! A port that an agent listens at.

use mon_app::SocketFault;
use mon_mib::Moment;

/// A datagram that was received.
#[derive(Clone, Copy, Debug, PartialEq, Eq)]
pub struct Received {
    /// How many octets it has, at the front of the buffer.
    pub len: usize,
    /// When it came, in the life of the agent.
    pub moment: Moment,
}

/// A port that an agent listens at.
pub trait Port {
    ghost use Rattle.std.specs.Prelude.{◌≡◌, ◌≤◌, ℕ, List, Option, length, IfOk};
    ghost use Rattle.mon_udp.specs.Counts.{failed_after};
    ghost use Rattle.mon_udp.specs.Told.{extended};
    ghost use Rattle.mon_serving.specs.AtPort.{AtPort, Happens, IsReplied, receiving};

    // What happened at it, in order, if the port states that.
    ghost log: { Self → Option (List AtPort) };

    // How often it failed, at most 2^64 - 1.
    ghost failures: { Self → ℕ };

    /// Waits for a datagram, which is put into the buffer.
    fn receive(&mut self, room: &mut [u8]) -> Result<Received, SocketFault>
        ensures log { log self.new ≡ extended (log self.old) (receiving room.new result) }
        ensures failures { failures self.new ≡ failed_after result (failures self.old) }
        ensures room { length room.new ≡ length room.old }
        ensures within { IfOk result (λ received. received.len ≤ length room.new) };

    /// Sends a datagram to where the last one came from. One that cannot be sent is lost.
    fn reply(&mut self, octets: &[u8])
        ensures { Happens (IsReplied octets.now) (log self.old) (log self.new) (failures self.old)
            (failures self.new) };
}
