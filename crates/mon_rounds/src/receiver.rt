//! What a station receives datagrams by.

use mon_ber::Octets;
use mon_udp::Addr;
use thiserror::Error;

/// Which wait a reception is part of. A wait is over when it was idle for its length, and at the
/// latest four times its length after it started.
#[derive(Clone, Copy)]
pub enum Wait {
    /// One that begins now and lasts this many milliseconds.
    Begin(u32),
    /// The last one, idle since now.
    Renew,
    /// The rest of the last one.
    Rest,
}

/// What a reception gave.
#[derive(Drop)]
pub enum Arrival {
    /// A datagram, and where it came from.
    Datagram(Addr, Octets),
    /// Nothing: the wait is over.
    Quiet,
}

/// A receiver could not receive, or had no memory for a datagram; it has counted that.
#[derive(Clone, Copy, Debug, PartialEq, Eq, Error)]
#[error("nothing could be received")]
pub struct ReceiverFault;

/// What a station receives datagrams by.
pub trait Receiver {
    ghost use Rattle.std.specs.Prelude.{◌≡◌, ℕ, List, Option};
    ghost use Rattle.mon_udp.specs.Counts.{failed_after};
    ghost use Rattle.mon_udp.specs.Told.{extended};
    ghost use Rattle.mon_rounds.specs.Reception.{Reception, reception};

    // All receptions in order, if it states them.
    ghost log: { Self → Option (List Reception) };

    // How often it failed, at most 2^64 - 1.
    ghost failures: { Self → ℕ };

    /// Waits for a datagram.
    fn receive(&mut self, wait: Wait) -> Result<Arrival, ReceiverFault>
        ensures log { log self.new ≡ extended (log self.old) (reception wait result) }
        ensures failures { failures self.new ≡ failed_after result (failures self.old) };
}
