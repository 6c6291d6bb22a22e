//! What stations send one another.

ghost use Rattle.std.specs.Prelude.{◌≡◌, ◌≤◌, ◌<◌, ◌+◌, ◌^◌, ◌++◌, length, map, vec_len, vec_capacity};
ghost use Rattle.mon_world.specs.Sending.{to_peers};

use mon_ber::Octets;
use mon_station::{Outgoing, To};

/// Octets that were sent to a station.
#[derive(Debug, Drop)]
pub struct Datagram {
    /// The number of the station.
    pub to: u32,
    /// The octets.
    pub octets: Octets,
}

/// The numbers of the datagrams that a step sent between stations. The number after the last one is
/// below 2^64 too.
#[derive(Clone, Copy, Debug, PartialEq, Eq)]
pub struct Sent {
    /// The number of the first; where none was sent, the next one's.
    pub first: u64,
    /// How many were sent.
    pub count: u64,
    ghost numbered: { first + count < 2 ^ 64 },
}

/// Appends what goes to peers, in order. It allocates nothing.
pub(crate) fn append(sent: &mut Vec<Datagram>, sends: Vec<Outgoing>) -> Sent
    requires room { vec_len sent.old + length sends.items ≤ vec_capacity sent.old }
    ensures appended { sent.new.items ≡ sent.old.items ++ to_peers sends.items }
    ensures first { result.first ≡ length sent.old.items + 1 }
    ensures count { length sent.old.items + result.count ≡ length sent.new.items }
{
    let before = sent.len();
    for send in sends {
        if let To::Peer(to) = send.to {
            sent.push_reserved(Datagram {
                to,
                octets: send.octets,
            });
        }
    }
    sent_between(before, sent.len())
}

/// Returns the numbers of what was sent after the datagrams before it.
pub(crate) fn sent_between(before: usize, now: usize) -> Sent
    requires more { before ≤ now }
    requires small { now < 2 ^ 63 }
    ensures first { result.first ≡ before + 1 }
    ensures count { before + result.count ≡ now }
{
    Sent {
        first: before as u64 + 1,
        count: (now - before) as u64,
    }
}

/// Returns that nothing is sent after these datagrams.
pub(crate) fn none_after(sent: &[Datagram]) -> Sent
    ensures first { result.first ≡ length sent.now + 1 }
    ensures count { result.count ≡ 0 }
{
    sent_between(sent.len(), sent.len())
}
