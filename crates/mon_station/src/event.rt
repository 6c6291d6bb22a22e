//! What a station is given, and what it reports.

ghost use Rattle.std.specs.Prelude.{◌≡◌};

use mon_ber::Octets;
use mon_board::InstanceSamples;
use mon_exchange::Noted;
use mon_udp::Addr;

/// What a station is handed: of an agent's datagram a `D`, and of a peer's a `P`.
#[derive(Clone, Copy, Drop)]
pub enum Event<D, P> {
    /// To poll the target of this number.
    StartPoll(u16),
    /// The poll of this request-id was not answered in time.
    Timeout(u32),
    /// A datagram came from an agent's address.
    FromAgent(Addr, D),
    /// A datagram came from a peer.
    FromPeer(P),
    /// To offer the peer of this station number what it is owed.
    Share(u32),
    /// To save the windows and the incarnation.
    Save,
}

/// An event whose datagram is lent: what a station handles.
pub type LentEvent<'a> = Event<&'a [u8], &'a [u8]>;

/// An event with its own datagram: what a source returns.
pub type OwnedEvent = Event<Octets, Octets>;

impl OwnedEvent {
    ghost use Rattle.mon_station.specs.ReadEvent.{owned};

    /// The event, with its datagram lent.
    pub fn lend(&self) -> LentEvent<'_>
        ensures { owned result ≡ self.now }
    {
        match self {
            Event::StartPoll(target) => Event::StartPoll(*target),
            Event::Timeout(id) => Event::Timeout(*id),
            Event::FromAgent(from, octets) => Event::FromAgent(*from, octets.as_slice()),
            Event::FromPeer(octets) => Event::FromPeer(octets.as_slice()),
            Event::Share(peer) => Event::Share(*peer),
            Event::Save => Event::Save,
        }
    }
}

/// Where a datagram goes.
#[derive(Clone, Copy, Debug)]
pub enum To {
    /// To the target of this number.
    Target(u16),
    /// To the peer of this station number.
    Peer(u32),
}

/// A datagram to send.
#[derive(Debug, Drop)]
pub struct Outgoing {
    /// Where it goes.
    pub to: To,
    /// Its octets.
    pub octets: Octets,
}

/// Whose poll a response answered, and when the response was made.
#[derive(Clone, Copy, Debug, PartialEq, Eq)]
pub struct TargetStamp {
    /// The number of the target whose poll it answered.
    pub target: u16,
    /// The agent's snmpEngineBoots (RFC 3411 section 5), below 2^31.
    pub boots: u32,
    /// The agent's snmpEngineTime, in seconds, below 2^31.
    pub time: u32,
}

/// What a station reports of an event that it did not refuse.
#[derive(Drop)]
pub struct Told {
    /// The samples that were offered, each with the number of its instance: in the order of the
    /// target's objects, or of the claim.
    pub taken: InstanceSamples,
    /// What it sends, in this order.
    pub sends: Vec<Outgoing>,
    /// What became of a peer's claim.
    pub noted: Option<Noted>,
    /// The target that gave up, at a timeout after its last try.
    pub given_up: Option<u16>,
    /// The target whose poll was answered, and the stamp, if a response was taken.
    pub answered: Option<TargetStamp>,
}
