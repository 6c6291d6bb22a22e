//! Where a station's targets and peers are reached.

ghost use Rattle.std.specs.Prelude.{◌≡◌, ◌≤◌, ◌==◌, IfOk, length, map, slice_get};
ghost use Rattle.std.specs.List.{position};
ghost use Rattle.mon_rounds.specs.Reached.{peer_address};
ghost use Rattle.mon_rounds.specs.Kept.{count_at};
ghost use Rattle.mon_rounds.specs.Next.{stands_in};

use mon_config::Core;
use mon_poller::Target;
use mon_udp::Addr;
use std::alloc::{AllocError, Global};

/// Where a station's targets and peers are reached. Two targets, or two peers, may have one
/// address.
pub struct Addresses {
    /// The targets' addresses. A target's number is its place.
    pub(crate) targets: Vec<Addr>,
    /// The peers' station numbers. A peer's slot is its place.
    pub(crate) peers: Vec<u32>,
    /// The peers' addresses, in the same order.
    pub(crate) peer_addresses: Vec<Addr>,
    ghost few_targets: { length targets.items ≤ 64 },
    ghost few_peers: { length peers.items ≤ 15 },
}

// By hand: where one is let go, a proof has one call and not a drop of each field.
impl Drop for Addresses {
    fn drop(self) {
        let Addresses {
            targets: _,
            peers: _,
            peer_addresses: _,
        } = self;
    }
}

impl Addresses {
    /// Returns the addresses of a core's targets and, in the order of its peers, those of the
    /// peers.
    pub fn of(alloc: Global, core: &Core, peers: &[Addr]) -> Result<Self, AllocError>
        ensures targets { IfOk result (λ a. a.targets.items
            ≡ map (λ t. t.address) core.now.targets) }
        ensures peers { IfOk result (λ a. a.peers.items ≡ core.now.peers) }
        ensures peer_addresses { IfOk result (λ a. a.peer_addresses.items ≡ peers.now) }
    {
        Ok(Addresses {
            targets: target_addresses(alloc, core.targets())?,
            peers: core.peers().to_vec(alloc)?,
            peer_addresses: peers.to_vec(alloc)?,
        })
    }

    /// The address of the target of this number.
    pub fn target(&self, number: u16) -> Option<Addr>
        ensures { result ≡ slice_get self.now.targets.items number }
    {
        self.targets.as_slice().get(usize::from(number)).copied()
    }

    /// The station number of the peer of this slot.
    pub(crate) fn peer_at(&self, slot: u16) -> Option<u32>
        ensures { result ≡ slice_get self.now.peers.items slot }
    {
        self.peers.as_slice().get(usize::from(slot)).copied()
    }

    /// The address of the peer of this station number.
    pub fn peer(&self, station: u32) -> Option<Addr>
        ensures { result ≡ peer_address self.now.peers.items self.now.peer_addresses.items station }
    {
        match place_of(self.peers.as_slice(), station) {
            Some(place) => self.peer_addresses.as_slice().get(place).copied(),
            None => None,
        }
    }

    /// Returns `true` if a target has this address.
    pub fn is_target(&self, from: Addr) -> bool
        ensures { result ≡ stands_in self.now.targets.items from }
    {
        stands_in(self.targets.as_slice(), from)
    }

    /// Returns how many targets have this address.
    pub fn targets_at(&self, from: Addr) -> usize
        ensures { result ≡ count_at self.now.targets.items from }
    {
        self.targets
            .as_slice()
            .iter()
            .filter(|address| **address == from)
            .count()
    }

    /// Returns `true` if a peer has this address.
    pub fn is_peer(&self, from: Addr) -> bool
        ensures { result ≡ stands_in self.now.peer_addresses.items from }
    {
        stands_in(self.peer_addresses.as_slice(), from)
    }
}

/// The addresses of targets, in their order.
fn target_addresses(alloc: Global, targets: &[Target]) -> Result<Vec<Addr>, AllocError>
    ensures { IfOk result (λ v. v.items ≡ map (λ t. t.address) targets.now) }
{
    let mut addresses = Vec::with_capacity(alloc, targets.len())?;
    for target in targets {
        addresses.push(target.address)?;
    }
    Ok(addresses)
}

/// The first place of a number.
fn place_of(numbers: &[u32], station: u32) -> Option<usize>
    ensures { result ≡ position (λ number. number == station) numbers.now }
{
    numbers.iter().position(|number| *number == station)
}

/// Returns `true` if an address is one of these.
fn stands_in(addresses: &[Addr], from: Addr) -> bool
    ensures { result ≡ stands_in addresses.now from }
{
    addresses.iter().any(|address| *address == from)
}
