//! The peers of a station.

ghost use Rattle.std.specs.Prelude.{◌≡◌, ◌≢◌, ◌↔◌, All, AllPairs, Any, IfOk, IsTrue, map};
ghost use Rattle.mon_settings.specs.Keys.{Reads};
ghost use Rattle.mon_settings.specs.Station.{are_apart, checked_peers, peers_at};
ghost use Rattle.mon_config.specs.StationCore.{ArePeersOf};
ghost use Rattle.std.specs.List.{list_any};
ghost use Rattle.mon_udp.specs.Addr.{same_addr};
ghost use Rattle.toml.specs.View.{table_view};

use crate::fault::{Read, SettingsFault, given};
use crate::key::Key;
use crate::leaf::Reader;
use crate::station_tables::{PeerRow, TargetRow};
use mon_udp::Addr;
use std::alloc::{AllocError, Global};

/// The most peers of a station.
const MAX_PEERS: usize = 15;

/// Returns `true` if these may be the peers of this station: at most 15 others, none twice.
pub fn are_peers(own: u32, numbers: &[u32]) -> bool
    ensures { IsTrue result ↔ ArePeersOf own numbers.now }
{
    numbers.len() <= MAX_PEERS && are_others(own, numbers) && differ(numbers)
}

fn are_others(own: u32, numbers: &[u32]) -> bool
    ensures { IsTrue result ↔ All (λ number. number ≢ own) numbers.now }
{
    numbers.iter().all(|number| *number != own)
}

fn stands_in(numbers: &[u32], own: u32) -> bool
    ensures { IsTrue result ↔ Any (λ number. number ≡ own) numbers.now }
{
    numbers.iter().any(|number| *number == own)
}

fn differ(numbers: &[u32]) -> bool
    ensures { IsTrue result ↔ AllPairs (λ a b. a ≢ b) numbers.now }
{
    for i in 0..numbers.len() {
        if stands_in(&numbers[..i], numbers[i]) {
            return false;
        }
    }
    true
}

/// Returns `true` if some target is asked at this address.
fn has_address(targets: &[TargetRow], address: Addr) -> bool
    ensures { result ≡ list_any (λ t. same_addr t.address address) targets.now }
{
    targets.iter().any(|target| target.address == address)
}

/// Returns `true` if no target is asked at a peer's address.
fn are_apart(targets: &[TargetRow], peers: &[PeerRow]) -> bool
    ensures { result ≡ are_apart targets.now peers.now }
{
    peers.iter().all(|peer| !has_address(targets, peer.address))
}

/// The numbers of peers, in their order.
pub(crate) fn stations_of(alloc: Global, peers: &[PeerRow]) -> Result<Vec<u32>, AllocError>
    ensures { IfOk result (λ v. v.items ≡ map (λ p. p.station) peers.now) }
{
    peers.iter().map(|peer| peer.station).collect(alloc)
}

/// The addresses of peers, in their order.
pub(crate) fn addresses_of(alloc: Global, peers: &[PeerRow]) -> Result<Vec<Addr>, AllocError>
    ensures { IfOk result (λ v. v.items ≡ map (λ p. p.address) peers.now) }
{
    peers.iter().map(|peer| peer.address).collect(alloc)
}

fn checked_peers(
    alloc: Global,
    own: u32,
    targets: &[TargetRow],
    peers: Vec<PeerRow>,
) -> Read<Vec<PeerRow>>
    ensures gives { Reads (λ v. v.items) (checked_peers own targets.now peers.items) result }
    ensures others { IfOk result (λ v. ArePeersOf own (map (λ p. p.station) v.items)) }
{
    let numbers = stations_of(alloc, peers.as_slice())?;
    if !are_peers(own, numbers.as_slice()) {
        return Err(SettingsFault::bad(Key::Peer));
    }
    if !are_apart(targets, peers.as_slice()) {
        return Err(SettingsFault::bad(Key::Peer));
    }
    Ok(peers)
}

/// The peers: at most 15 other stations, none twice, and none at the address of a target.
#[tactic(auto, unfolding(crate::specs::Station::peers_at))]
pub(crate) fn peers_at(reader: &Reader<'_>, own: u32, targets: &[TargetRow]) -> Read<Vec<PeerRow>>
    ensures gives { Reads (λ v. v.items) (peers_at own targets.now
        (table_view reader.now.table.now)) result }
    ensures others { IfOk result (λ v. ArePeersOf own (map (λ p. p.station) v.items)) }
{
    let peers = given!(reader.rows_or_none(&(), Key::Peer, MAX_PEERS));
    checked_peers(reader.alloc, own, targets, peers)
}
