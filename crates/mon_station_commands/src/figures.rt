//! What a running station says of itself.

ghost use Rattle.std.specs.Prelude.{◌≡◌, IfOk, is_some, length, map, option_map};
ghost use Rattle.mon_station.specs.State.{state_of};
ghost use Rattle.mon_station_commands.specs.Notifying.{dropped_of};
ghost use Rattle.mon_station_commands.specs.Figures.{AreFigures, engine_at, engine_in, engines_for, peer_of, said_in, said_of};

use crate::live::Live;
use crate::notifying::dropped_in;
use mon_formats::{Figures, PeerFigures, TargetFigures};
use mon_rounds::{InstanceAge, PeerAge, Receiver, TargetAge, debts_of};
use mon_station::{Outbox, StationFault};
use std::alloc::{AllocError, Global};

/// What a station says of itself.
pub(crate) fn make_figures<S: Receiver + Drop, O: Outbox + Drop>(
    alloc: Global,
    live: &Live<S, O>,
) -> Result<Figures, AllocError>
    ensures figures { IfOk result (AreFigures (state_of live.now.station.life) live.now.course
        live.now.freshness live.now.transport.peers.items live.now.transport.engines.items
        live.now.ended live.now.kept.round_at live.now.reports) }
    ensures dropped { IfOk result (λ figures. figures.notifications_dropped
        ≡ option_map dropped_of live.now.courier) }
{
    let fresh = &live.freshness;
    let engines = live.transport.engines.as_slice();
    Ok(Figures {
        station: live.reports.station,
        round_at: live.kept.round_at,
        incarnation: live.station.incarnation(),
        taken: live.course.taken(),
        given_up: live.course.given_up(),
        debts: debts_of(alloc, &live.station, live.transport.peers.as_slice())?,
        peers: peer_figures(alloc, fresh.peers(), live.reports.stale_after)?,
        failed_saves: fresh.failed_saves(),
        strangers: fresh.strangers(),
        round_ms: fresh.round_ms(),
        overruns: fresh.overruns(),
        targets: target_figures(alloc, fresh.targets(), engines, live.ended)?,
        ages: ages_of(alloc, fresh.instances())?,
        stale_after: live.reports.stale_after,
        interval: live.reports.interval,
        notifications_dropped: dropped_in(&live.courier),
    })
}

/// What is said of each peer, which is silent after this many rounds without a datagram.
fn peer_figures(
    alloc: Global,
    peers: &[PeerAge],
    limit: u32,
) -> Result<Vec<PeerFigures>, AllocError>
    ensures { IfOk result (λ v. v.items ≡ map (peer_of limit) peers.now) }
{
    let mut figures = Vec::with_capacity(alloc, peers.len())?;
    for peer in peers {
        figures.push(one_peer(peer, limit))?;
    }
    Ok(figures)
}

/// What is said of a peer.
fn one_peer(peer: &PeerAge, limit: u32) -> PeerFigures
    ensures { result ≡ peer_of limit peer.now }
{
    PeerFigures {
        station: peer.station,
        rounds: peer.rounds,
        silent: peer.rounds >= limit,
    }
}

/// What is said of each target at this time, in milliseconds since the station's start.
fn target_figures(
    alloc: Global,
    targets: &[TargetAge],
    engines: &[Vec<u8>],
    now: u64,
) -> Result<Vec<TargetFigures>, AllocError>
    ensures said { IfOk result (λ v. map said_in v.items ≡ map (said_of now) targets.now) }
    ensures engines { IfOk result (λ v. map engine_in v.items
        ≡ engines_for (length targets.now) engines.now) }
{
    let mut figures = Vec::with_capacity(alloc, targets.len())?;
    for place in 0..targets.len() {
        let engine = engine_at(engines, place);
        figures.push(one_target(alloc, &targets[place], engine, now)?)?;
    }
    Ok(figures)
}

/// The engine id at this place; none if the list is shorter.
fn engine_at(engines: &[Vec<u8>], place: usize) -> &[u8]
    ensures { result.now ≡ engine_at engines.now place }
{
    match engines.get(place) {
        Some(engine) => engine.as_slice(),
        None => &[],
    }
}

/// What is said of a target.
fn one_target(
    alloc: Global,
    target: &TargetAge,
    engine: &[u8],
    now: u64,
) -> Result<TargetFigures, AllocError>
    ensures said { IfOk result (λ t. said_in t ≡ said_of now target.now) }
    ensures engine { IfOk result (λ t. t.engine.items ≡ engine.now) }
{
    Ok(TargetFigures {
        number: u32::from(target.number) + 1,
        address: format!(in alloc; "{}", target.address)?,
        engine: Vec::from_slice(alloc, engine)?,
        up: target.up,
        rounds: target.rounds,
        seconds: target.seconds(now),
        given_up: target.given_up,
        refusal: refusal_text(alloc, target.refusal)?,
    })
}

/// Why a response was refused, in words.
fn refusal_text(alloc: Global, refusal: Option<StationFault>) -> Result<Option<String>, AllocError>
    ensures { IfOk result (λ text. is_some text ≡ is_some refusal) }
{
    match refusal {
        Some(fault) => Ok(Some(format!(in alloc; "{fault}")?)),
        None => Ok(None),
    }
}

/// In how many rounds each instance had no new sample.
fn ages_of(alloc: Global, instances: &[InstanceAge]) -> Result<Vec<u32>, AllocError>
    ensures { IfOk result (λ v. v.items ≡ map (λ (i : InstanceAge). i.rounds) instances.now) }
{
    let mut ages = Vec::with_capacity(alloc, instances.len())?;
    for instance in instances {
        ages.push(instance.rounds)?;
    }
    Ok(ages)
}
