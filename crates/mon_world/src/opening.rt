//! Opening the stations of a world.

ghost use Rattle.std.specs.Prelude.{◌≡◌, ◌≤◌, ◌<◌, ◌++◌, ◌∷◌, [], ◌==◌, ℕ, if◌then◌else◌, IfOk, IfErr, OnOk, None, length};
ghost use Rattle.mon_station.specs.Opened.{setting_in};
ghost use Rattle.mon_world.specs.declared.fault.WorldFault.TheVariants.{BadCount};
ghost use Rattle.mon_station.specs.Found.{in_memory};
ghost use Rattle.mon_world.specs.Fault.{IsFaultOfNew, station_refusal};
ghost use Rattle.mon_world.specs.Places.{setting_at};
ghost use Rattle.mon_world.specs.Shows.{AreFirst, IsFirst};

use crate::fault::WorldFault;
use mon_config::Core;
use mon_disk::{KeeperFault, MemoryDisk};
use mon_station::{Station, StationFault};
use std::alloc::{AllocError, Global};

/// Opens each of this many stations on an empty disk.
pub(crate) fn open_all(
    alloc: Global,
    core: &Core,
    count: u32,
) -> Result<Vec<Station<MemoryDisk>>, WorldFault>
    requires { count ≤ 16 }
    ensures first { IfOk result (λ stations. AreFirst core.now count stations.items) }
    ensures count { IfOk result (λ stations. length stations.items ≡ count) }
    ensures fault { IfErr result (IsFaultOfNew count) }
    ensures counted { IfErr result (λ fault. fault ≡ BadCount → ⊥) }
{
    let mut stations = Vec::new(alloc);
    for number in 1..count + 1 {
        stations.push(open_first(alloc, core, count, number)?)?;
    }
    Ok(stations)
}

/// Opens one of this many stations on an empty disk.
fn open_first(
    alloc: Global,
    core: &Core,
    count: u32,
    number: u32,
) -> Result<Station<MemoryDisk>, WorldFault>
    requires few { count ≤ 16 }
    requires first { 1 ≤ number }
    requires last { number ≤ count }
    ensures opened { IfOk result (λ s. IsFirst core.now count number s) }
    ensures fault { IfErr result (IsFaultOfNew count) }
    ensures counted { IfErr result (λ fault. fault ≡ BadCount → ⊥) }
{
    mon_disk::laws::never_saved();
    let core = core_at(alloc, core, count, number)?;
    let disk = MemoryDisk::new(alloc, &[])?;
    match Station::open(alloc, core, disk) {
        Ok(station) => Ok(station),
        Err((fault, _)) => Err(opening_fault(fault)),
    }
}

/// Returns the fault of an opening as the world's. A disk in memory only fails if memory runs out.
pub(crate) fn opening_fault(fault: StationFault) -> WorldFault
    ensures { result ≡ station_refusal (in_memory fault) }
{
    match fault {
        StationFault::Keeper(KeeperFault::DiskFault) => WorldFault::OutOfMemory,
        other => WorldFault::from(other),
    }
}

/// Returns what one of this many stations is set up with: its peers are all others.
pub(crate) fn core_at(
    alloc: Global,
    core: &Core,
    count: u32,
    number: u32,
) -> Result<Core, AllocError>
    requires few { count ≤ 16 }
    requires first { 1 ≤ number }
    requires last { number ≤ count }
    ensures { IfOk result (λ one. setting_in one ≡ setting_at core.now count number) }
{
    let mut peers = Vec::new(alloc);
    for peer in 1..count + 1 {
        push_other(&mut peers, number, peer)?;
    }
    core.with(alloc, number, &peers)
}

/// Appends a number that is not this one.
fn push_other(peers: &mut Vec<u32>, number: u32, peer: u32) -> Result<(), AllocError>
    ensures { OnOk result (peers.new.items ≡ (if peer == number then peers.old.items
        else peers.old.items ++ peer ∷ [])) }
{
    if peer != number {
        peers.push(peer)?;
    }
    Ok(())
}
