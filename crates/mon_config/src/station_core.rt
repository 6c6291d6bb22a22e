//! What the stations of one watch share, with a station's own number and those of its peers.

ghost use Rattle.std.specs.Prelude.{◌≡◌, ◌≤◌, ◌<◌, All, IfOk, length};
ghost use Rattle.mon_board.specs.Watch.{IsWatch};
ghost use Rattle.mon_poller.specs.Target.{AreTargets};
ghost use Rattle.mon_config.specs.StationCore.{AreInstancesOf, ArePeersOf};

use mon_board::Watch;
use mon_poller::Target;
use std::alloc::{AllocError, Global};
use std::marker::Model;

/// What a station needs to know of itself and the world: its number, the watch, the agents that it
/// polls and its peers. In every core the targets are within the poller's limits, their objects are
/// instances of the watch, and the peers are at most 15 other stations, none twice.
pub struct Core {
    station: u32,
    watch: Watch,
    targets: Vec<Target>,
    peers: Vec<u32>,
}

// By hand: where one is let go, a proof has one call and not a drop of each field.
impl Drop for Core {
    fn drop(self) {
        let Core {
            station: _,
            watch: _,
            targets: _,
            peers: _,
        } = self;
    }
}

impl Model for Core {
    ghost use Rattle.mon_config.specs.StationCore.{Core, IsCore, core_code};

    ghost Value = { Core };

    ghost coded = { core_code };

    ghost view = { λ c. record {
      station = c.station;
      watch = c.watch;
      targets = c.targets.items;
      peers = c.peers.items;
    } };

    ghost invariant = { λ c. IsCore (record {
      station = c.station;
      watch = c.watch;
      targets =
          c.targets.items;
      peers = c.peers.items;
    }) };
}

/// The parts of a core, to be moved.
#[derive(Drop)]
pub struct CoreParts {
    /// The station's number, 1 to 4294967295.
    pub station: u32,
    /// What is watched.
    pub watch: Watch,
    /// The agents that are polled. A target's number is its place, from 0.
    pub targets: Vec<Target>,
    /// The numbers of the peers. A peer's slot is its place, from 0.
    pub peers: Vec<u32>,
}

impl Core {
    ghost use Rattle.mon_config.specs.StationCore.{Core as AnyCore, IsCore};

    /// Returns the core of these parts.
    pub fn new(station: u32, watch: Watch, targets: Vec<Target>, peers: Vec<u32>) -> Self
        requires { (let c : AnyCore = record {
          station = station;
          watch = watch;
          targets =
              targets.items;
          peers = peers.items;
        } in IsCore c) }
        ensures { result ≡ record {
          station = station;
          watch = watch;
          targets = targets.items;
          peers
              = peers.items;
        } }
    {
        Core {
            station,
            watch,
            targets,
            peers,
        }
    }

    /// The station's number, 1 to 4294967295.
    pub fn station(&self) -> u32
        ensures station { result ≡ self.now.station }
        ensures positive { 1 ≤ result }
    {
        self.station
    }

    /// What is watched.
    pub fn watch(&self) -> &Watch
        ensures watch { result.now ≡ self.now.watch }
        ensures whole { IsWatch self.now.watch }
    {
        &self.watch
    }

    /// The agents that are polled, 1 to 64. A target's number is its place, from 0.
    pub fn targets(&self) -> &[Target]
        ensures targets { result.now ≡ self.now.targets }
        // They are within the poller's limits, and each of their objects is the instance of its
        // number.
        ensures limited { AreTargets self.now.targets }
        ensures watched { AreInstancesOf self.now.watch self.now.targets }
        ensures numbered { All (λ t. All (λ o. o.instance < length self.now.watch.instances)
            t.objects) self.now.targets }
    {
        self.targets.as_slice()
    }

    /// The numbers of the peers, at most 15. A peer's slot is its place, from 0.
    pub fn peers(&self) -> &[u32]
        ensures peers { result.now ≡ self.now.peers }
        ensures others { ArePeersOf self.now.station self.now.peers }
    {
        self.peers.as_slice()
    }

    /// The parts, with what holds of them in every core.
    pub fn into_parts(self) -> CoreParts
        ensures station { result.station ≡ self.station }
        ensures watch { result.watch ≡ self.watch }
        ensures targets { result.targets.items ≡ self.targets }
        ensures peers { result.peers.items ≡ self.peers }
        ensures whole { IsCore self }
        ensures numbered { All (λ t. All (λ o. o.instance < length self.watch.instances) t.objects)
            self.targets }
    {
        let Core {
            station,
            watch,
            targets,
            peers,
        } = self;
        CoreParts {
            station,
            watch,
            targets,
            peers,
        }
    }

    /// An equal core.
    pub fn try_clone(&self, alloc: Global) -> Result<Self, AllocError>
        ensures { IfOk result (λ c. c ≡ self.now) }
    {
        self.with(alloc, self.station(), self.peers())
    }

    /// Returns the core of another station, not 0, with these peers: at most 15 others, none twice.
    pub fn with(&self, alloc: Global, station: u32, peers: &[u32]) -> Result<Self, AllocError>
        requires station { 1 ≤ station }
        requires peers { ArePeersOf station peers.now }
        ensures { IfOk result (λ c. c ≡ record self.now { station = station; peers = peers.now }) }
    {
        let watch = self.watch.try_clone(alloc)?;
        let targets = copy_targets(alloc, self.targets.as_slice())?;
        let peers = numbers(alloc, peers)?;
        Ok(Core {
            station,
            watch,
            targets,
            peers,
        })
    }
}

/// Equal targets, in this order.
fn copy_targets(alloc: Global, all: &[Target]) -> Result<Vec<Target>, AllocError>
    ensures { IfOk result (λ v. v.items ≡ all.now) }
{
    let mut copies = Vec::with_capacity(alloc, all.len())?;
    for target in all {
        copies.push(target.try_clone(alloc)?)?;
    }
    Ok(copies)
}

/// Copies these numbers.
fn numbers(alloc: Global, all: &[u32]) -> Result<Vec<u32>, AllocError>
    ensures { IfOk result (λ v. v.items ≡ all.now) }
{
    all.to_vec(alloc)
}
