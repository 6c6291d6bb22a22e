//! Laws over the definitions. Each is a function that does nothing; its clauses are the law.

ghost use Rattle.std.specs.Prelude.{◌≡◌, ◌≢◌, ◌≤◌, ◌<◌, ◌+◌, ◌*◌, ℕ, List, Ok, length};
ghost use Rattle.mon_placing.specs.Machines.{Entry, machines_in};
ghost use Rattle.mon_placing.specs.Network.{ArePlaced, IsSeat, seat_at};
ghost use Rattle.mon_placing.specs.declared.network.Network.{Network};
ghost use Rattle.mon_placing.specs.Placing.{machine_of, stations_on};

/// No two stations of a group run on one machine, if there are at least as many machines as a group
/// has stations.
pub fn apart()
    ensures { (stations machines group one other : ℕ) → stations ≤ machines → one < other
        → other < stations
        → machine_of stations machines group one ≢ machine_of stations machines group other }
{}

/// Of the groups before any one, no machine runs two stations more than another.
pub fn even()
    ensures { (stations machines groups one other : ℕ) → one < machines → other < machines
        → stations_on stations machines one groups ≤ stations_on stations machines other groups
        + 1 }
{}

/// A station runs on one of the machines.
pub fn among()
    ensures { (stations machines group station : ℕ) → 0 < machines
        → machine_of stations machines group station < machines }
{}

/// The machines that a text lists are at least one and at least as many as a group has stations,
/// and at most 1,024.
pub fn counts()
    ensures { (text : List ℕ) (stations : ℕ) (machines : List Entry)
        → machines_in text stations ≡ Ok machines
        → (1 ≤ length machines) × (stations ≤ length machines) × (length machines ≤ 1024) }
{}

/// Each place among the stations of groups whose ports can be written is one of a station.
pub fn seated()
    ensures { (network : Network) (groups place : ℕ) → ArePlaced network groups
        → place < groups * network.stations
        → IsSeat (seat_at network place) }
{}
