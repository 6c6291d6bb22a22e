//! On which machine a station runs.

ghost use Rattle.std.specs.Prelude.{◌≡◌, ◌<◌};
ghost use Rattle.mon_placing.specs.Placing.{machine_of};

/// Returns on which of these machines a station of a group runs. Machines, groups and stations are
/// counted from 0, groups over the whole network, and each group has `stations` stations.
#[tactic(auto, unfolding(crate::specs::Placing::machine_of))]
pub fn machine_of(stations: u32, machines: u32, group: u32, station: u32) -> u32
    requires { 0 < machines }
    ensures { result ≡ machine_of stations machines group station }
{
    let before = u64::from(group) * u64::from(stations) + u64::from(station);
    (before % u64::from(machines)) as u32
}
