//! The stations of a network: where each runs, listens and serves, and what it is called.

ghost use Rattle.std.specs.Prelude.{◌≡◌, ◌<◌, ◌≤◌, ◌+◌, ◌^◌, ◌++◌, IfOk, OnOk, string_bytes};
ghost use Rattle.mon_placing.specs.Machines.{listed};
ghost use Rattle.mon_placing.specs.Network.{IsSeat, listens, machine_at, number_of, seat_at, seat_file, seat_path, serves};

use crate::machines::Machine;
use crate::placing::machine_of;
use mon_udp::Addr;
use std::alloc::{AllocError, Global};

/// The port at which the stations of a group serve HTTP is this one and the group's number.
const HTTP_PORT: u32 = 9_700;

/// The groups of stations of an agent, which go on after those of other agents.
#[derive(Clone, Copy)]
pub struct Network<'n> {
    /// The machines that stations run on.
    pub machines: &'n [Machine],
    /// How many stations a group has.
    pub stations: u32,
    /// The number of the agent's first group. The first group of the network is group 1.
    pub first: u32,
    /// The port at which the stations of group 1 listen.
    pub port: u16,
}

/// A station of a network.
#[derive(Clone, Copy)]
pub struct Seat<'n> {
    /// The network.
    pub network: Network<'n>,
    /// How many of the agent's groups come before the station's.
    pub part: u32,
    /// Its place in the group, counted from 0.
    pub station: u32,
}

impl<'n> Network<'n> {
    /// Returns the station of this place, when the stations are counted group by group, from 0.
    pub fn seat(self, place: usize) -> Seat<'n>
        requires few { self.stations ≤ 16 }
        requires some { 1 ≤ self.stations }
        requires small { place < 2 ^ 32 }
        ensures { result ≡ seat_at self.entry place }
    {
        let stations = self.stations as usize;
        Seat {
            network: self,
            part: (place / stations) as u32,
            station: (place % stations) as u32,
        }
    }
}

impl<'n> Seat<'n> {
    /// Returns the number of the station's group, counted from 1 over the whole network.
    pub fn number(self) -> u32
        requires { IsSeat self }
        ensures { result ≡ number_of self.entry }
    {
        self.network.first + self.part
    }

    /// Returns the machine that the station runs on.
    pub fn machine(self) -> &'n Machine
        requires { IsSeat self }
        ensures { listed result.now ≡ machine_at self.entry }
    {
        let machines = self.network.machines;
        let group = self.network.first - 1 + self.part;
        let place = machine_of(
            self.network.stations,
            machines.len() as u32,
            group,
            self.station,
        );
        &machines[place as usize]
    }

    /// Returns the address at which the station listens.
    pub fn listens(self) -> Addr
        requires { IsSeat self }
        ensures { result ≡ listens self.entry }
    {
        let port = u32::from(self.network.port) + self.network.first - 1 + self.part;
        at(self.machine(), port)
    }

    /// Returns the address at which the station serves HTTP.
    pub fn serves(self) -> Addr
        requires { IsSeat self }
        ensures { result ≡ serves self.entry }
    {
        at(self.machine(), HTTP_PORT + self.number())
    }
}

/// Returns an address on a machine.
fn at(machine: &Machine, port: u32) -> Addr
    requires { port < 65536 }
    ensures octets { result.octets ≡ machine.now.octets }
    ensures port { result.port ≡ port }
{
    let octets = machine.octets;
    Addr {
        octets,
        port: port as u16,
    }
}

/// Returns the path of a station's settings in a folder.
///
/// # Errors
/// `AllocError` if there is no memory for it.
pub fn seat_path(alloc: Global, folder: &str, seat: Seat<'_>) -> Result<String, AllocError>
    requires { IsSeat seat }
    ensures { IfOk result (λ path. string_bytes path ≡ seat_path folder.now seat.entry) }
{
    let group = seat.number();
    let station = seat.station + 1;
    format!(in alloc; "{folder}/group-{group}-station-{station}.toml")
}

/// Appends the name of a station's own file, by this name before it.
///
/// # Errors
/// `AllocError` if there is no memory for it.
pub fn put_file(text: &mut String, file: &str, seat: Seat<'_>) -> Result<(), AllocError>
    requires { IsSeat seat }
    ensures { OnOk result (string_bytes text.new ≡ string_bytes text.old
        ++ seat_file file.now seat.entry) }
{
    let group = seat.number();
    let station = seat.station + 1;
    write!(text, "{file}-{group}-{station}")
}
