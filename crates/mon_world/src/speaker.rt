//! Where an agent's datagram comes from.

ghost use Rattle.std.specs.Prelude.{◌≡◌, ◌≤◌, ◌↔◌, All, Any, IsTrue, length};
ghost use Rattle.mon_world.specs.Outcome.{IsSpeaker};

use mon_poller::Target;
use mon_udp::Addr;

/// How many addresses are tried for a strange one: there are at most 64 targets.
const STRANGERS: u16 = 65;

/// Returns the address of the target of this number, counted from 1, or an address of no target if
/// there is no such target.
pub(crate) fn speaker(targets: &[Target], number: u32) -> Addr
    requires few { length targets.now ≤ 64 }
    ensures { IsSpeaker targets.now number result }
{
    if number == 0 || number as usize > targets.len() {
        return stranger(targets);
    }
    targets[number as usize - 1].address
}

/// An address of no target.
fn stranger(targets: &[Target]) -> Addr
    requires few { length targets.now ≤ 64 }
    ensures { All (λ target. ¬ (target.address ≡ result)) targets.now }
{
    for port in 0..STRANGERS {
        let address = Addr {
            octets: [0, 0, 0, 0],
            port,
        };
        if !is_target(targets, address) {
            return address;
        }
    }
    unreachable!()
}

/// Returns `true` if a target has this address.
fn is_target(targets: &[Target], address: Addr) -> bool
    ensures { IsTrue result ↔ Any (λ target. target.address ≡ address) targets.now }
{
    targets.iter().any(|target| target.address == address)
}
