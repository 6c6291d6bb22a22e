//! The targets that are polled.

use mon_ber::Octets;
use mon_oid::Oid;
use mon_poller::{Object, Objects, Poller, Target, are_targets};
use mon_udp::Addr;
use std::alloc::Global;

/// ifHCInOctets (RFC 2863), which is followed by the number of an interface.
const IN_OCTETS: [u32; 11] = [1, 3, 6, 1, 2, 1, 31, 1, 1, 1, 6];

/// ifCounterDiscontinuityTime.
const DISCONTINUITY: [u32; 11] = [1, 3, 6, 1, 2, 1, 31, 1, 1, 1, 19];

/// Returns the address of this host with a port.
pub(crate) fn local(port: u16) -> Addr {
    Addr {
        octets: [127, 0, 0, 1],
        port,
    }
}

/// What a target has besides its objects.
#[derive(Clone, Copy)]
struct Polled {
    port: u16,
    community: &'static [u8],
    engine: &'static [u8],
    tries: u8,
}

/// The target of one object.
const FIRST: Polled = Polled {
    port: 16100,
    community: b"public",
    engine: &[0x80, 0, 0, 0, 1],
    tries: 2,
};

/// The target of many objects.
const SECOND: Polled = Polled {
    port: 16102,
    community: b"private",
    engine: &[0x80, 0, 0, 0, 2, 7],
    tries: 8,
};

/// The target of three objects.
const THIRD: Polled = Polled {
    port: 16103,
    community: b"c",
    engine: &[0x80, 0, 0, 0, 3],
    tries: 1,
};

/// Makes a poller of three targets: one object without a mark; 16 objects with marks; and three
/// objects, the middle one without.
pub fn poller(alloc: Global) -> Option<Poller> {
    let mut targets = Vec::new(alloc);
    let mut objects = Vec::new(alloc);
    push_unmarked(alloc, &mut objects, 0, "1.3.6.1.2.1.2.2.1.10.1")?;
    targets.push(target(alloc, FIRST, objects)?).ok()?;
    let mut objects = Vec::new(alloc);
    for interface in 1..17u16 {
        push_marked(alloc, &mut objects, interface, interface)?;
    }
    targets.push(target(alloc, SECOND, objects)?).ok()?;
    let mut objects = Vec::new(alloc);
    push_marked(alloc, &mut objects, 21, 1)?;
    push_unmarked(alloc, &mut objects, 9, "1.3.6.1.4.1.2021.10.1.5.1")?;
    push_marked(alloc, &mut objects, 300, 2)?;
    targets.push(target(alloc, THIRD, objects)?).ok()?;
    if !are_targets(&targets) {
        return None;
    }
    Poller::new(alloc, targets).ok()
}

fn target(alloc: Global, polled: Polled, objects: Vec<Object>) -> Option<Target> {
    let community = Octets::from_slice(alloc, polled.community).ok()?;
    let engine = Octets::from_slice(alloc, polled.engine).ok()?;
    Some(Target {
        address: local(polled.port),
        community,
        engine,
        tries: polled.tries,
        objects: Objects::new(objects),
    })
}

/// Adds an object without a mark.
fn push_unmarked(
    alloc: Global,
    objects: &mut Vec<Object>,
    instance: u16,
    name: &str,
) -> Option<()> {
    let object = Object {
        instance,
        name: Oid::parse(alloc, name).ok()?,
        discontinuity: None,
    };
    objects.push(object).ok()
}

/// Adds ifHCInOctets of an interface, with its mark.
fn push_marked(
    alloc: Global,
    objects: &mut Vec<Object>,
    instance: u16,
    interface: u16,
) -> Option<()> {
    let object = Object {
        instance,
        name: of_interface(alloc, &IN_OCTETS, interface)?,
        discontinuity: Some(of_interface(alloc, &DISCONTINUITY, interface)?),
    };
    objects.push(object).ok()
}

/// Returns the name of a column at an interface.
fn of_interface(alloc: Global, column: &[u32; 11], interface: u16) -> Option<Oid> {
    let mut parts = Vec::from_slice(alloc, column).ok()?;
    parts.push(u32::from(interface)).ok()?;
    Oid::from_parts(alloc, &parts).ok()
}
