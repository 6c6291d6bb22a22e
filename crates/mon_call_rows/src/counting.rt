//! How often the agent's map asks its device: the next name is found by columns and rows, with no
//! list of all of them.

use crate::small_agent::settings;
use mon_ber::Octets;
use mon_mib::{
    Change, Device, DeviceFault, Facts, Growth, IfText, Interface, Mib, Moment, SimDevice, Status,
    SysText, SysTexts,
};
use mon_oid::Oid;
use mon_row_texts::{parsed, put_name, three};
use mon_settings::AgentSettings;
use mon_vacm::{Policy, ViewType};
use std::alloc::Global;
use std::cell::Cell;

/// A device over another one that counts how often it is asked for facts and for a next index.
struct CountingDevice<D: Drop> {
    device: D,
    calls: Cell<u64>,
}

// By hand: where one is let go, a proof has one call and not a drop of each field.
impl<D: Drop> Drop for CountingDevice<D> {
    fn drop(self) {
        let CountingDevice {
            device: _,
            calls: _,
        } = self;
    }
}

impl<D: Device + Drop> CountingDevice<D> {
    fn count(&self) {
        self.calls.set(self.calls.get().saturating_add(1));
    }
}

impl<D: Device + Drop> Device for CountingDevice<D> {
    ghost held = { λ c. D.held c.device };

    ghost failed = { λ c. D.failed c.device };

    ghost refuses = { λ c change. D.refuses c.device change };

    fn sys_text(&self, which: SysText) -> &[u8] {
        self.device.sys_text(which)
    }

    fn next_index(&self, after: Option<u32>) -> Option<u32> {
        self.count();
        self.device.next_index(after)
    }

    fn interface_count(&self) -> u32 {
        self.device.interface_count()
    }

    fn facts(&self, index: u32, moment: Moment) -> Option<Facts> {
        self.count();
        self.device.facts(index, moment)
    }

    fn text(&self, index: u32, which: IfText) -> &[u8] {
        self.device.text(index, which)
    }

    fn apply(&mut self, change: Change) -> Result<Change, DeviceFault> {
        self.device.apply(change)
    }

    fn failures(&self) -> u64 {
        self.device.failures()
    }
}

/// Makes an interface without texts that counts nothing.
fn interface(alloc: Global, index: u32) -> Interface {
    let none = Growth { start: 0, rate: 0 };
    Interface {
        index,
        descr: Octets::new(Vec::new(alloc)),
        kind: 6,
        mtu: 1500,
        speed: 0,
        phys: Octets::new(Vec::new(alloc)),
        name: Octets::new(Vec::new(alloc)),
        alias: Octets::new(Vec::new(alloc)),
        status: Status::new(),
        in_octets: none,
        in_packets: none,
        out_octets: none,
        out_packets: none,
    }
}

/// Makes this many interfaces, from index 1.
fn interfaces(alloc: Global, many: u32) -> Option<Vec<Interface>> {
    let mut interfaces = Vec::new(alloc);
    for place in 0..many {
        let index = place.checked_add(1)?;
        interfaces.push(interface(alloc, index)).ok()?;
    }
    Some(interfaces)
}

/// Makes a device of these interfaces.
fn device(interfaces: Vec<Interface>, texts: SysTexts) -> Option<CountingDevice<SimDevice>> {
    Some(CountingDevice {
        device: SimDevice::new(interfaces, texts).ok()?,
        calls: Cell::new(0),
    })
}

/// The map of the small agent over a device of other interfaces, and who may read what of it.
struct Large {
    policy: Policy,
    mib: Mib<CountingDevice<SimDevice>>,
}

// By hand: where one is let go, a proof has one call and not a drop of each field.
impl Drop for Large {
    fn drop(self) {
        let Large { policy: _, mib: _ } = self;
    }
}

impl Large {
    /// Makes the map over a device of these interfaces.
    fn new(alloc: Global, interfaces: Vec<Interface>) -> Option<Self> {
        let AgentSettings {
            settings,
            texts,
            policy,
            ..
        } = settings(alloc)?;
        let device = device(interfaces, texts)?;
        let mib = Mib::new(settings, device);
        Some(Large { policy, mib })
    }

    /// Appends the name after another one that `public` may read.
    fn put_next(&self, alloc: Global, text: &mut String, name: &Oid) -> Option<()> {
        let access = self.policy.access(b"public", ViewType::Read).ok()?;
        let moment = Moment::new(0)?;
        let found = self.mib.next(alloc, &self.policy, access, name, moment);
        let found = found.ok()??;
        put_name(alloc, text, &found.name)
    }
}

/// Answers a line `MANY MOST NAME` with the name after another one on a device of MANY interfaces,
/// and says if the device was asked 1 to MOST times.
pub(crate) fn row(alloc: Global, text: &mut String, line: &str) -> Option<()> {
    let (many, most, name) = three(line, ' ')?;
    let (most, many): (u64, u32) = (parsed(most)?, parsed(many)?);
    let name = Oid::parse(alloc, name).ok()?;
    let large = Large::new(alloc, interfaces(alloc, many)?)?;
    large.put_next(alloc, text, &name)?;
    let calls = large.mib.device().calls.get();
    let is_within = 1 <= calls && calls <= most;
    write!(text, ", 1 to {most} calls: {is_within}").ok()
}
