ghost use Rattle.std.specs.Prelude.{◌≡◌, ◌<◌, ◌↔◌, IsTrue, IsOk, IfOk, IfErr, OnOk, OnErr, IfSome, IfNone, Contains, find};
ghost use Rattle.std.specs.Option.{option_copied};
ghost use Rattle.mon_mib.specs.Change.{one_failure};
ghost use Rattle.mon_mib.specs.Held.{AreIndexes};
ghost use Rattle.mon_mib.specs.Sim.{held_of, indexes_of, interface_at, is_over, IsPlaceOfIndex};

use crate::change::Change;
use crate::device::Device;
use crate::facts::{Facts, IfText, SysText};
use crate::fault::DeviceFault;
use crate::interface::Interface;
use crate::moment::Moment;
use crate::status::Status;
use crate::sys_texts::SysTexts;
use std::marker::Model;

/// A simulated device: interfaces that count evenly, and the texts that can be set. It fails only
/// changes of interfaces that it lacks. Contracts see the list of the interfaces, the texts, and
/// how many changes have failed.
pub struct SimDevice {
    interfaces: Vec<Interface>,
    texts: SysTexts,
    failures: u64,
}

// By hand: where one is let go, a proof has one call and not a drop of each field.
impl Drop for SimDevice {
    fn drop(self) {
        let SimDevice {
            interfaces: _,
            texts: _,
            failures: _,
        } = self;
    }
}

impl Model for SimDevice {
    ghost use Rattle.mon_mib.specs.Held.{AreIndexes};
    ghost use Rattle.mon_mib.specs.Sim.{Sim, indexes_of};

    ghost Value = { Sim };

    ghost view = { λ d. record {
      interfaces = d.interfaces.items;
      texts = d.texts;
      failures =
          d.failures;
    } };

    ghost invariant = { λ d. AreIndexes (indexes_of d.interfaces.items) };
}

impl SimDevice {
    /// The device of these interfaces and texts, or `BadIndex` where the indexes do not rise
    /// strictly from 1 to 2147483647.
    pub fn new(interfaces: Vec<Interface>, texts: SysTexts) -> Result<Self, DeviceFault>
        ensures made { IfOk result (λ device. device ≡ record
            { interfaces = interfaces.items; texts = texts; failures = 0 }) }
        ensures exact { IsOk result ↔ AreIndexes (indexes_of interfaces.items) }
        ensures fault { IfErr result (λ fault. fault ≡ DeviceFault.BadIndex) }
    {
        if are_indexes(&interfaces) {
            Ok(SimDevice {
                interfaces,
                texts,
                failures: 0,
            })
        } else {
            Err(DeviceFault::BadIndex)
        }
    }
}

impl Device for SimDevice {
    ghost use Rattle.mon_mib.specs.Change.{IsOf};
    ghost use Rattle.mon_mib.specs.Sim.{held_of, indexes_of};

    ghost held = { held_of };

    ghost failed = { λ d. d.failures };

    ghost refuses = { λ d change. ¬ (IsOf (indexes_of d.interfaces) change) };

    fn sys_text(&self, which: SysText) -> &[u8] {
        self.texts.get(which)
    }

    fn next_index(&self, after: Option<u32>) -> Option<u32> {
        let Some(next) = above(&self.interfaces, after) else {
            return None;
        };
        Some(next.index)
    }

    fn interface_count(&self) -> u32 {
        self.interfaces.len() as u32
    }

    fn facts(&self, index: u32, moment: Moment) -> Option<Facts> {
        let Some(interface) = find(&self.interfaces, index) else {
            return None;
        };
        Some(interface.facts(moment))
    }

    fn text(&self, index: u32, which: IfText) -> &[u8] {
        match find(&self.interfaces, index) {
            Some(interface) => interface.text(which),
            None => &[],
        }
    }

    fn apply(&mut self, change: Change) -> Result<Change, DeviceFault> {
        match change {
            Change::SysText(which, text) => {
                Ok(Change::SysText(which, self.texts.replace(which, text)))
            }
            Change::Admin {
                index,
                status,
                since,
            } => {
                let place = self.place(index)?;
                let next = Status {
                    admin: status,
                    since,
                };
                let was = self.interfaces[place].replace_status(next);
                Ok(Change::Admin {
                    index,
                    status: was.admin,
                    since: was.since,
                })
            }
            Change::Alias(index, alias) => {
                let place = self.place(index)?;
                let was = self.interfaces[place].replace_alias(alias);
                Ok(Change::Alias(index, was))
            }
        }
    }

    fn failures(&self) -> u64 {
        self.failures
    }
}

impl SimDevice {
    /// The place of the interface of an index, or `BadIndex` where the device lacks it. That is
    /// counted as a failure.
    fn place(&mut self, index: u32) -> Result<usize, DeviceFault>
        ensures found { IfOk result (IsPlaceOfIndex self.old.interfaces index) }
        ensures same { OnOk result (self.new ≡ self.old) }
        ensures lacking { OnErr result (¬ (Contains (indexes_of self.old.interfaces) index)) }
        ensures fault { IfErr result (λ fault. fault ≡ DeviceFault.BadIndex) }
        ensures counted { OnErr result (self.new ≡ record self.old
            { failures = one_failure self.old.failures }) }
    {
        let Some(place) = place_of(&self.interfaces, index) else {
            self.failures = self.failures.saturating_add(1);
            return Err(DeviceFault::BadIndex);
        };
        Ok(place)
    }
}

/// The place of the interface of an index, where indexes rise.
fn place_of(interfaces: &[Interface], index: u32) -> Option<usize>
    requires { AreIndexes (indexes_of interfaces.now) }
    ensures found { IfSome result (IsPlaceOfIndex interfaces.now index) }
    ensures missing { IfNone result (¬ (Contains (indexes_of interfaces.now) index)) }
{
    match interfaces.binary_search_by_key(&index, |p| p.index) {
        Ok(place) => Some(place),
        Err(_) => None,
    }
}

/// The interface of an index, where indexes rise.
fn find(interfaces: &[Interface], index: u32) -> Option<&Interface>
    requires { AreIndexes (indexes_of interfaces.now) }
    ensures { option_copied result ≡ interface_at interfaces.now index }
{
    let Some(place) = place_of(interfaces, index) else {
        return None;
    };
    Some(&interfaces[place])
}

/// The first interface whose index is above another, or of all, where indexes rise.
fn above(interfaces: &[Interface], after: Option<u32>) -> Option<&Interface>
    requires { AreIndexes (indexes_of interfaces.now) }
    ensures { option_copied result ≡ find (λ p. is_over after p.index) interfaces.now }
{
    let place = interfaces.partition_point(|p| !is_above(after, p.index));
    if place >= interfaces.len() {
        return None;
    }
    Some(&interfaces[place])
}

fn is_above(after: Option<u32>, index: u32) -> bool
    ensures { result ≡ is_over after index }
{
    match after {
        Some(after) => after < index,
        None => true,
    }
}

/// Returns `true` if the indexes rise strictly from 1 to 2147483647.
fn are_indexes(interfaces: &[Interface]) -> bool
    ensures { IsTrue result ↔ AreIndexes (indexes_of interfaces.now) }
{
    let mut last = 0;
    for interface in interfaces {
        if interface.index <= last || interface.index >= 1 << 31 {
            return false;
        }
        last = interface.index;
    }
    true
}
