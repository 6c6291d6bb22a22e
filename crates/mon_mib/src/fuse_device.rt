//! A device that fails when a test asks it to.

ghost use Rattle.std.specs.Prelude.{◌≡◌, ◌+◌, ◌-◌, ◌^◌, min, ◌⊎◌, IsTrue, ◌↔◌, IfOk, OnOk, OnErr};
ghost use Rattle.mon_mib.specs.Change.{changed, undoing, IsOf, one_failure, all_failures};
ghost use Rattle.mon_mib.specs.Fuse.{IsBlown};

use crate::change::Change;
use crate::device::Device;
use crate::facts::{Facts, IfText, SysText};
use crate::fault::DeviceFault;
use crate::moment::Moment;

/// A device over another one that fails some of its first 64 changes, whatever the other would do.
#[derive(Drop)]
pub struct FuseDevice<D: Drop> {
    /// The other one.
    pub device: D,
    fuses: u64,
    applies: u64,
    blown: u64,
}

impl<D: Device + Drop> FuseDevice<D> {
    /// The device that fails change number k, counted from 0, where bit k of `fuses` is 1.
    pub fn new(device: D, fuses: u64) -> Self
        ensures { result ≡ record { device = device; fuses = fuses; applies = 0; blown = 0 } }
    {
        FuseDevice {
            device,
            fuses,
            applies: 0,
            blown: 0,
        }
    }
}

impl<D: Device + Drop> Device for FuseDevice<D> {
    ghost use Rattle.std.specs.Prelude.{◌⊎◌};
    ghost use Rattle.mon_mib.specs.Change.{all_failures};
    ghost use Rattle.mon_mib.specs.Fuse.{IsBlown};

    ghost held = { λ f. D.held f.device };

    ghost failed = { λ f. all_failures (D.failed f.device) f.blown };

    ghost refuses = { λ f change. IsBlown f.fuses f.applies ⊎ D.refuses f.device change };

    fn sys_text(&self, which: SysText) -> &[u8] {
        self.device.sys_text(which)
    }

    fn next_index(&self, after: Option<u32>) -> Option<u32> {
        self.device.next_index(after)
    }

    fn interface_count(&self) -> u32 {
        self.device.interface_count()
    }

    fn facts(&self, index: u32, moment: Moment) -> Option<Facts> {
        self.device.facts(index, moment)
    }

    fn text(&self, index: u32, which: IfText) -> &[u8] {
        self.device.text(index, which)
    }

    /// Changes as the other device does, except the changes that must fail. Each is counted.
    fn apply(&mut self, change: Change) -> Result<Change, DeviceFault>
        ensures made { OnOk result (D.held self.new.device ≡ changed change
            (D.held self.old.device)) }
        ensures undo { IfOk result (λ undo. undo ≡ undoing change (D.held self.old.device)) }
        ensures there { OnOk result (IsOf (D.held self.old.device).indexes change) }
        ensures quiet { OnOk result (all_failures (D.failed self.new.device) self.new.blown
            ≡ all_failures (D.failed self.old.device) self.old.blown) }
        ensures kept { OnErr result (D.held self.new.device ≡ D.held self.old.device) }
        ensures refused { OnErr result (IsBlown self.old.fuses self.old.applies
            ⊎ D.refuses self.old.device change) }
        ensures counted { OnErr result (all_failures (D.failed self.new.device) self.new.blown
            ≡ one_failure (all_failures (D.failed self.old.device) self.old.blown)) }

        // It fails where its fuse is blown, and the next change is the next number.
        ensures blown { IsBlown self.old.fuses self.old.applies → result ≡ Err DeviceFault.Failed }
        ensures fuses { self.new.fuses ≡ self.old.fuses }
        ensures applies { self.new.applies ≡ min (self.old.applies + 1) (2 ^ 64 - 1) }
    {
        let number = self.applies;
        self.applies = number.saturating_add(1);
        if is_blown(self.fuses, number) {
            self.blown = self.blown.saturating_add(1);
            return Err(DeviceFault::Failed);
        }
        self.device.apply(change)
    }

    fn failures(&self) -> u64 {
        self.device.failures().saturating_add(self.blown)
    }
}

/// Returns `true` if the fuse of a change is blown.
fn is_blown(fuses: u64, number: u64) -> bool
    ensures { IsTrue result ↔ IsBlown fuses number }
{
    number < 64 && fuses & (1 << number) != 0
}
