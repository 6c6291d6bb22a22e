ghost use Rattle.std.specs.Prelude.{◌≡◌, ◌^◌, ◌<◌, [], ℕ, IfSome, IfOk, OnOk, OnErr, Contains, length};
ghost use Rattle.mon_mib.specs.declared.change.Change.{Change as AnyChange};
ghost use Rattle.mon_mib.specs.Change.{changed, undoing, IsOf, one_failure};
ghost use Rattle.mon_mib.specs.Held.{Held, AreIndexes, IsAbove, IsLeastOf, facts_at, text_at};

use crate::change::Change;
use crate::facts::{Facts, IfText, SysText};
use crate::fault::DeviceFault;
use crate::moment::Moment;

/// A device with interfaces, whose indexes stay the same (ifIndex, RFC 2863 section 6), and of
/// which some things can be changed.
pub trait Device {
    /// What it holds: texts, the indexes of its interfaces, and the facts of each at every time.
    ghost held: { Self → Held };

    /// How many changes it has failed to make, at most 2^64 - 1.
    ghost failed: { Self → ℕ };

    /// Which changes it fails to make as it is.
    ghost refuses: { Self → AnyChange → Type 0 };

    /// A text of the device.
    fn sys_text(&self, which: SysText) -> &[u8]
        ensures { result.now ≡ (held self.now).sys_text which };

    /// The least index above `after`, or of all. Indexes rise strictly and are 1 to 2147483647.
    fn next_index(&self, after: Option<u32>) -> Option<u32>
        ensures least { IsLeastOf (held self.now).indexes (IsAbove after) result }
        ensures indexes { AreIndexes (held self.now).indexes };

    /// How many interfaces it has.
    fn interface_count(&self) -> u32
        ensures value { result ≡ length (held self.now).indexes }
        ensures range { result < 2 ^ 31 };

    /// Returns the numbers of an interface at a time, or `None` for an index that the device lacks.
    fn facts(&self, index: u32, moment: Moment) -> Option<Facts>
        ensures there { Contains (held self.now).indexes index
            → result ≡ Some (facts_at (held self.now) index moment) }
        ensures found { IfSome result (λ _. Contains (held self.now).indexes index) }
        ensures range { IfSome result (λ _. index < 2 ^ 31) };

    /// A text of an interface, empty for an index that the device lacks.
    fn text(&self, index: u32, which: IfText) -> &[u8]
        ensures there { Contains (held self.now).indexes index
            → result.now ≡ text_at (held self.now) index which }
        ensures lacking { ¬ (Contains (held self.now).indexes index) → result.now ≡ [] };

    /// Makes a change, and returns the one that undoes it. A change that fails leaves everything,
    /// and is counted. One of an interface that the device lacks fails. It allocates nothing: texts
    /// are moved in and out.
    fn apply(&mut self, change: Change) -> Result<Change, DeviceFault>
        ensures made { OnOk result (held self.new ≡ changed change (held self.old)) }
        ensures undo { IfOk result (λ undo. undo ≡ undoing change (held self.old)) }
        ensures there { OnOk result (IsOf (held self.old).indexes change) }
        ensures quiet { OnOk result (failed self.new ≡ failed self.old) }
        ensures kept { OnErr result (held self.new ≡ held self.old) }
        ensures refused { OnErr result (refuses self.old change) }
        ensures counted { OnErr result (failed self.new ≡ one_failure (failed self.old)) };

    /// How many changes it has failed to make. The count stays at 2^64 - 1.
    fn failures(&self) -> u64
        ensures { result ≡ failed self.now };
}
