//! The command `carry`.

ghost use Rattle.mon_host.specs.Log.{GoesOnBy};
ghost use Rattle.mon_carry_commands.specs.Carry.{IsBetween, IsCarryCommand, IsNew};

use crate::engines::engines_of;
use crate::line::print_carried;
use crate::load::{Task, load_from};
use crate::previous::carry_previous;
use crate::saving::{Means, Saves, save_unless};
use crate::side::{read_side, require_apart};
use mon_ber::Octets;
use mon_cli::CarryArgs;
use mon_console::Failure;
use mon_host::Host;
use std::alloc::Global;

/// Carries the windows of the file of old settings over to that of new ones, which must hold no
/// save; or replaces the file of the new settings, to which the old ones belong. Prints how much it
/// was.
pub fn carry_windows<K: Saves, H: Host>(
    alloc: Global,
    disks: &K,
    host: &mut H,
    words: CarryArgs<'_, '_>,
) -> Result<(), Failure>
    ensures { GoesOnBy (λ log. IsCarryCommand (K.asked_save disks.now) words.entry log result)
        (H.log host.old) (H.log host.new) }
{
    let dropped = engines_of(alloc, words.dropped)?;
    let engines = dropped.as_slice();
    let means = Means { alloc, disks };
    if words.previous {
        carry_previous(&means, host, words, engines)
    } else {
        carry_new(&means, host, words, engines)
    }
}

/// Carries windows to the file of new settings, which must hold no save.
fn carry_new<K: Saves, H: Host>(
    means: &Means<'_, K>,
    host: &mut H,
    words: CarryArgs<'_, '_>,
    dropped: &[Octets],
) -> Result<(), Failure>
    ensures { GoesOnBy (λ log. IsNew (K.asked_save means.now.disks.now)
        words.entry dropped.now log result) (H.log host.old) (H.log host.new) }
{
    let old = read_side(means.alloc, host, words.old)?;
    let new = read_side(means.alloc, host, words.new)?;
    let from = old.file.as_str();
    let to = new.file.as_str();
    require_apart(means.alloc, from, to)?;
    let task = Task {
        path: from,
        old: &old.watch,
        new: &new.watch,
        dropped,
    };
    carry_task(means, host, words.dry_run, to, task)
}

/// Carries the windows of a task to the file at a path, which must hold no save.
fn carry_task<K: Saves, H: Host>(
    means: &Means<'_, K>,
    host: &mut H,
    skips: bool,
    path: &str,
    task: Task<'_>,
) -> Result<(), Failure>
    ensures { GoesOnBy (λ log. IsBetween (K.asked_save means.now.disks.now)
        skips path.now task.entry.path.now task.entry.old.now task.entry.new.now
        task.entry.dropped.now log result) (H.log host.old) (H.log host.new) }
{
    let load = load_from(means.alloc, host, task)?;
    save_unless(means, skips, path, &load)?;
    print_carried(means.alloc, host, load.carried)
}
