//! Carrying a station's file to settings that changed, in its own place.

ghost use Rattle.std.specs.Prelude.{◌≤◌};
ghost use Rattle.mon_host.specs.Log.{GoesOnBy};
ghost use Rattle.mon_carry_commands.specs.Previous.{IsFinished, IsPrevious};
ghost use Rattle.mon_carry_commands.specs.Previous.{IsPreviousOf, IsReplaced, IsReplacedBy};
ghost use Rattle.mon_carry_commands.specs.Previous.{IsReplacedAt, IsReplacing};
ghost use Rattle.mon_carry_commands.specs.Previous.{IsReplacingBy, IsReplacingUnless, IsWritingNew};

use crate::alike::are_alike;
use crate::line::{print_absent, print_carried, print_finished, print_same};
use crate::load::{Load, Task, load_from};
use crate::paths::{Standing, find_standing, finish, is_there, new_path, swap};
use crate::saving::{Means, Saves, save_load};
use crate::side::read_side;
use mon_ber::Octets;
use mon_cli::CarryArgs;
use mon_console::{Failure, write_file};
use mon_host::Host;
use std::alloc::Global;

/// Replaces the file of the new settings, to which the old ones belong, by what is carried from it;
/// or prints why nothing is carried: the old settings are not there, no file is, or nothing else is
/// watched than before.
pub(crate) fn carry_previous<K: Saves, H: Host>(
    means: &Means<'_, K>,
    host: &mut H,
    words: CarryArgs<'_, '_>,
    dropped: &[Octets],
) -> Result<(), Failure>
    ensures { GoesOnBy (λ log. IsPrevious (K.asked_save means.now.disks.now)
        words.entry dropped.now log result) (H.log host.old) (H.log host.new) }
{
    match is_there(means.alloc, host, words.old) {
        Ok(true) => carry_settings(means, host, words, dropped),
        Ok(false) => print_absent(means.alloc, host, words.old),
        Err(failure) => Err(failure),
    }
}

/// Replaces the file of the new settings, after both were read.
fn carry_settings<K: Saves, H: Host>(
    means: &Means<'_, K>,
    host: &mut H,
    words: CarryArgs<'_, '_>,
    dropped: &[Octets],
) -> Result<(), Failure>
    ensures { GoesOnBy (λ log. IsPreviousOf (K.asked_save means.now.disks.now)
        words.entry dropped.now log result) (H.log host.old) (H.log host.new) }
{
    let old = read_side(means.alloc, host, words.old)?;
    let new = read_side(means.alloc, host, words.new)?;
    let path = new.file.as_str();
    let task = Task {
        path,
        old: &old.watch,
        new: &new.watch,
        dropped,
    };
    replace_standing(means, host, words.dry_run, task)
}

/// Replaces a station's file if it is there, or goes on where a run was killed.
fn replace_standing<K: Saves, H: Host>(
    means: &Means<'_, K>,
    host: &mut H,
    skips: bool,
    task: Task<'_>,
) -> Result<(), Failure>
    ensures { GoesOnBy (λ log. IsReplaced (K.asked_save means.now.disks.now)
        skips task.entry.path.now task.entry.old.now task.entry.new.now task.entry.dropped.now log
        result) (H.log host.old) (H.log host.new) }
{
    let standing = find_standing(means.alloc, host, task.path)?;
    replace_at(means, host, standing, skips, task)
}

/// Replaces a station's file by what is there of it, if something else is watched than before.
fn replace_at<K: Saves, H: Host>(
    means: &Means<'_, K>,
    host: &mut H,
    standing: Standing,
    skips: bool,
    task: Task<'_>,
) -> Result<(), Failure>
    ensures { GoesOnBy (λ log. IsReplacedAt (K.asked_save means.now.disks.now)
        standing skips task.entry.path.now task.entry.old.now task.entry.new.now
        task.entry.dropped.now log result) (H.log host.old) (H.log host.new) }
{
    match standing {
        Standing::There if are_alike(task.old, task.new) => print_same(means.alloc, host),
        Standing::There => replace_task(means, host, skips, task),
        Standing::Between => finish_unless(means.alloc, host, skips, task.path),
        Standing::Absent => print_absent(means.alloc, host, task.path),
    }
}

/// Goes on where a run was killed between its two renames, unless nothing may be written.
fn finish_unless<H: Host>(
    alloc: Global,
    host: &mut H,
    skips: bool,
    path: &str,
) -> Result<(), Failure>
    ensures { GoesOnBy (λ log. IsFinished skips path.now log result)
        (H.log host.old) (H.log host.new) }
{
    if skips {
        return print_finished(alloc, host, path);
    }
    finish(alloc, host, path)?;
    print_finished(alloc, host, path)
}

/// Replaces a station's file by what is carried from it.
fn replace_task<K: Saves, H: Host>(
    means: &Means<'_, K>,
    host: &mut H,
    skips: bool,
    task: Task<'_>,
) -> Result<(), Failure>
    ensures { GoesOnBy (λ log. IsReplacedBy (K.asked_save means.now.disks.now)
        skips task.entry.path.now task.entry.old.now task.entry.new.now task.entry.dropped.now log
        result) (H.log host.old) (H.log host.new) }
{
    let load = load_from(means.alloc, host, task)?;
    replace_unless(means, host, skips, task.path, &load)?;
    print_carried(means.alloc, host, load.carried)
}

/// Replaces the file at a path by one with what is carried; or does nothing.
fn replace_unless<K: Saves, H: Host>(
    means: &Means<'_, K>,
    host: &mut H,
    skips: bool,
    path: &str,
    load: &Load,
) -> Result<(), Failure>
    requires { 1 ≤ load.now.incarnation }
    ensures { GoesOnBy (λ log. IsReplacingUnless (K.asked_save means.now.disks.now)
        skips path.now load.now log result) (H.log host.old) (H.log host.new) }
{
    if skips {
        Ok(())
    } else {
        replace(means, host, path, load)
    }
}

/// Replaces the file at a path by one with what is carried.
fn replace<K: Saves, H: Host>(
    means: &Means<'_, K>,
    host: &mut H,
    path: &str,
    load: &Load,
) -> Result<(), Failure>
    requires { 1 ≤ load.now.incarnation }
    ensures { GoesOnBy (λ log. IsReplacing (K.asked_save means.now.disks.now)
        path.now load.now log result) (H.log host.old) (H.log host.new) }
{
    let new = new_path(means.alloc, path)?;
    replace_by(means, host, path, new.as_str(), load)
}

/// Replaces the file at a path by a new one with what is carried, which is written at another path.
fn replace_by<K: Saves, H: Host>(
    means: &Means<'_, K>,
    host: &mut H,
    path: &str,
    new: &str,
    load: &Load,
) -> Result<(), Failure>
    requires { 1 ≤ load.now.incarnation }
    ensures { GoesOnBy (λ log. IsReplacingBy (K.asked_save means.now.disks.now)
        path.now new.now load.now log result) (H.log host.old) (H.log host.new) }
{
    write_new(means, host, new, load)?;
    swap(means.alloc, host, path, new)
}

/// Writes a new file with what is carried, over what a run that was killed left of one.
fn write_new<K: Saves, H: Host>(
    means: &Means<'_, K>,
    host: &mut H,
    path: &str,
    load: &Load,
) -> Result<(), Failure>
    requires { 1 ≤ load.now.incarnation }
    ensures { GoesOnBy (λ log. IsWritingNew (K.asked_save means.now.disks.now)
        path.now load.now log result) (H.log host.old) (H.log host.new) }
{
    write_file(means.alloc, host, path, &[])?;
    save_load(means, path, load)
}
