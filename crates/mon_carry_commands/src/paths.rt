//! Files next to a station's file, and what is done with them.

ghost use Rattle.std.specs.Prelude.{◌≡◌, ◌++◌, codes, string_bytes};
ghost use Rattle.mon_console.specs.Files.{IsRename};
ghost use Rattle.mon_file_commands.specs.Steps.{OrMemory};
ghost use Rattle.mon_host.specs.Log.{GoesOnBy};
ghost use Rattle.mon_carry_commands.specs.Paths.{IsFinding, IsFinish, IsStanding};
ghost use Rattle.mon_carry_commands.specs.Paths.{IsStandingBeside, IsStandingNew, IsSwap, IsSwapTo};

use mon_console::Failure;
use mon_host::Host;
use std::alloc::Global;

/// Which files of a station are there: its own one; or only the old and the new one of a run that
/// was killed between its two renames; or none to carry from.
#[derive(Clone, Copy, Debug, PartialEq, Eq)]
pub(crate) enum Standing {
    There,
    Between,
    Absent,
}

/// Returns the path of the new file next to a station's file.
pub(crate) fn new_path(alloc: Global, path: &str) -> Result<String, Failure>
    ensures { OrMemory (λ text. string_bytes text ≡ path.now ++ codes ".new") result }
{
    Ok(format!(in alloc; "{path}.new")?)
}

/// Returns the path of the old file next to a station's file.
fn previous_path(alloc: Global, path: &str) -> Result<String, Failure>
    ensures { OrMemory (λ text. string_bytes text ≡ path.now ++ codes ".previous") result }
{
    Ok(format!(in alloc; "{path}.previous")?)
}

/// Returns `true` if something is at a path.
pub(crate) fn is_there<H: Host>(alloc: Global, host: &mut H, path: &str) -> Result<bool, Failure>
    ensures { GoesOnBy (λ log. IsFinding path.now log result) (H.log host.old) (H.log host.new) }
{
    match host.is_there(path) {
        Ok(there) => Ok(there),
        Err(reason) => Err(Failure::stream(alloc, path, reason)),
    }
}

/// Renames the file at a path, in the place of a file that is there.
fn rename<H: Host>(alloc: Global, host: &mut H, path: &str, other: &str) -> Result<(), Failure>
    ensures { GoesOnBy (λ log. IsRename path.now other.now log result)
        (H.log host.old) (H.log host.new) }
{
    match host.rename(path, other) {
        Ok(()) => Ok(()),
        Err(reason) => Err(Failure::stream(alloc, other, reason)),
    }
}

/// Returns which files of a station are there.
pub(crate) fn find_standing<H: Host>(
    alloc: Global,
    host: &mut H,
    path: &str,
) -> Result<Standing, Failure>
    ensures { GoesOnBy (λ log. IsStanding path.now log result) (H.log host.old) (H.log host.new) }
{
    match is_there(alloc, host, path) {
        Ok(true) => Ok(Standing::There),
        Ok(false) => find_beside(alloc, host, path),
        Err(failure) => Err(failure),
    }
}

/// Returns which files are there next to a station's file, which is not there.
fn find_beside<H: Host>(alloc: Global, host: &mut H, path: &str) -> Result<Standing, Failure>
    ensures { GoesOnBy (λ log. IsStandingBeside path.now log result)
        (H.log host.old) (H.log host.new) }
{
    let previous = previous_path(alloc, path)?;
    match is_there(alloc, host, previous.as_str()) {
        Ok(true) => find_new(alloc, host, path),
        Ok(false) => Ok(Standing::Absent),
        Err(failure) => Err(failure),
    }
}

/// Returns whether the new file is there, if the old one is.
fn find_new<H: Host>(alloc: Global, host: &mut H, path: &str) -> Result<Standing, Failure>
    ensures { GoesOnBy (λ log. IsStandingNew path.now log result)
        (H.log host.old) (H.log host.new) }
{
    let new = new_path(alloc, path)?;
    match is_there(alloc, host, new.as_str()) {
        Ok(true) => Ok(Standing::Between),
        Ok(false) => Ok(Standing::Absent),
        Err(failure) => Err(failure),
    }
}

/// Puts the new file at the path of the station's file, which is kept next to it.
pub(crate) fn swap<H: Host>(
    alloc: Global,
    host: &mut H,
    path: &str,
    new: &str,
) -> Result<(), Failure>
    ensures { GoesOnBy (λ log. IsSwap path.now new.now log result)
        (H.log host.old) (H.log host.new) }
{
    let previous = previous_path(alloc, path)?;
    swap_to(alloc, host, path, new, previous.as_str())
}

/// Puts the new file at the path of the station's file, which gets another one.
fn swap_to<H: Host>(
    alloc: Global,
    host: &mut H,
    path: &str,
    new: &str,
    previous: &str,
) -> Result<(), Failure>
    ensures { GoesOnBy (λ log. IsSwapTo path.now new.now previous.now log result)
        (H.log host.old) (H.log host.new) }
{
    rename(alloc, host, path, previous)?;
    rename(alloc, host, new, path)
}

/// Puts the new file at the path of the station's file, which is not there.
pub(crate) fn finish<H: Host>(alloc: Global, host: &mut H, path: &str) -> Result<(), Failure>
    ensures { GoesOnBy (λ log. IsFinish path.now log result) (H.log host.old) (H.log host.new) }
{
    let new = new_path(alloc, path)?;
    rename(alloc, host, new.as_str(), path)
}
