//! What commands read, print and replace.

ghost use Rattle.mon_host.specs.Log.{GoesOnBy};
ghost use Rattle.mon_console.specs.Files.{IsFile, IsInput, IsInputText, IsPart, IsPermit, IsPrint, IsPublicWrite, IsPublishing, IsRename, IsReplacing, IsText, IsTextOf, IsWrite};

use crate::failure::Failure;
use mon_host::{Host, Part};
use std::alloc::Global;

/// What second lines call the standard streams.
const INPUT: &str = "standard input";

const OUTPUT: &str = "standard output";

/// Prints octets on standard output.
pub fn print<H: Host>(alloc: Global, host: &mut H, octets: &[u8]) -> Result<(), Failure>
    ensures { GoesOnBy (λ log. IsPrint octets.now log result) (H.log host.old) (H.log host.new) }
{
    match host.print(octets) {
        Ok(()) => Ok(()),
        Err(reason) => Err(Failure::stream(alloc, OUTPUT, reason)),
    }
}

/// Replaces a file whole: a new one is written next to it and renamed, so that a reader finds the
/// old text or the new one.
pub fn replace_file<H: Host>(
    alloc: Global,
    host: &mut H,
    path: &str,
    octets: &[u8],
) -> Result<(), Failure>
    ensures { GoesOnBy (λ log. IsReplacing path.now octets.now log result)
        (H.log host.old) (H.log host.new) }
{
    let fresh = format!(in alloc; "{path}.new")?;
    write_file(alloc, host, fresh.as_str(), octets)?;
    rename(alloc, host, fresh.as_str(), path)
}

/// Replaces a file whole, as `replace_file` does, by one that all users may read, whatever the
/// process lets them read of what it makes. They may read it before it is renamed, so that a reader
/// never meets a file that is closed to it.
pub fn publish_file<H: Host>(
    alloc: Global,
    host: &mut H,
    path: &str,
    octets: &[u8],
) -> Result<(), Failure>
    ensures { GoesOnBy (λ log. IsPublishing path.now octets.now log result)
        (H.log host.old) (H.log host.new) }
{
    let fresh = format!(in alloc; "{path}.new")?;
    write_public(alloc, host, fresh.as_str(), octets)?;
    rename(alloc, host, fresh.as_str(), path)
}

/// Writes octets to the file at a path, as `write_file` does, and permits all users to read it.
fn write_public<H: Host>(
    alloc: Global,
    host: &mut H,
    path: &str,
    octets: &[u8],
) -> Result<(), Failure>
    ensures { GoesOnBy (λ log. IsPublicWrite path.now octets.now log result)
        (H.log host.old) (H.log host.new) }
{
    write_file(alloc, host, path, octets)?;
    permit_reading(alloc, host, path)
}

/// Permits all users to read the file at a path.
fn permit_reading<H: Host>(alloc: Global, host: &mut H, path: &str) -> Result<(), Failure>
    ensures { GoesOnBy (λ log. IsPermit path.now log result) (H.log host.old) (H.log host.new) }
{
    match host.permit_reading(path) {
        Ok(()) => Ok(()),
        Err(reason) => Err(Failure::stream(alloc, path, reason)),
    }
}

/// Writes octets to the file at a path, which is made, or emptied before.
pub fn write_file<H: Host>(
    alloc: Global,
    host: &mut H,
    path: &str,
    octets: &[u8],
) -> Result<(), Failure>
    ensures { GoesOnBy (λ log. IsWrite path.now octets.now log result)
        (H.log host.old) (H.log host.new) }
{
    match host.write_file(path, octets) {
        Ok(()) => Ok(()),
        Err(reason) => Err(Failure::stream(alloc, path, reason)),
    }
}

/// Renames the file at a path to another path, in place of a file that is there.
fn rename<H: Host>(alloc: Global, host: &mut H, path: &str, other: &str) -> Result<(), Failure>
    ensures { GoesOnBy (λ log. IsRename path.now other.now log result)
        (H.log host.old) (H.log host.new) }
{
    match host.rename(path, other) {
        Ok(()) => Ok(()),
        Err(reason) => Err(Failure::stream(alloc, other, reason)),
    }
}

/// Reads standard input to its end.
pub fn read_input<H: Host>(alloc: Global, host: &mut H) -> Result<Vec<u8>, Failure>
    ensures { GoesOnBy (λ log. IsInput log result) (H.log host.old) (H.log host.new) }
{
    match host.read_input() {
        Ok(octets) => Ok(octets),
        Err(reason) => Err(Failure::stream(alloc, INPUT, reason)),
    }
}

/// Reads the text on standard input.
pub fn read_input_text<H: Host>(alloc: Global, host: &mut H) -> Result<String, Failure>
    ensures { GoesOnBy (λ log. IsInputText log result) (H.log host.old) (H.log host.new) }
{
    let octets = read_input(alloc, host)?;
    text_of(alloc, INPUT, octets)
}

/// Reads the file at a path to its end.
fn read_file<H: Host>(alloc: Global, host: &mut H, path: &str) -> Result<Vec<u8>, Failure>
    ensures { GoesOnBy (λ log. IsFile path.now log result) (H.log host.old) (H.log host.new) }
{
    match host.read_file(path) {
        Ok(octets) => Ok(octets),
        Err(reason) => Err(Failure::stream(alloc, path, reason)),
    }
}

/// Reads the text in the file at a path.
pub fn read_text<H: Host>(alloc: Global, host: &mut H, path: &str) -> Result<String, Failure>
    ensures { GoesOnBy (λ log. IsText path.now log result) (H.log host.old) (H.log host.new) }
{
    let octets = read_file(alloc, host, path)?;
    text_of(alloc, path, octets)
}

/// Reads a part of the file at a path.
pub fn read_part<H: Host>(
    alloc: Global,
    host: &mut H,
    path: &str,
    part: Part,
) -> Result<Vec<u8>, Failure>
    ensures { GoesOnBy (λ log. IsPart path.now part log result) (H.log host.old) (H.log host.new) }
{
    match host.read_part(path, part) {
        Ok(octets) => Ok(octets),
        Err(reason) => Err(Failure::stream(alloc, path, reason)),
    }
}

/// Returns the text of octets in UTF-8, which are of this place.
fn text_of(alloc: Global, place: &str, octets: Vec<u8>) -> Result<String, Failure>
    ensures { IsTextOf place.now octets.items result }
{
    match String::from_utf8(octets) {
        Ok(text) => Ok(text),
        Err(_) => Err(Failure::text(alloc, place, "text in UTF-8")),
    }
}
