//! What `carry` prints: one line.

ghost use Rattle.std.specs.Prelude.{◌≡◌, codes, string_bytes};
ghost use Rattle.mon_console.specs.Files.{IsPrint};
ghost use Rattle.mon_file_commands.specs.Steps.{OrMemory};
ghost use Rattle.mon_host.specs.Log.{GoesOnBy};
ghost use Rattle.mon_carry_commands.specs.Line.{IsCountsPrint, IsTextPrint, absent_line};
ghost use Rattle.mon_carry_commands.specs.Line.{carried_line, carried_with, finished_line, grouped};

use mon_carry::Carried;
use mon_console::{Failure, print};
use mon_host::Host;
use std::alloc::Global;

/// Prints how much was carried.
pub(crate) fn print_carried<H: Host>(
    alloc: Global,
    host: &mut H,
    carried: Carried,
) -> Result<(), Failure>
    ensures { GoesOnBy (λ log. IsCountsPrint carried log result) (H.log host.old) (H.log host.new) }
{
    let line = carried_line(alloc, carried)?;
    print(alloc, host, line.as_bytes())
}

/// Returns the line of how much was carried.
fn carried_line(alloc: Global, carried: Carried) -> Result<String, Failure>
    ensures { OrMemory (λ line. string_bytes line ≡ carried_line carried) result }
{
    let samples = grouped(alloc, carried.samples)?;
    carried_with(alloc, samples.as_str(), carried)
}

/// Returns the line of how much was carried, with this text of how many samples.
fn carried_with(alloc: Global, samples: &str, carried: Carried) -> Result<String, Failure>
    ensures { OrMemory (λ line. string_bytes line ≡ carried_with samples.now carried) result }
{
    let Carried {
        watched,
        instances,
        added,
        gone,
        samples: _,
    } = carried;
    let line = format!(in alloc;
        "carried {instances} of {watched} instances, {samples} samples; {added} new, {gone} gone\n"
    )?;
    Ok(line)
}

/// Returns a number in decimal digits, with a comma before the last three if there are more. There
/// are not more than six.
fn grouped(alloc: Global, number: usize) -> Result<String, Failure>
    ensures { OrMemory (λ text. string_bytes text ≡ grouped number) result }
{
    if number < 1000 {
        return Ok(format!(in alloc; "{number}")?);
    }
    let thousands = number / 1000;
    let hundreds = number / 100 % 10;
    let tens = number / 10 % 10;
    let ones = number % 10;
    Ok(format!(in alloc; "{thousands},{hundreds}{tens}{ones}")?)
}

/// Prints that nothing is carried, since nothing is at a path.
pub(crate) fn print_absent<H: Host>(alloc: Global, host: &mut H, path: &str) -> Result<(), Failure>
    ensures { GoesOnBy (λ log. IsTextPrint (absent_line path.now) log result)
        (H.log host.old) (H.log host.new) }
{
    let line = absent_line(alloc, path)?;
    print(alloc, host, line.as_bytes())
}

/// Returns the line that nothing is carried, since nothing is at a path.
fn absent_line(alloc: Global, path: &str) -> Result<String, Failure>
    ensures { OrMemory (λ line. string_bytes line ≡ absent_line path.now) result }
{
    Ok(format!(in alloc; "nothing is carried: {path} is not there\n")?)
}

/// Prints that nothing is carried, since nothing else is watched than before.
pub(crate) fn print_same<H: Host>(alloc: Global, host: &mut H) -> Result<(), Failure>
    ensures { GoesOnBy (λ log. IsPrint (codes "nothing is carried: both settings watch the same\n")
        log result) (H.log host.old) (H.log host.new) }
{
    print(
        alloc,
        host,
        b"nothing is carried: both settings watch the same\n",
    )
}

/// Prints that what an earlier run carried is at a path now.
pub(crate) fn print_finished<H: Host>(
    alloc: Global,
    host: &mut H,
    path: &str,
) -> Result<(), Failure>
    ensures { GoesOnBy (λ log. IsTextPrint (finished_line path.now) log result)
        (H.log host.old) (H.log host.new) }
{
    let line = finished_line(alloc, path)?;
    print(alloc, host, line.as_bytes())
}

/// Returns the line that what an earlier run carried is at a path now.
fn finished_line(alloc: Global, path: &str) -> Result<String, Failure>
    ensures { OrMemory (λ line. string_bytes line ≡ finished_line path.now) result }
{
    Ok(format!(in alloc; "carried before: {path}.new becomes {path}\n")?)
}
