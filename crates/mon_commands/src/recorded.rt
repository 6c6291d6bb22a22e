//! The command `replay`.

ghost use Rattle.std.specs.Prelude.{◌≡◌, ◌≤◌, IfOk};
ghost use Rattle.mon_host.specs.Log.{GoesOnBy};
ghost use Rattle.mon_commands.specs.Replaying.{AreRefused, IsBuiltIn, IsRecording, IsReplayReport, IsReplayed, IsReplaying, IsReported, PrintsReport, report_text};

use mon_app::Recorded;
use mon_cli::{Printed, ReplayArgs};
use mon_console::{Failure, KnownNames, Printing, print, read_input};
use mon_host::{Host, Level};
use std::alloc::{AllocError, Global};

/// Prints the windows of the responses on standard input, or their report if asked to.
pub fn print_recorded<H: Host>(
    alloc: Global,
    host: &mut H,
    words: ReplayArgs<'_, '_>,
) -> Result<(), Failure>
    requires { (1 ≤ words.size) × (words.size ≤ 64) }
    ensures { GoesOnBy (λ log. IsRecording words.entry log result)
        (H.log host.old) (H.log host.new) }
{
    let size = words.size as usize;
    if words.reports {
        replay_report(alloc, host, size, words.printed)
    } else {
        replay(alloc, host, size)
    }
}

/// Prints the windows of the responses on standard input.
fn replay<H: Host>(alloc: Global, host: &mut H, size: usize) -> Result<(), Failure>
    requires { (1 ≤ size) × (size ≤ 64) }
    ensures { GoesOnBy (λ log. IsReplaying size log result) (H.log host.old) (H.log host.new) }
{
    let input = read_input(alloc, host)?;
    let text = replayed(alloc, size, &input)?;
    print(alloc, host, &text)
}

/// The text of the windows of the responses that an input records.
fn replayed(alloc: Global, size: usize, input: &[u8]) -> Result<Vec<u8>, Failure>
    requires { (1 ≤ size) × (size ≤ 64) }
    ensures { IsReplayed size input.now result }
{
    Ok(mon_app::replay(alloc, size, input)?)
}

/// Prints the report of the responses on standard input. Refused lines come first, with lines of
/// text; with another format on standard error.
fn replay_report<H: Host>(
    alloc: Global,
    host: &mut H,
    size: usize,
    printed: Printed<'_, '_>,
) -> Result<(), Failure>
    requires { (1 ≤ size) × (size ≤ 64) }
    ensures { GoesOnBy (λ log. IsReplayReport size printed.entry log result)
        (H.log host.old) (H.log host.new) }
{
    let known = built_in(alloc)?;
    let printing = Printing::of(alloc, host, printed, known, &[])?;
    print_report(alloc, host, size, &printing)
}

/// The built-in names.
fn built_in(alloc: Global) -> Result<KnownNames, Failure>
    ensures { IsBuiltIn result }
{
    Ok(KnownNames::new(alloc)?)
}

/// What a replay keeps, and its report.
#[derive(Drop)]
struct Reported {
    recorded: Recorded,
    text: Vec<u8>,
}

/// Prints the report of the responses on standard input, in this way.
fn print_report<H: Host>(
    alloc: Global,
    host: &mut H,
    size: usize,
    printing: &Printing,
) -> Result<(), Failure>
    requires { (1 ≤ size) × (size ≤ 64) }
    ensures { GoesOnBy (λ log. PrintsReport size printing.now log result)
        (H.log host.old) (H.log host.new) }
{
    let input = read_input(alloc, host)?;
    let reported = report_of(alloc, size, &input, printing)?;
    put_refused(alloc, host, printing, reported.recorded.refused())?;
    print(alloc, host, &reported.text)
}

/// What a replay keeps of an input, and its report.
fn report_of(
    alloc: Global,
    size: usize,
    input: &[u8],
    printing: &Printing,
) -> Result<Reported, Failure>
    requires { (1 ≤ size) × (size ≤ 64) }
    ensures { IsReported size input.now printing.now result }
{
    let recorded = Recorded::read(alloc, size, input)?;
    let text = text_of(alloc, &recorded, printing)?;
    Ok(Reported { recorded, text })
}

/// The report of what a replay keeps.
fn text_of(alloc: Global, recorded: &Recorded, printing: &Printing) -> Result<Vec<u8>, AllocError>
    ensures { IfOk result (λ text. text.items ≡ report_text printing.now recorded.now) }
{
    let entries = recorded.entries(alloc)?;
    printing.text(alloc, entries.as_slice(), None)
}

/// Prints the lines that name what is refused, with lines of text; with another format they are
/// sent to standard error.
fn put_refused<H: Host>(
    alloc: Global,
    host: &mut H,
    printing: &Printing,
    refused: &str,
) -> Result<(), Failure>
    ensures { GoesOnBy (λ log. AreRefused printing.now.format refused.now log result)
        (H.log host.old) (H.log host.new) }
{
    if printing.is_text() {
        return print(alloc, host, refused.as_bytes());
    }
    host.note(Level::Warning, refused);
    Ok(())
}
