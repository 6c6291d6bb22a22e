//! The reports of a running station.

ghost use Rattle.std.specs.Prelude.{◌≡◌, [], IfOk, None, OnOk, false, option_map, string_bytes};
ghost use Rattle.mon_board.specs.Board.{window_of};
ghost use Rattle.mon_host.specs.Log.{GoesOnBy};
ghost use Rattle.mon_formats.specs.Formats.{report_in};
ghost use Rattle.mon_formats.specs.declared.format.Format.TheVariants.{Text};
ghost use Rattle.mon_console.specs.Shown.{shown_by};
ghost use Rattle.mon_page.specs.declared.extras.Presentation.{Presentation};
ghost use Rattle.mon_station.specs.State.{state_of};
ghost use Rattle.mon_station_commands.specs.Reporting.{IsAgain, IsChangeOut, IsFiled, IsOut, IsReportOf, IsReported, IsUnwritten, failed_by, is_known};
ghost use Rattle.mon_station_commands.specs.Rounds.{IsLastReport, moment_of};
ghost use Rattle.mon_station_commands.specs.Steps.{IsKeptOf, IsSaidOf, kept_after};

use crate::figures::make_figures;
use crate::live::Live;
use mon_board::Board;
use mon_console::{Failure, print, publish_file};
use mon_host::{Host, Level};
use mon_report::{announced_entries, write_report};
use mon_rounds::Receiver;
use mon_station::Outbox;
use std::alloc::{AllocError, Global};

/// Prints the report between two rounds. What goes wrong is reported, and the station goes on. If a
/// report could not be printed, that is kept, except if memory ran out.
pub(crate) fn print_between<H: Host, S: Receiver + Drop, O: Outbox + Drop>(
    alloc: Global,
    host: &mut H,
    live: &mut Live<S, O>,
)
    ensures printed { GoesOnBy (λ log. IsKeptOf (IsReported (IsReportOf
        (state_of live.old.station.life) live.old.course
        live.old.freshness live.old.transport.peers.items live.old.transport.engines.items
        live.old.ended live.old.kept.round_at live.old.reports))
        live.old.kept.unprinted log live.new.kept.unprinted) (H.log host.old) (H.log host.new) }
    ensures kept { live.new.kept ≡ record live.old.kept { unprinted = live.new.kept.unprinted } }
    ensures format { live.new.reports.printing ≡ live.old.reports.printing }
    ensures paths { live.new.reports.paths ≡ live.old.reports.paths }
{
    let done = print_report(alloc, host, live);
    let failure = said(host, done);
    live.kept.unprinted = kept_after(live.kept.unprinted.take(), failure);
}

/// Returns the failure that is kept: the new one, except if memory ran out, or else the one before.
fn kept_after(before: Option<Failure>, failure: Option<Failure>) -> Option<Failure>
    ensures { result ≡ kept_after before failure }
{
    match failure {
        None => before,
        Some(failure) => {
            if failure.is_of_memory() {
                before
            } else {
                Some(failure)
            }
        }
    }
}

/// Says a failure, if there is one, and returns it.
pub(crate) fn said<H: Host>(host: &mut H, done: Result<(), Failure>) -> Option<Failure>
    ensures { GoesOnBy (λ log. IsSaidOf done log result) (H.log host.old) (H.log host.new) }
{
    match done {
        Ok(()) => None,
        Err(failure) => {
            failure.report(host, Level::Warning);
            Some(failure)
        }
    }
}

/// Prints the report of a station's windows. Lines of text with names in numbers are made in the
/// station's buffer for them.
pub(crate) fn print_report<H: Host, S: Receiver + Drop, O: Outbox + Drop>(
    alloc: Global,
    host: &mut H,
    live: &mut Live<S, O>,
) -> Result<(), Failure>
    ensures report { GoesOnBy (λ log. IsReported (IsReportOf (state_of live.old.station.life)
        live.old.course
        live.old.freshness live.old.transport.peers.items live.old.transport.engines.items
        live.old.ended live.old.kept.round_at live.old.reports)
        log result) (H.log host.old) (H.log host.new) }
    ensures kept { live.new.kept ≡ live.old.kept }
    ensures format { live.new.reports.printing ≡ live.old.reports.printing }
    ensures paths { live.new.reports.paths ≡ live.old.reports.paths }
{
    if live.reports.printing.is_plain() {
        put_lines(&mut live.reports.lines, live.station.board())?;
        return print(alloc, host, live.reports.lines.as_slice());
    }
    let text = report_text(alloc, live)?;
    print(alloc, host, text.as_slice())
}

/// Prints the report after the last round: as a table, if standard output is a terminal and the
/// arguments name no format.
pub(crate) fn print_last<H: Host, S: Receiver + Drop, O: Outbox + Drop>(
    alloc: Global,
    host: &mut H,
    live: &mut Live<S, O>,
) -> Result<(), Failure>
    ensures report { GoesOnBy (λ log. IsLastReport (moment_of (state_of live.old.station.life)
        live.old.course
        live.old.freshness live.old.transport.peers.items live.old.transport.engines.items
        live.old.ended live.old.kept.round_at live.old.reports)
        log result) (H.log host.old) (H.log host.new) }
    ensures kept { live.new.kept ≡ live.old.kept }
{
    live.reports.printing.fit_output(host);
    print_report(alloc, host, live)
}

/// Makes the report of a board as lines of text, in place of what a buffer holds.
fn put_lines(lines: &mut Vec<u8>, board: &Board) -> Result<(), AllocError>
    ensures { (p : Presentation) → OnOk result (lines.new.items
        ≡ report_in Text (shown_by None) board.now.watch (window_of board.now) None [] p) }
{
    mon_formats::laws::names_in_numbers();
    lines.clear();
    match write_report(board, lines) {
        Ok(()) => Ok(()),
        Err(_) => Err(AllocError),
    }
}

/// Makes the report of a station's windows, of what was announced of its alarms, and of what it
/// says of itself.
fn report_text<S: Receiver + Drop, O: Outbox + Drop>(
    alloc: Global,
    live: &Live<S, O>,
) -> Result<Vec<u8>, AllocError>
    ensures { IfOk result (λ text. IsReportOf (state_of live.now.station.life) live.now.course
        live.now.freshness live.now.transport.peers.items live.now.transport.engines.items
        live.now.ended live.now.kept.round_at live.now.reports text.items) }
{
    let figures = make_figures(alloc, live)?;
    let states = live.course.announced(alloc)?;
    let entries = announced_entries(alloc, live.station.board(), states.as_slice())?;
    live.reports
        .printing
        .text(alloc, entries.as_slice(), Some(&figures))
}

/// Writes the report to the file that the arguments name, if they name one, after the round of this
/// number. Why that could not be done is kept until a report is written; a failure that is new is
/// said, and so is its end.
pub(crate) fn write_out<H: Host, S: Receiver + Drop, O: Outbox + Drop>(
    alloc: Global,
    host: &mut H,
    live: &mut Live<S, O>,
    round: u32,
)
    ensures written { GoesOnBy (λ log. IsOut round (option_map string_bytes
        live.old.reports.paths.out)
        (IsReportOf (state_of live.old.station.life) live.old.course
        live.old.freshness live.old.transport.peers.items live.old.transport.engines.items
        live.old.ended live.old.kept.round_at live.old.reports)
        live.old.kept.unwritten log live.new.kept.unwritten) (H.log host.old) (H.log host.new) }
    ensures kept { live.new.kept ≡ record live.old.kept { unwritten = live.new.kept.unwritten } }
    ensures format { live.new.reports.printing ≡ live.old.reports.printing }
    ensures paths { live.new.reports.paths ≡ live.old.reports.paths }
{
    let before = live.kept.unwritten.take();
    live.kept.unwritten = try_write(alloc, host, live, round, &before);
}

/// Writes the report to the file that the arguments name, if they name one. Returns why that could
/// not be done, and says what changed in that.
fn try_write<H: Host, S: Receiver + Drop, O: Outbox + Drop>(
    alloc: Global,
    host: &mut H,
    live: &Live<S, O>,
    round: u32,
    before: &Option<Failure>,
) -> Option<Failure>
    ensures { GoesOnBy (λ log. IsOut round (option_map string_bytes live.now.reports.paths.out)
        (IsReportOf (state_of live.now.station.life) live.now.course
        live.now.freshness live.now.transport.peers.items live.now.transport.engines.items
        live.now.ended live.now.kept.round_at live.now.reports)
        before.now log result) (H.log host.old) (H.log host.new) }
{
    match &live.reports.paths.out {
        Some(path) => {
            let done = write_file(alloc, host, live, path);
            tell_change(host, round, path, before, &done);
            failed_by(done)
        }
        None => None,
    }
}

/// Returns why something was not done, if it wasn't.
fn failed_by(done: Result<(), Failure>) -> Option<Failure>
    ensures { result ≡ failed_by done }
{
    match done {
        Ok(()) => None,
        Err(failure) => Some(failure),
    }
}

/// Says of the file for reports that it is written again, or why it is not, where that is new.
fn tell_change<H: Host>(
    host: &mut H,
    round: u32,
    path: &str,
    before: &Option<Failure>,
    done: &Result<(), Failure>,
)
    ensures { GoesOnBy (IsChangeOut round path.now before.now done.now) (H.log host.old)
        (H.log host.new) }
{
    match done {
        Ok(()) => tell_written(host, round, path, before.is_some()),
        Err(failure) => {
            if !is_known(before, failure) {
                tell_unwritten(host, round, path, failure);
            }
        }
    }
}

/// Says that the file for reports is written again, if it was not.
fn tell_written<H: Host>(host: &mut H, round: u32, path: &str, failed: bool)
    ensures { GoesOnBy (IsAgain failed round path.now) (H.log host.old) (H.log host.new) }
{
    if failed {
        host.note(
            Level::Notice,
            format_args!("snmpmon: round {round}: {path} is written again\n"),
        );
    }
}

/// Says that the file for reports is not written, and why.
fn tell_unwritten<H: Host>(host: &mut H, round: u32, path: &str, failure: &Failure)
    ensures { GoesOnBy (IsUnwritten false round path.now failure.now) (H.log host.old)
        (H.log host.new) }
{
    host.note(
        Level::Warning,
        format_args!("snmpmon: round {round}: {path} is not written\n"),
    );
    failure.report(host, Level::Warning);
}

/// Returns `true` if a failure was said before: memory was refused both times, or neither time.
fn is_known(before: &Option<Failure>, failure: &Failure) -> bool
    ensures { result ≡ is_known before.now failure.now }
{
    match before {
        None => false,
        Some(before) => before.is_of_memory() == failure.is_of_memory(),
    }
}

/// Replaces the file at a path by the report, which all users may read.
fn write_file<H: Host, S: Receiver + Drop, O: Outbox + Drop>(
    alloc: Global,
    host: &mut H,
    live: &Live<S, O>,
    path: &str,
) -> Result<(), Failure>
    ensures { GoesOnBy (λ log. IsFiled path.now (IsReportOf (state_of live.now.station.life)
        live.now.course
        live.now.freshness live.now.transport.peers.items live.now.transport.engines.items
        live.now.ended live.now.kept.round_at live.now.reports)
        log result) (H.log host.old) (H.log host.new) }
{
    let text = report_text(alloc, live)?;
    publish_file(alloc, host, path, text.as_slice())
}
