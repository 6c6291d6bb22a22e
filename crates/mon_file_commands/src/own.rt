//! The report of a station's file by what it holds itself, for a file whose settings are lost.

ghost use Rattle.std.specs.Prelude.{◌≡◌, IfErr, IfOk, Some, map, option_map};
ghost use Rattle.mon_disk.specs.Keeper.{found_body};
ghost use Rattle.mon_file_commands.specs.Own.{AreOwnLabels, IsBuiltIn, IsFaultOfBody, IsFaultOfFile, IsAgedReport, IsFileReport, IsOwn, IsOwnIn, IsOwnLabelled, IsOwnReport, IsOwnSaved, IsWayTo, in_memory, own_report};
ghost use Rattle.mon_host.specs.Log.{GoesOnBy};
ghost use Rattle.mon_labels.specs.Given.{given};

use crate::age::tell_age;
use crate::saved::{MORE_READS, file_failure, read_saved};
use mon_board::Board;
use mon_cli::Printed;
use mon_console::{Failure, KnownNames, Printing, labels_in, print};
use mon_disk::{Keeper, KeeperFault, MemoryDisk};
use mon_formats::InstanceLabels;
use mon_host::Host;
use mon_labels::{Labels, Reached};
use mon_own_watch::own_board;
use mon_station::StationFault;
use std::alloc::{AllocError, Global};

/// Prints the report of the windows in the file at a path by what it holds itself, without alarms,
/// and says on standard error how long ago it was saved. The file is only read.
pub(crate) fn print_file_report<H: Host>(
    alloc: Global,
    host: &mut H,
    path: &str,
    labels: Option<&str>,
    printed: Printed<'_, '_>,
) -> Result<(), Failure>
    ensures { GoesOnBy (λ log. IsFileReport path.now (option_map (λ l. l.now) labels.entry)
        printed.entry log result) (H.log host.old) (H.log host.new) }
{
    let (printing, labels) = read_way(alloc, host, labels, printed)?;
    print_own(alloc, host, path, printing, &labels)
}

/// Reads how reports are printed, by the built-in names and those of the modules that the arguments
/// give, and then the labels of interfaces.
fn read_way<H: Host>(
    alloc: Global,
    host: &mut H,
    labels: Option<&str>,
    printed: Printed<'_, '_>,
) -> Result<(Printing, Labels), Failure>
    ensures { GoesOnBy (λ log. IsWayTo (option_map (λ l. l.now) labels.entry) printed.entry
        log result) (H.log host.old) (H.log host.new) }
{
    let known = built_in(alloc)?;
    let printing = Printing::of(alloc, host, printed, known, &[])?;
    let labels = labels_in(alloc, host, labels)?;
    Ok((printing, labels))
}

/// Returns the built-in names.
fn built_in(alloc: Global) -> Result<KnownNames, Failure>
    ensures { IsBuiltIn result }
{
    Ok(KnownNames::new(alloc)?)
}

/// Prints the report of the windows in the file at a path, with how old it is, which is said too.
fn print_own<H: Host>(
    alloc: Global,
    host: &mut H,
    path: &str,
    printing: Printing,
    labels: &Labels,
) -> Result<(), Failure>
    ensures { GoesOnBy (λ log. IsOwnReport path.now printing labels.now log result)
        (H.log host.old) (H.log host.new) }
{
    let own = own_in_file(alloc, host, path)?;
    let printing = labelled(alloc, printing, labels, &own)?;
    print_aged(alloc, host, path, printing, &own)
}

/// Prints the report of what a file at a path holds, with how old it is, which is said too.
fn print_aged<H: Host>(
    alloc: Global,
    host: &mut H,
    path: &str,
    printing: Printing,
    own: &Option<Board>,
) -> Result<(), Failure>
    ensures { GoesOnBy (λ log. IsAgedReport path.now own.now printing log result)
        (H.log host.old) (H.log host.new) }
{
    let age = tell_age(host, path);
    let printing = printing.with_file_age(age);
    let text = own_text(alloc, &printing, own)?;
    print(alloc, host, text.as_slice())
}

/// Returns the report of what a file holds: of no instances if no save was finished.
fn own_text(alloc: Global, printing: &Printing, own: &Option<Board>) -> Result<Vec<u8>, AllocError>
    ensures { IfOk result (λ text. text.items ≡ own_report printing.now own.now) }
{
    match own {
        None => printing.text(alloc, &[], None),
        Some(board) => printing.report(alloc, board, None),
    }
}

/// Adds the labels of interfaces to how the report of a file is printed.
fn labelled(
    alloc: Global,
    printing: Printing,
    labels: &Labels,
    own: &Option<Board>,
) -> Result<Printing, Failure>
    ensures { IsOwnLabelled own.now labels.now printing result }
{
    match own_labels(alloc, labels, own) {
        Ok(all) => Ok(printing.with_labels(all, None)),
        Err(error) => Err(Failure::from(error)),
    }
}

/// Returns the labels of the instances in a file: those of interfaces, since no target is known.
fn own_labels(
    alloc: Global,
    labels: &Labels,
    own: &Option<Board>,
) -> Result<Vec<InstanceLabels>, AllocError>
    ensures { IfOk result (λ all. AreOwnLabels own.now labels.now (map given all.items)) }
{
    let reached = Reached {
        targets: &[],
        addresses: &[],
        devices: &[],
    };
    match own {
        None => Ok(Vec::new(alloc)),
        Some(board) => labels.of_instances(alloc, board.watch().instances(), reached),
    }
}

/// Reads what the file at a path holds, which is only read.
fn own_in_file<H: Host>(alloc: Global, host: &mut H, path: &str) -> Result<Option<Board>, Failure>
    ensures { GoesOnBy (λ log. IsOwnSaved path.now log result) (H.log host.old) (H.log host.new) }
{
    let octets = read_saved(alloc, host, path, MORE_READS)?;
    own_in(alloc, path, octets.as_slice())
}

/// Returns what the octets of the file at a path hold.
fn own_in(alloc: Global, path: &str, octets: &[u8]) -> Result<Option<Board>, Failure>
    ensures { IsOwnIn octets.now result }
{
    match own_found(alloc, octets) {
        Ok(own) => Ok(own),
        Err(fault) => Err(file_failure(alloc, path, fault)),
    }
}

/// Returns the board of the body that is found in the octets of a file, by its own watch; `None` if
/// no save was finished. The file is not written: it is opened as a disk in memory.
fn own_found(alloc: Global, octets: &[u8]) -> Result<Option<Board>, StationFault>
    ensures found { IfOk result (IsOwn (found_body octets.now)) }
    ensures fault { IfErr result (IsFaultOfFile octets.now) }
{
    let disk = MemoryDisk::new(alloc, octets)?;
    match Keeper::open(alloc, disk) {
        Ok((_, body)) => own_of(alloc, body),
        Err(error) => Err(in_memory(error.fault)),
    }
}

/// Returns the fault of an opening of a disk in memory, which only fails if memory runs out.
fn in_memory(fault: KeeperFault) -> StationFault
    ensures { result ≡ in_memory fault }
{
    match fault {
        KeeperFault::DiskFault => StationFault::OutOfMemory,
        other => StationFault::from(other),
    }
}

/// Returns the board of a body by its own watch, `None` if there is no body.
fn own_of(alloc: Global, body: Option<Vec<u8>>) -> Result<Option<Board>, StationFault>
    ensures found { IfOk result (IsOwn (option_map (λ v. v.items) body)) }
    ensures fault { IfErr result (IsFaultOfBody (option_map (λ v. v.items) body)) }
{
    match body {
        None => Ok(None),
        Some(body) => board_of_body(alloc, body.as_slice()),
    }
}

/// Returns the board of a body by its own watch.
fn board_of_body(alloc: Global, body: &[u8]) -> Result<Option<Board>, StationFault>
    ensures found { IfOk result (IsOwn (Some body.now)) }
    ensures fault { IfErr result (IsFaultOfBody (Some body.now)) }
{
    match own_board(alloc, body) {
        Ok(board) => Ok(Some(board)),
        Err(fault) => Err(StationFault::from(fault)),
    }
}
