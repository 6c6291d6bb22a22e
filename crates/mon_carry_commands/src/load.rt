//! What is carried.

ghost use Rattle.std.specs.Prelude.{IfErr, IfOk};
ghost use Rattle.mon_carry_commands.specs.Faults.{IsCarryFault, IsOfCarry};
ghost use Rattle.mon_host.specs.Log.{GoesOnBy};
ghost use Rattle.mon_carry_commands.specs.Load.{IsFaultOfLoad, IsLoad, IsLoadOf, IsLoaded};

use mon_ber::Octets;
use mon_board::{Board, Watch};
use mon_carry::{Carried, CarryFault, carry_board, count_carried, next_incarnation, read_old};
use mon_console::{Failure, Fault};
use mon_file_commands::{MORE_READS, read_saved};
use mon_host::Host;
use mon_station::{Innermost, StationFault};
use std::alloc::Global;

/// A station's file and what it watches, what is watched from now on, and of which engines nothing
/// is carried.
#[derive(Clone, Copy)]
pub(crate) struct Task<'t> {
    pub(crate) path: &'t str,
    pub(crate) old: &'t Watch,
    pub(crate) new: &'t Watch,
    pub(crate) dropped: &'t [Octets],
}

/// What is carried: the windows with their incarnation, and how much it is.
pub(crate) struct Load {
    pub(crate) board: Board,
    pub(crate) incarnation: u32,
    pub(crate) carried: Carried,
}

// By hand: where one is let go, a proof has one call and not a drop of each field.
impl Drop for Load {
    fn drop(self) {
        let Load {
            board: _,
            incarnation: _,
            carried: _,
        } = self;
    }
}

/// Reads what is carried from a station's file, which is only read.
pub(crate) fn load_from<H: Host>(
    alloc: Global,
    host: &mut H,
    task: Task<'_>,
) -> Result<Load, Failure>
    ensures { GoesOnBy (λ log. IsLoaded task.entry.path.now task.entry.old.now task.entry.new.now
        task.entry.dropped.now log result) (H.log host.old) (H.log host.new) }
{
    let octets = read_saved(alloc, host, task.path, MORE_READS)?;
    load_in(alloc, task, octets.as_slice())
}

/// Returns what is carried from the octets of a station's file.
fn load_in(alloc: Global, task: Task<'_>, octets: &[u8]) -> Result<Load, Failure>
    ensures { IsLoad task.entry.old.now task.entry.new.now task.entry.dropped.now octets.now
        result }
{
    match load_of(alloc, task, octets) {
        Ok(load) => Ok(load),
        Err(fault) => Err(file_failure(alloc, task.path, fault)),
    }
}

/// Returns what is carried from the octets of a station's file.
fn load_of(alloc: Global, task: Task<'_>, octets: &[u8]) -> Result<Load, CarryFault>
    ensures load { IfOk result (IsLoadOf task.entry.old.now task.entry.new.now
        task.entry.dropped.now octets.now) }
    ensures fault { IfErr result (IsFaultOfLoad task.entry.old.now octets.now) }
{
    let old = read_old(alloc, task.old, octets)?;
    let incarnation = next_incarnation(old.incarnation)?;
    let new = task.new.try_clone(alloc)?;
    let board = carry_board(alloc, &old.board, new, task.dropped)?;
    let carried = count_carried(&old.board, &board, task.dropped);
    Ok(Load {
        board,
        incarnation,
        carried,
    })
}

/// Why windows were not carried from or to a file.
pub(crate) fn file_failure(alloc: Global, path: &str, fault: CarryFault) -> Failure
    ensures { IsOfCarry fault result }
{
    Failure::at(alloc, path, fault_of(fault))
}

/// Returns a fault of carrying as a command's.
pub(crate) fn fault_of(fault: CarryFault) -> Fault
    ensures { IsCarryFault fault result }
{
    match fault {
        CarryFault::OutOfMemory => Fault::Station(StationFault::OutOfMemory),
        CarryFault::Keeper(fault) => Fault::Keeper(fault),
        CarryFault::Image(fault) => Fault::Image(fault),
        CarryFault::NoMoreIncarnations => Fault::Station(StationFault::NoMoreIncarnations),
        CarryFault::AlreadySaved => Fault::Other(Innermost::new("mon_carry", 5, "AlreadySaved")),
    }
}
