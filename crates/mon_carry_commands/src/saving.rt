//! The first save of a station's file.

ghost use Rattle.std.specs.Prelude.{◌≡◌, ◌≤◌, ◌++◌, codes, false};
ghost use Rattle.mon_console.specs.Failure.{HasLine};
ghost use Rattle.mon_faults.specs.Fault.{innermost_of};
ghost use Rattle.mon_carry_commands.specs.Faults.{IsCarryFault, IsOfCarry};
ghost use Rattle.mon_carry_commands.specs.Saving.{IsSaving, IsSavingUnless};

use crate::disks::OpensDisks;
use crate::load::{Load, fault_of, file_failure};
use mon_board::Board;
use mon_carry::{CarryFault, save_first};
use mon_console::{Failure, Fault};
use mon_disk::{KeeperFault, OpenFault};
use mon_host::Reason;
use mon_station::Innermost;
use std::alloc::Global;
use std::io;

/// Saves windows as the first ones of a file. What was asked and answered only this call shows.
pub trait Saves {
    ghost use Rattle.std.specs.Prelude.{ℕ, List, Result, IfErr, ◌≤◌};
    ghost use Rattle.mon_board.specs.Board.{Board as AnyBoard};
    ghost use Rattle.mon_console.specs.declared.failure.Failure.{Failure as AnyFailure};
    ghost use Rattle.mon_carry_commands.specs.Saving.{IsUnsaved};

    // It was asked to save these windows with an incarnation as the first ones of the file at a
    // path, and this is what it answered.
    ghost asked_save: { Self → List ℕ → AnyBoard → ℕ → Result Unit AnyFailure → Type 0 };

    /// Saves windows with this incarnation in the file at a path, which must hold no save.
    ///
    /// # Errors
    /// `InUse` if another process has the file open; the system's error if it cannot be opened;
    /// `AlreadySaved` if it holds a save, and is then as it was; `OutOfMemory`; `Damaged` if it is
    /// damaged; `DiskFault` if the disk failed: then the windows may be saved or not.
    fn save(
        &self,
        alloc: Global,
        path: &str,
        board: &Board,
        incarnation: u32,
    ) -> Result<(), Failure>
        requires positive { 1 ≤ incarnation }
        ensures asked { asked_save self.now path.now board.now incarnation result }
        ensures failure { IfErr result (IsUnsaved path.now) };
}

/// Files that are opened as disks, to save in.
#[derive(Clone, Copy)]
pub struct Disks<'a, O> {
    opener: &'a O,
}

impl<'a, O> Disks<'a, O> {
    /// Returns what saves on the disks that are opened by this.
    pub fn new(opener: &'a O) -> Self
        ensures { result.opener.now ≡ opener.now }
    {
        Disks { opener }
    }
}

impl<'a, O: OpensDisks> Saves for Disks<'a, O> {
    ghost use Rattle.mon_carry_commands.specs.FirstSave.{IsSave};

    ghost asked_save = { λ disks. IsSave O.Disk.Disk (O.asked_disk disks.opener.now) };

    fn save(
        &self,
        alloc: Global,
        path: &str,
        board: &Board,
        incarnation: u32,
    ) -> Result<(), Failure> {
        match self.opener.open_or_create(path) {
            Ok(disk) => match save_first(alloc, board, incarnation, disk) {
                Ok(_) => Ok(()),
                Err((fault, disk)) => {
                    let error = self.opener.last_error(&disk);
                    Err(unsaved(alloc, path, fault, error))
                }
            },
            Err(OpenFault::InUse) => Err(in_use(alloc, path)),
            Err(OpenFault::System(error)) => {
                Err(Failure::stream(alloc, path, Reason::of(alloc, error)))
            }
        }
    }
}

/// What a command has: memory, and what saves windows.
#[derive(Drop)]
pub(crate) struct Means<'k, K> {
    pub(crate) alloc: Global,
    pub(crate) disks: &'k K,
}

/// Saves what is carried in the file at a path, which must hold no save; or does nothing.
pub(crate) fn save_unless<K: Saves>(
    means: &Means<'_, K>,
    skips: bool,
    path: &str,
    load: &Load,
) -> Result<(), Failure>
    requires { 1 ≤ load.now.incarnation }
    ensures { IsSavingUnless (K.asked_save means.now.disks.now) skips path.now load.now result }
{
    if skips {
        return Ok(());
    }
    save_load(means, path, load)
}

/// Saves what is carried in the file at a path, which must hold no save.
pub(crate) fn save_load<K: Saves>(
    means: &Means<'_, K>,
    path: &str,
    load: &Load,
) -> Result<(), Failure>
    requires { 1 ≤ load.now.incarnation }
    ensures { IsSaving (K.asked_save means.now.disks.now) path.now load.now result }
{
    means
        .disks
        .save(means.alloc, path, &load.board, load.incarnation)
}

/// Returns the failure of a station's file that another process has open.
fn in_use(alloc: Global, path: &str) -> Failure
    ensures part { (innermost_of result.fault).part ≡ codes "mon_disk" }
    ensures number { (innermost_of result.fault).number ≡ 7 }
    ensures name { (innermost_of result.fault).name ≡ codes "InUse" }
    ensures more { HasLine (path.now
        ++ codes ": another process has the file open as a station's") result.more }
    ensures whole { result.is_cut ≡ false }
{
    let innermost = Innermost::new("mon_disk", OpenFault::IN_USE_NUMBER, OpenFault::IN_USE_NAME);
    Failure::said(
        Fault::Other(innermost),
        format!(in alloc; "{path}: another process has the file open as a station's"),
    )
}

/// Returns why the windows were not saved in the file at a path, with the system's last error if
/// the disk failed.
fn unsaved(alloc: Global, path: &str, fault: CarryFault, error: Option<io::Error>) -> Failure
    ensures { IsOfCarry fault result }
{
    match fault {
        CarryFault::Keeper(KeeperFault::DiskFault) => {
            let whole = fault_of(fault);
            match error {
                Some(error) => Failure::said(whole, format!(in alloc; "{path}: {whole}: {error}")),
                None => Failure::at(alloc, path, whole),
            }
        }
        CarryFault::AlreadySaved => Failure::said(
            fault_of(fault),
            format!(in alloc; "{path}: {fault}"),
        ),
        _ => file_failure(alloc, path, fault),
    }
}
