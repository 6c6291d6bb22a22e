//! What the old file holds.

ghost use Rattle.std.specs.Prelude.{◌≡◌, ◌+◌, ◌↔◌, Err, Some, option_map, IfErr, IfOk};
ghost use Rattle.mon_carry.specs.Fault.{IsFaultOfBody, IsFaultOfOld, in_memory};
ghost use Rattle.mon_saved.specs.Restored.{IsRestored};
ghost use Rattle.mon_carry.specs.Files.{IsBoardIn, IsFoundIn, IsNothing};

use crate::fault::CarryFault;
use mon_board::{Board, Watch};
use mon_disk::{Keeper, KeeperFault, MemoryDisk};
use mon_saved::read_image;
use std::alloc::Global;

/// The windows of a watch, and the incarnation of the station that saved them.
#[derive(Drop)]
pub struct Saved {
    /// The windows. Nothing is marked.
    pub board: Board,
    /// The incarnation, 0 if nothing was saved.
    pub incarnation: u32,
}

/// Returns what an opening finds in a file of these octets: empty windows and incarnation 0 if
/// nothing was saved. The file is not written: it is opened as a disk in memory.
///
/// # Errors
/// `OutOfMemory`; `Keeper` with `Damaged` if the file is damaged; `Image` if what is found is no
/// image of the watch's instances.
pub fn read_old(alloc: Global, watch: &Watch, octets: &[u8]) -> Result<Saved, CarryFault>
    ensures found { IfOk result
        (λ saved. IsFoundIn watch.now octets.now saved.board saved.incarnation) }
    ensures fault { IfErr result (IsFaultOfOld watch.now octets.now) }
{
    let disk = MemoryDisk::new(alloc, octets)?;
    match Keeper::open(alloc, disk) {
        Ok((_, body)) => saved_in(alloc, watch, body),
        Err(error) => Err(in_memory(CarryFault::from(error.fault))),
    }
}

/// Returns the incarnation after a saved one.
///
/// # Errors
/// `NoMoreIncarnations` after the greatest, 4294967295.
pub fn next_incarnation(saved: u32) -> Result<u32, CarryFault>
    ensures next { IfOk result (λ n. n ≡ saved + 1) }
    ensures none { (result ≡ Err CarryFault.NoMoreIncarnations) ↔ (saved ≡ 4294967295) }
    ensures fault { IfErr result (λ e. e ≡ CarryFault.NoMoreIncarnations) }
{
    if saved == u32::MAX {
        return Err(CarryFault::NoMoreIncarnations);
    }
    Ok(saved + 1)
}

/// Returns a fault over a disk in memory, which only fails if memory runs out.
fn in_memory(fault: CarryFault) -> CarryFault
    ensures { result ≡ in_memory fault }
{
    match fault {
        CarryFault::Keeper(KeeperFault::DiskFault) => CarryFault::OutOfMemory,
        other => other,
    }
}

/// Returns what a body holds: nothing if there is no body.
fn saved_in(alloc: Global, watch: &Watch, body: Option<Vec<u8>>) -> Result<Saved, CarryFault>
    ensures found { IfOk result (λ saved. IsBoardIn watch.now
        (option_map (λ v. v.items) body) saved.board saved.incarnation) }
    ensures fault { IfErr result (IsFaultOfBody watch.now (option_map (λ v. v.items) body)) }
{
    match body {
        Some(octets) => saved_image(alloc, watch, octets.as_slice()),
        None => saved_nothing(alloc, watch),
    }
}

/// Returns what is held by a file in which nothing was saved.
fn saved_nothing(alloc: Global, watch: &Watch) -> Result<Saved, CarryFault>
    ensures found { IfOk result (λ saved. IsNothing watch.now saved.board saved.incarnation) }
    ensures fault { IfErr result (λ e. e ≡ CarryFault.OutOfMemory) }
{
    let board = Board::new(alloc, watch.try_clone(alloc)?)?;
    Ok(Saved {
        board,
        incarnation: 0,
    })
}

/// Returns the windows and the incarnation of an image.
fn saved_image(alloc: Global, watch: &Watch, octets: &[u8]) -> Result<Saved, CarryFault>
    ensures found { IfOk result
        (λ saved. IsRestored watch.now octets.now saved.board saved.incarnation) }
    ensures fault { IfErr result (IsFaultOfBody watch.now (Some octets.now)) }
{
    match read_image(alloc, watch, octets) {
        Ok((board, incarnation)) => Ok(Saved { board, incarnation }),
        Err(fault) => Err(CarryFault::from(fault)),
    }
}
