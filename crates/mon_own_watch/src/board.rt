//! The board of an image by the watch that it names itself.

ghost use Rattle.std.specs.Prelude.{◌≡◌, IfErr, IfOk};
ghost use Rattle.mon_board.specs.Watch.{Watch as AnyWatch};
ghost use Rattle.mon_own_watch.specs.Named.{IsUnnamed};
ghost use Rattle.mon_own_watch.specs.Own.{IsOwnBoard, NamesWatch};

use crate::laws;
use crate::reading::own_watch;
use mon_board::Board;
use mon_saved::{ImageFault, read_image};
use std::alloc::Global;

/// Returns a board of the watch that the octets of an image, all of them, name themselves in
/// version 1 or 2, with all samples of the image. No sample is marked.
///
/// # Errors
/// As of `own_watch`.
pub fn own_board(alloc: Global, octets: &[u8]) -> Result<Board, ImageFault>
    ensures found { IfOk result (IsOwnBoard octets.now) }
    // If the octets name a watch, only memory can be refused.
    ensures only { (watch : AnyWatch) → NamesWatch octets.now watch
        → IfErr result (λ e. e ≡ ImageFault.OutOfMemory) }
    ensures fault { IfErr result (IsUnnamed octets.now) }
{
    laws::whole();
    let watch = own_watch(alloc, octets)?;
    let (board, _) = read_image(alloc, &watch, octets)?;
    Ok(board)
}
