//! A board from what an image says.

ghost use Rattle.std.specs.Prelude.{◌≡◌, ℕ, IfOk, IfErr, length};
ghost use Rattle.mon_board.specs.Board.{window_of};
ghost use Rattle.mon_board.specs.Instance.{instances_of};
ghost use Rattle.mon_board.specs.Windows.{joined};
ghost use Rattle.mon_saved.specs.declared.fault.ImageFault.TheVariants.{OutOfMemory};
ghost use Rattle.mon_saved.specs.declared.image.Image.{Image as AnyImage};
ghost use Rattle.mon_saved.specs.Image.{SpellsImage};
ghost use Rattle.mon_saved.specs.Reading.{Fails, image_at};
ghost use Rattle.mon_saved.specs.Restored.{IsRestored, IsUnmarked, pairs_from};

use crate::fault::ImageFault;
use crate::image::Entry;
use crate::reading::read;
use mon_board::{Board, Watch, laws};
use std::alloc::Global;

/// The board of the watch and the incarnation that the octets, all of them, spell in version 1 or
/// 2: of each instance what the watch keeps of the image's samples, whatever sizes the image has;
/// no sample is marked. Otherwise the first fault from the left, and nothing is kept.
pub fn read_image(alloc: Global, watch: &Watch, octets: &[u8]) -> Result<(Board, u32), ImageFault>
    ensures found { IfOk result (λ r. IsRestored watch.now octets.now r.0 r.1) }
    // Where the octets spell an image of the watch's instances, only memory can be refused.
    ensures only { (image : AnyImage) → SpellsImage octets.now (instances_of watch.now.instances)
        image → IfErr result (λ e. e ≡ OutOfMemory) }
    // Which fault it is: the first from left to right.
    ensures fault { IfErr result (λ e. Fails e (image_at (instances_of watch.now.instances)
        octets.now)) }
{
    let image = read(alloc, watch, octets)?;
    let mut board = Board::new(alloc, watch.try_clone(alloc)?)?;
    fill(&mut board, image.entries.as_slice());
    Ok((board, image.incarnation))
}

/// Takes the samples of an entry for each instance in.
fn fill(board: &mut Board, entries: &[Entry])
    requires { length entries.now ≡ length board.old.watch.instances }
    ensures watch { board.new.watch ≡ board.old.watch }
    ensures windows { (i : ℕ) → window_of board.new i ≡ joined board.old.watch (window_of board.old)
        (pairs_from 0 entries.now) i }
    ensures unmarked { IsUnmarked board.old → IsUnmarked board.new }
{
    laws::taken_in_turn();
    // Proof: the invariant of the watch.
    let _ = board.watch().instances();
    for k in 0..entries.len() {
        board.take_all(k as u16, entries[k].samples.as_slice());
    }
}
