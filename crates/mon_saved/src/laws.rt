//! Laws of images. Each is a function that does nothing.

ghost use Rattle.std.specs.Prelude.{◌≡◌, ℕ, List};
ghost use Rattle.mon_board.specs.Board.{Board as AnyBoard, window_of};
ghost use Rattle.mon_board.specs.Instance.{instances_of};
ghost use Rattle.mon_board.specs.Watch.{Watch as AnyWatch};
ghost use Rattle.mon_board.specs.Windows.{IsWhole, set_of, kept_by};
ghost use Rattle.mon_board.specs.declared.instance.Instance.{Instance as AnyInstance};
ghost use Rattle.mon_saved.specs.declared.image.Image.{Image as AnyImage};
ghost use Rattle.mon_saved.specs.Image.{SpellsImage};
ghost use Rattle.mon_saved.specs.Restored.{IsRestored, saved_pairs};
ghost use Rattle.mon_saved.specs.Written.{image_of, written_image};

/// Octets spell at most one image of given instances, whatever its version.
pub fn one_image()
    ensures { (octets : List ℕ) (instances : List AnyInstance) (a b : AnyImage)
        → SpellsImage octets instances a → SpellsImage octets instances b → a ≡ b }
{
    mon_fields::laws::samples();
}

/// The image of a board has the samples of its windows.
pub fn saved_windows()
    ensures { (board : AnyBoard) (incarnation : ℕ) → ((i : ℕ)
        → IsWhole board.watch (window_of board) i)
        → (i : ℕ) → set_of i (saved_pairs (image_of board incarnation)) ≡ window_of board i }
{}

/// What is written of a board is read back as its incarnation and, under a watch of the same
/// instances, as what that watch keeps of its windows: under its own watch, as its windows.
pub fn read_back()
    ensures kept { (watch : AnyWatch) (board again : AnyBoard) (incarnation read : ℕ)
        → ((i : ℕ) → IsWhole board.watch (window_of board) i)
        → instances_of watch.instances ≡ instances_of board.watch.instances
        → SpellsImage (written_image board incarnation) (instances_of board.watch.instances)
        (image_of board incarnation)
        → IsRestored watch (written_image board incarnation) again read
        → (read ≡ incarnation) × ((i : ℕ)
        → window_of again i ≡ kept_by watch i (window_of board i)) }
    ensures same { (board again : AnyBoard) (incarnation read : ℕ)
        → ((i : ℕ) → IsWhole board.watch (window_of board) i)
        → SpellsImage (written_image board incarnation) (instances_of board.watch.instances)
        (image_of board incarnation)
        → IsRestored board.watch (written_image board incarnation) again read
        → (read ≡ incarnation) × ((i : ℕ) → window_of again i ≡ window_of board i) }
{
    one_image();
}
