//! Laws of the watch that an image names itself. Each is a function that does nothing.

ghost use Rattle.std.specs.Prelude.{◌≡◌, ℕ, List};
ghost use Rattle.std.specs.List.{AllByRecursion};
ghost use Rattle.mon_board.specs.Board.{Board as AnyBoard, window_of};
ghost use Rattle.mon_board.specs.Instance.{instances_of};
ghost use Rattle.mon_board.specs.Watch.{IsWatch, Watch as AnyWatch};
ghost use Rattle.mon_board.specs.Windows.{set_of, window};
ghost use Rattle.mon_saved.specs.declared.image.Image.{Image as AnyImage};
ghost use Rattle.mon_saved.specs.Image.{SpellsImage};
ghost use Rattle.mon_saved.specs.Restored.{IsRestored, saved_pairs};
ghost use Rattle.mon_saved.specs.Written.{image_of, written_image};
ghost use Rattle.mon_own_watch.specs.Own.{HasName, NamesWatch, bare_watch};

/// Octets name at most one watch.
pub fn one_watch()
    ensures { (octets : List ℕ) (a b : AnyWatch) → NamesWatch octets a → NamesWatch octets b
        → a ≡ b }
{
    mon_fields::laws::samples();
}

/// With the watch that an image names itself all of its samples are kept, in each window.
pub fn whole()
    ensures kept { (octets : List ℕ) (watch : AnyWatch) (image : AnyImage) → NamesWatch octets watch
        → SpellsImage octets (instances_of watch.instances) image
        → (i : ℕ) → window watch (saved_pairs image) i ≡ set_of i (saved_pairs image) }
    ensures restored { (octets : List ℕ) (watch : AnyWatch) (board : AnyBoard) (incarnation : ℕ)
        → NamesWatch octets watch → (read : IsRestored watch octets board incarnation)
        → (i : ℕ) → window_of board i ≡ set_of i (saved_pairs read.image) }
{
    mon_saved::laws::one_image();
}

/// What is written of a board names its watch, without the rules and the discontinuities.
pub fn written()
    ensures { (board : AnyBoard) (incarnation : ℕ) → IsWatch board.watch
        → AllByRecursion HasName board.watch.instances
        → SpellsImage (written_image board incarnation) (instances_of board.watch.instances)
        (image_of board incarnation)
        → NamesWatch (written_image board incarnation) (bare_watch board.watch) }
{}
