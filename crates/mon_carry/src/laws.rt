//! Laws of what is carried, of any watch. Each is a function that does nothing.

ghost use Rattle.std.specs.Prelude.{◌≡◌, ◌<◌, ◌≤◌, ℕ, List, [], Some, Contains, length, slice_get};
ghost use Rattle.std.specs.List.Sorted.{IsStrictlySortedBy};
ghost use Rattle.mon_board.specs.Board.{Board as AnyBoard, window_of};
ghost use Rattle.mon_board.specs.Instance.{instance_cmp, instances_of};
ghost use Rattle.mon_board.specs.Watch.{Watch as AnyWatch, epoch_of, size_of};
ghost use Rattle.mon_board.specs.Windows.{IsWhole};
ghost use Rattle.mon_board.specs.declared.instance.Instance.{Instance as AnyInstance};
ghost use Rattle.mon_carry.specs.Carried.{carried_window, watched_at, window_at};
ghost use Rattle.mon_carry.specs.Files.{FindsImage, IsFoundIn};

/// An equal watch is given equal windows, if no engine is dropped.
pub fn same_watch()
    ensures { (old : AnyBoard) (i : ℕ)
        → IsStrictlySortedBy instance_cmp (instances_of old.watch.instances)
        → IsWhole old.watch (window_of old) i
        → i < length old.watch.instances → carried_window old old.watch [] i ≡ window_of old i }
{}

/// A window that is no smaller, with an epoch that is no smaller, is given all of the old one.
pub fn nothing_lost()
    ensures { (old : AnyBoard) (watch : AnyWatch) (i j : ℕ) (x : AnyInstance)
        → slice_get (instances_of watch.instances) i ≡ Some x
        → watched_at old.watch x ≡ Some j → IsWhole old.watch (window_of old) j
        → size_of old.watch j ≤ size_of watch i → epoch_of old.watch j ≤ epoch_of watch i
        → carried_window old watch [] i ≡ window_of old j }
{
    mon_window::laws::bound();
}

/// Old boards that have equal windows of the instances of a watch give it equal windows, whatever
/// else they watch.
pub fn carry_alike()
    ensures { (a b : AnyBoard) (watch : AnyWatch) (dropped : List (List ℕ))
        → ((x : AnyInstance) → Contains (instances_of watch.instances) x
        → window_at a x ≡ window_at b x)
        → (i : ℕ) → carried_window a watch dropped i ≡ carried_window b watch dropped i }
{}

/// What is read of a file in which an image is found is its windows and its incarnation.
pub fn found_again()
    ensures { (board again : AnyBoard) (incarnation read : ℕ) (file : List ℕ)
        → ((i : ℕ) → IsWhole board.watch (window_of board) i)
        → FindsImage board incarnation file → IsFoundIn board.watch file again read
        → (read ≡ incarnation) × ((i : ℕ) → window_of again i ≡ window_of board i) }
{
    mon_saved::laws::read_back();
}
