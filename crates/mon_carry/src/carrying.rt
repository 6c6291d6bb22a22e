//! Carrying windows from a board to one of another watch.

ghost use Rattle.std.specs.Prelude.{◌≡◌, ◌≢◌, ◌<◌, ℕ, IfOk, IfSome, Some, length, slice_get};
ghost use Rattle.std.specs.FinSet as set;
ghost use Rattle.mon_board.specs.Board.{window_of};
ghost use Rattle.mon_board.specs.Instance.{instances_of};
ghost use Rattle.mon_saved.specs.Restored.{IsUnmarked};
ghost use Rattle.mon_carry.specs.Carried.{carried_window, is_dropped, source_of, watched_at};

use mon_ber::Octets;
use mon_board::{Board, Instance, Watch, laws};
use std::alloc::{AllocError, Global};

/// Returns a board of the watch, with what it keeps of the windows of an old board: of each
/// instance that both watches name, by engine and by name. The windows of other instances are
/// empty, and so are those of the dropped engines. Nothing is marked.
pub fn carry_board(
    alloc: Global,
    old: &Board,
    watch: Watch,
    dropped: &[Octets],
) -> Result<Board, AllocError>
    ensures watch { IfOk result (λ board. board.watch ≡ watch) }
    ensures windows { IfOk result (λ board.
        (i : ℕ) → window_of board i ≡ carried_window old.now watch dropped.now i) }
    ensures unmarked { IfOk result IsUnmarked }
{
    let mut board = Board::new(alloc, watch)?;
    carry_all(&mut board, old, dropped);
    Ok(board)
}

/// Carries the windows of all instances to a board that is empty.
fn carry_all(board: &mut Board, old: &Board, dropped: &[Octets])
    requires empty { (i : ℕ) → window_of board.old i ≡ set.empty }
    ensures watch { board.new.watch ≡ board.old.watch }
    ensures windows { (i : ℕ) → window_of board.new i
        ≡ carried_window old.now board.old.watch dropped.now i }
    ensures unmarked { IsUnmarked board.old → IsUnmarked board.new }
{
    let many = board.watch().instances().len();
    for i in 0..many {
        carry_one(board, old, dropped, i as u16);
    }
}

/// Carries the window of the instance at this place, which is empty yet. It changes no other
/// window.
fn carry_one(board: &mut Board, old: &Board, dropped: &[Octets], place: u16)
    requires place { place < length board.old.watch.instances }
    requires empty { window_of board.old place ≡ set.empty }
    ensures watch { board.new.watch ≡ board.old.watch }
    ensures carried { window_of board.new place
        ≡ carried_window old.now board.old.watch dropped.now place }
    ensures others { (i : ℕ) → i ≢ place → window_of board.new i ≡ window_of board.old i }
    ensures unmarked { IsUnmarked board.old → IsUnmarked board.new }
{
    laws::taken_in_turn();
    // Proof: the invariants of the board.
    let _ = board.watch().instances();
    if let Some(from) = source_at(board, old, dropped, place) {
        board.take_all(place, old.items(from));
    }
}

/// Returns the place in the old board of the window that the instance at this place is given.
fn source_at(board: &Board, old: &Board, dropped: &[Octets], place: u16) -> Option<u16>
    requires { place < length board.now.watch.instances }
    ensures source { result ≡ source_of old.now dropped.now
        (slice_get (instances_of board.now.watch.instances) place) }
    ensures within { IfSome result (λ j. j < length old.now.watch.instances) }
{
    let watched = &board.watch().instances()[usize::from(place)];
    source_of(old, dropped, &watched.instance)
}

/// Returns the place in the old board of the window that an instance is given: `None` if its engine
/// is dropped, or if the old watch does not name it.
pub(crate) fn source_of(old: &Board, dropped: &[Octets], instance: &Instance) -> Option<u16>
    ensures source { result ≡ source_of old.now dropped.now (Some instance.now) }
    ensures within { IfSome result (λ j. j < length old.now.watch.instances) }
{
    if is_dropped(dropped, instance.engine.as_slice()) {
        return None;
    }
    place_of(old, instance)
}

/// Returns the place of an instance in a board.
fn place_of(board: &Board, instance: &Instance) -> Option<u16>
    ensures place { result ≡ watched_at board.now.watch instance.now }
    ensures within { IfSome result (λ j. j < length board.now.watch.instances) }
{
    board.find(instance.engine.as_slice(), &instance.name)
}

/// Returns `true` if nothing is carried of this engine.
fn is_dropped(dropped: &[Octets], engine: &[u8]) -> bool
    ensures { result ≡ is_dropped dropped.now engine.now }
{
    dropped.iter().any(|one| one.as_slice() == engine)
}
