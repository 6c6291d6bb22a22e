//! Copies of a board.

ghost use Rattle.std.specs.Prelude.{◌≡◌, IfOk, IsTrue};

use mon_alarms::Rule;
use mon_board::{Board, Watch, Watched};
use std::alloc::{AllocError, Global};

/// Returns a board with the samples of another one, and of its watch: in the memory of a board
/// before, if that one has an equal watch.
pub(crate) fn copy_of(
    alloc: Global,
    board: &Board,
    before: Option<Board>,
) -> Result<Board, AllocError>
    ensures watch { IfOk result (λ copy. copy.watch ≡ board.now.watch) }
    ensures windows { IfOk result (λ copy. copy.windows ≡ board.now.windows) }
{
    let mut copy = empty_copy(alloc, board.watch(), before)?;
    copy.copy_from(board);
    Ok(copy)
}

/// Returns a board of an equal watch.
fn empty_copy(alloc: Global, watch: &Watch, before: Option<Board>) -> Result<Board, AllocError>
    ensures { IfOk result (λ copy. copy.watch ≡ watch.now) }
{
    if let Some(before) = before {
        if is_same_watch(before.watch(), watch) {
            return Ok(before);
        }
    }
    Board::new(alloc, watch.try_clone(alloc)?)
}

/// Returns `true` if two watches are equal.
fn is_same_watch(one: &Watch, other: &Watch) -> bool
    ensures { IsTrue result → one.now ≡ other.now }
{
    are_same_instances(one.instances(), other.instances())
        && are_same_rules(one.rules(), other.rules())
}

/// Returns `true` if instances are equal, in their order.
fn are_same_instances(one: &[Watched], other: &[Watched]) -> bool
    ensures { IsTrue result → one.now ≡ other.now }
{
    let [first, one @ ..] = one else {
        return other.is_empty();
    };
    let [second, other @ ..] = other else {
        return false;
    };
    is_same_watched(first, second) && are_same_instances(one, other)
}

fn is_same_watched(one: &Watched, other: &Watched) -> bool
    ensures { IsTrue result → one.now ≡ other.now }
{
    *one == *other
}

/// Returns `true` if rules are equal, in their order.
fn are_same_rules(one: &[Rule], other: &[Rule]) -> bool
    ensures { IsTrue result → one.now ≡ other.now }
{
    let [first, one @ ..] = one else {
        return other.is_empty();
    };
    let [second, other @ ..] = other else {
        return false;
    };
    is_same_rule(first, second) && are_same_rules(one, other)
}

fn is_same_rule(one: &Rule, other: &Rule) -> bool
    ensures { IsTrue result → one.now ≡ other.now }
{
    *one == *other
}
