//! What was carried, in numbers.

ghost use Rattle.std.specs.Prelude.{◌≡◌, ◌≤◌, Some, length};
ghost use Rattle.std.specs.List.{filter};
ghost use Rattle.std.specs.Option.{is_none, is_some};
ghost use Rattle.mon_board.specs.Board.{window_of};
ghost use Rattle.mon_carry.specs.Carried.{carried_count, apart_count};
ghost use Rattle.mon_carry.specs.Carried.{samples_before, source_of};

use crate::carrying::source_of;
use mon_ber::Octets;
use mon_board::{Board, Watch, Watched};

/// What was carried from one board to another, in numbers.
#[derive(Clone, Copy, Debug, PartialEq, Eq)]
pub struct Carried {
    /// The instances of the new watch, 1 to 256.
    pub watched: usize,
    /// Of these, how many were given an old window.
    pub instances: usize,
    /// The others: the old watch does not name them, or their engine is dropped.
    pub added: usize,
    /// The instances of the old watch that the new one does not name, or whose engine is dropped.
    pub gone: usize,
    /// The samples of the new windows, at most 16384.
    pub samples: usize,
}

/// Returns what was carried from an old board to this one, where nothing is carried of the dropped
/// engines.
pub fn count_carried(old: &Board, board: &Board, dropped: &[Octets]) -> Carried
    ensures watched { result.watched ≡ length board.now.watch.instances }
    ensures instances { result.instances ≡ carried_count old.now board.now.watch dropped.now }
    ensures added { result.added ≡ apart_count board.now.watch old.now dropped.now }
    ensures gone { result.gone ≡ apart_count old.now.watch board.now dropped.now }
    ensures samples { result.samples ≡ samples_before (window_of board.now)
        (length board.now.watch.instances) }
{
    Carried {
        watched: board.watch().instances().len(),
        instances: count_given(old, board.watch(), dropped),
        added: count_apart(board.watch(), old, dropped),
        gone: count_apart(old.watch(), board, dropped),
        samples: count_samples(board),
    }
}

/// Returns how many instances of the watch are given an old window.
fn count_given(old: &Board, watch: &Watch, dropped: &[Octets]) -> usize
    ensures { result ≡ carried_count old.now watch.now dropped.now }
{
    watch
        .instances()
        .iter()
        .filter(|watched| is_given(old, dropped, watched))
        .count()
}

/// Returns `true` if the instance is given an old window.
fn is_given(old: &Board, dropped: &[Octets], watched: &Watched) -> bool
    ensures { result ≡ is_some (source_of old.now dropped.now (Some watched.now.instance)) }
{
    source_of(old, dropped, &watched.instance).is_some()
}

/// Returns how many instances of the watch the other board does not have, or are of a dropped
/// engine.
fn count_apart(watch: &Watch, other: &Board, dropped: &[Octets]) -> usize
    ensures { result ≡ apart_count watch.now other.now dropped.now }
{
    watch
        .instances()
        .iter()
        .filter(|watched| is_apart(other, dropped, watched))
        .count()
}

/// Returns `true` if the board does not have the instance, or its engine is dropped.
fn is_apart(other: &Board, dropped: &[Octets], watched: &Watched) -> bool
    ensures { result ≡ is_none (source_of other.now dropped.now (Some watched.now.instance)) }
{
    source_of(other, dropped, &watched.instance).is_none()
}

/// Returns how many samples the windows of a board have.
fn count_samples(board: &Board) -> usize
    ensures { result ≡ samples_before (window_of board.now) (length board.now.watch.instances) }
{
    mon_window::laws::rising_list();
    let many = board.watch().instances().len();
    let mut samples = 0;
    for i in 0..many {
        samples += board.items(i as u16).len();
    }
    samples
}
