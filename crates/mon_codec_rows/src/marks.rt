//! Two boards of one watch: what they take, mark, owe and join.

ghost use Rattle.std.specs.Prelude.{◌≡◌, ◌<◌, ◌↔◌, IfSome, IsTrue, length};

use crate::images::instances_of;
use crate::samples::{put_stamp, sample_of};
use mon_board::{Board, Watch};
use mon_row_texts::{parsed, put, three, two};
use mon_sample::Sample;
use std::alloc::Global;

/// Says what two boards of a line `WATCH STEP,.. STEP,.. STEP,..` owe: the first board after its
/// steps, the second after its own, and the first, joined with it, after the last ones. A step is
/// `take/SLOT/N/HEX`, `mark/SLOT/N/HEX`, `unmark/SLOT/N/-`, or `owed/SLOT/N/HEX` for what is owed
/// after the sample, of all for a dash.
pub(crate) fn row(alloc: Global, text: &mut String, line: &str) -> Option<()> {
    let (instances, steps) = two(line, ' ')?;
    let (own_steps, other_steps, last_steps) = three(steps, ' ')?;
    let (mut own, mut other) = boards(alloc, instances)?;
    follow(alloc, text, &mut own, own_steps)?;
    follow(alloc, text, &mut other, other_steps)?;
    own.join(&other);
    follow(alloc, text, &mut own, last_steps)
}

/// Makes two boards of one watch.
fn boards(alloc: Global, instances: &str) -> Option<(Board, Board)>
    ensures { IfSome result (λ boards. boards.1.watch ≡ boards.0.watch) }
{
    let watch = Watch::new(instances_of(alloc, instances)?, Vec::new(alloc)).ok()?;
    let copy = watch.try_clone(alloc).ok()?;
    Some((
        Board::new(alloc, watch).ok()?,
        Board::new(alloc, copy).ok()?,
    ))
}

/// Does the steps, and appends what is owed where one asks for it.
fn follow(alloc: Global, text: &mut String, board: &mut Board, steps: &str) -> Option<()>
    ensures { board.new.watch ≡ board.old.watch }
{
    for step in steps.split(',') {
        does(alloc, text, board, step)?;
    }
    Some(())
}

fn is_watched(board: &Board, instance: u16) -> bool
    ensures { IsTrue result ↔ (instance < length board.now.watch.instances) }
{
    usize::from(instance) < board.watch().instances().len()
}

/// What a step says of a sample, in its words: the slot of a peer, the instance and the record.
#[derive(Clone, Copy)]
struct BoardStep<'a> {
    word: &'a str,
    slot: u8,
    instance: u16,
    record: &'a str,
}

fn step_of(words: &str) -> Option<BoardStep<'_>> {
    let (word, slot, rest) = three(words, '/')?;
    let (instance, record) = two(rest, '/')?;
    Some(BoardStep {
        word,
        slot: parsed(slot)?,
        instance: parsed(instance)?,
        record,
    })
}

/// Does a step.
fn does(alloc: Global, text: &mut String, board: &mut Board, words: &str) -> Option<()>
    ensures { board.new.watch ≡ board.old.watch }
{
    let BoardStep {
        word,
        slot,
        instance,
        record,
    } = step_of(words)?;
    if slot >= 15 || !is_watched(board, instance) {
        return None;
    }
    match word {
        "owed" if record == "-" => put_owed(text, board.owed(slot, instance, None)),
        "owed" => {
            let after = sample_of(alloc, record)?;
            put_owed(text, board.owed(slot, instance, Some(after)))
        }
        "unmark" => {
            board.unmark_all(slot);
            Some(())
        }
        "mark" => {
            board.mark(slot, instance, &sample_of(alloc, record)?);
            Some(())
        }
        "take" => {
            let _ = board.take(instance, sample_of(alloc, record)?);
            Some(())
        }
        _ => None,
    }
}

/// Appends the stamp of a sample that is owed.
fn put_owed(text: &mut String, owed: Option<Sample>) -> Option<()> {
    match owed {
        Some(sample) => {
            put(text, " ")?;
            put_stamp(text, &sample)
        }
        None => put(text, " none"),
    }
}
