//! Watches and boards: which are refused, what a board takes, and its report to writers that fail.

use crate::images::instances_of;
use crate::samples::{put_inserted, sample_of, samples_of};
use mon_alarms::Rule;
use mon_board::{Board, Watch, WatchFault};
use mon_report::{ReportFault, write_report};
use mon_row_texts::{parsed, put, put_fault, put_trimmed, three, two};
use std::alloc::Global;
use std::io::{Result as IoResult, Write};

/// Reads the rules `INSTANCE/RISING/FALLING`, with commas between them; of a dash none.
fn rules_of(alloc: Global, words: &str) -> Option<Vec<Rule>> {
    let mut rules = Vec::new(alloc);
    if words == "-" {
        return Some(rules);
    }
    for word in words.split(',') {
        rules.push(rule_of(word)?).ok()?;
    }
    Some(rules)
}

fn rule_of(word: &str) -> Option<Rule> {
    let (instance, rising, falling) = three(word, '/')?;
    let (instance, rising) = (parsed(instance)?, parsed(rising)?);
    Rule::new(instance, rising, parsed(falling)?).ok()
}

/// Makes the watch of a line `INSTANCES RULES`, or its fault.
fn watch_of(alloc: Global, instances: &str, rules: &str) -> Option<Result<Watch, WatchFault>> {
    let rules = rules_of(alloc, rules)?;
    Some(Watch::new(instances_of(alloc, instances)?, rules))
}

/// Makes a board of a line's instances and rules.
fn board_of(alloc: Global, instances: &str, rules: &str) -> Option<Board> {
    Board::new(alloc, watch_of(alloc, instances, rules)?.ok()?).ok()
}

/// Says that the line's instances and rules make a watch; or the fault.
pub(crate) fn watched(alloc: Global, text: &mut String, line: &str) -> Option<()> {
    let (instances, rules) = two(line, ' ')?;
    match watch_of(alloc, instances, rules)? {
        Ok(_watch) => put(text, "a watch"),
        Err(why) => put_fault(text, why.number(), why.name()),
    }
}

/// Says what a board of the line's watch, without rules, does with each sample `NUMBER/RECORD`.
pub(crate) fn taken(alloc: Global, text: &mut String, line: &str) -> Option<()> {
    let (instances, samples) = two(line, ' ')?;
    let mut board = board_of(alloc, instances, "-")?;
    for word in samples.split(',') {
        put_taken(alloc, text, &mut board, word)?;
    }
    put_counts(text, &board)
}

fn put_taken(alloc: Global, text: &mut String, board: &mut Board, word: &str) -> Option<()> {
    let (number, record) = two(word, '/')?;
    let (number, sample) = (parsed(number)?, sample_of(alloc, record)?);
    match board.take(number, sample) {
        Ok(inserted) => put_inserted(text, inserted)?,
        Err(_) => put(text, "not watched")?,
    }
    put(text, ", ")
}

/// Appends how many samples each instance has.
fn put_counts(text: &mut String, board: &Board) -> Option<()> {
    put(text, "kept")?;
    for number in 0..board.watch().instances().len() {
        let count = board.items(number as u16).len();
        write!(text, " {count}").ok()?;
    }
    Some(())
}

/// A writer that takes this many octets, one a call, and then nothing.
#[derive(Drop)]
struct Narrow {
    room: usize,
    taken: Vec<u8>,
}

impl Write for Narrow {
    ghost use Rattle.std.specs.Prelude.{Some};

    ghost contents = { λ w. Some w.taken.items };

    fn write(&mut self, octets: &[u8]) -> IoResult<usize> {
        if self.taken.len() >= self.room {
            return Ok(0);
        }
        let Some(first) = octets.first() else {
            return Ok(0);
        };
        self.taken.push(*first)?;
        Ok(1)
    }

    fn flush(&mut self) -> IoResult<()> {
        Ok(())
    }
}

/// Appends the report of a board of the line `INSTANCES RULES RECORD,..` whose first instance took
/// the samples, without the last line's end, if each writer that is too narrow for it fails with a
/// beginning of it.
pub(crate) fn reported(alloc: Global, text: &mut String, line: &str) -> Option<()> {
    let (instances, rules, records) = three(line, ' ')?;
    let mut board = board_of(alloc, instances, rules)?;
    let samples = samples_of(alloc, records)?;
    for sample in samples.as_slice() {
        let _ = board.take(0, *sample).ok()?;
    }
    put_whole(alloc, text, &board)
}

/// Appends the report, if each writer that is too narrow for it fails with a beginning of it.
fn put_whole(alloc: Global, text: &mut String, board: &Board) -> Option<()> {
    let mut whole = Vec::new(alloc);
    write_report(board, &mut whole).ok()?;
    let whole = whole.as_slice();
    for room in 0..whole.len() {
        if !fails_within(alloc, board, &whole[..room]) {
            return None;
        }
    }
    put_trimmed(text, whole)
}

/// Returns `true` if a writer that takes no more than this beginning of the report gets just that,
/// and the report fails.
fn fails_within(alloc: Global, board: &Board, beginning: &[u8]) -> bool {
    let mut writer = Narrow {
        room: beginning.len(),
        taken: Vec::new(alloc),
    };
    let said = write_report(board, &mut writer);
    said == Err(ReportFault::WriteFailed) && writer.taken.as_slice() == beginning
}
