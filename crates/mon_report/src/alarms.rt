//! A board's alarms, and what became of them.

ghost use Rattle.std.specs.Prelude.{◌≡◌, ◌<◌, ◌≤◌, IfOk, IsTrue, OnErr, OnOk, length, map, vec_capacity};
ghost use Rattle.mon_board.specs.Board.{window_of};
ghost use Rattle.mon_report.specs.Alarms.{HaveRoom, changes_from, raised_from, states_of, windows_of};
ghost use Rattle.mon_window.specs.Top.{rising};

use mon_alarms::{AlarmChange, AlarmState, Rule, put_changes, put_raised, state};
use mon_board::Board;
use mon_sample::Sample;
use std::alloc::{AllocError, Global};

/// A rule and the state of its alarm.
#[derive(Clone, Copy, Debug)]
pub struct Alarm {
    /// The rule, with its thresholds.
    pub rule: Rule,
    /// The state that was announced last, or, if none was, that over the samples.
    pub state: AlarmState,
}

/// Returns the state of each rule's alarm over its window, in the order of the watch's rules.
///
/// # Errors
/// `AllocError` if there is no memory for them.
pub fn alarm_states(alloc: Global, board: &Board) -> Result<Vec<AlarmState>, AllocError>
    ensures { IfOk result (λ v. v.items ≡ states_of board.now) }
{
    let rules = board.watch().rules();
    let mut states = Vec::with_capacity(alloc, rules.len())?;
    for rule in rules {
        states.push(state(rule, board.items(rule.instance())))?;
    }
    Ok(states)
}

/// The windows of a board's rules as they are seen now, in the order of the watch's rules, each
/// with memory for all samples that it may hold.
///
/// # Errors
/// `AllocError` if there is no memory for them.
pub fn seen_windows(alloc: Global, board: &Board) -> Result<Vec<Vec<Sample>>, AllocError>
    ensures { IfOk result (λ v. map (λ w. w.items) v.items ≡ windows_of board.now) }
{
    let rules = board.watch().rules();
    let mut windows = Vec::with_capacity(alloc, rules.len())?;
    for rule in rules {
        windows.push(seen_window(alloc, board, rule.instance())?)?;
    }
    Ok(windows)
}

/// The window of an instance as it is seen now, with memory for all samples that it may hold.
fn seen_window(alloc: Global, board: &Board, instance: u16) -> Result<Vec<Sample>, AllocError>
    requires { instance < length board.now.watch.instances }
    ensures { IfOk result (λ w. w.items ≡ rising (window_of board.now instance)) }
{
    let size = board.watch().instances()[usize::from(instance)].window;
    let mut window = Vec::with_capacity(alloc, size)?;
    window.extend_from_slice(board.items(instance))?;
    Ok(window)
}

/// Brings windows of the board's rules that were seen before up to what they are now. Memory is
/// taken only where they have none for all samples.
///
/// # Errors
/// `AllocError` if there is no memory for them: then they are as they were.
pub fn see_windows(
    alloc: Global,
    board: &Board,
    seen: &mut Vec<Vec<Sample>>,
) -> Result<(), AllocError>
    ensures seen { OnOk result (map (λ w. w.items) seen.new.items ≡ windows_of board.now) }
    ensures kept { OnErr result (seen.new ≡ seen.old) }
{
    if !have_room(board, seen.as_slice()) {
        *seen = seen_windows(alloc, board)?;
        return Ok(());
    }
    copy_each(board, seen);
    Ok(())
}

/// Returns `true` if there is a window for each rule of the board, with memory for its samples.
fn have_room(board: &Board, windows: &[Vec<Sample>]) -> bool
    ensures { IsTrue result → HaveRoom board.now windows.now }
{
    let rules = board.watch().rules();
    if windows.len() != rules.len() {
        return false;
    }
    for number in 0..rules.len() {
        let items = board.items(rules[number].instance());
        if windows[number].capacity() < items.len() {
            return false;
        }
    }
    true
}

/// Copies the window of each rule of the board into the one at its place, where there is memory for
/// it.
fn copy_each(board: &Board, windows: &mut [Vec<Sample>])
    requires { HaveRoom board.now windows.old }
    ensures { map (λ w. w.items) windows.new ≡ windows_of board.now }
{
    let rules = board.watch().rules();
    for number in 0..rules.len() {
        replace(&mut windows[number], board.items(rules[number].instance()));
    }
}

/// Has these samples in place of those so far. There is memory for them.
fn replace(window: &mut Vec<Sample>, samples: &[Sample])
    requires { length samples.now ≤ vec_capacity window.old }
    ensures { window.new.items ≡ samples.now }
{
    window.clear();
    window.extend_from_slice(samples).unwrap();
}

/// Returns what became of a board's alarms since their windows were seen so, in the order of the
/// watch's rules: each time that a sample raised or cleared one, in the order of its samples.
pub fn alarm_changes(
    alloc: Global,
    board: &Board,
    seen: &[Vec<Sample>],
) -> Result<Vec<AlarmChange>, AllocError>
    ensures { IfOk result (λ v. v.items ≡ changes_from board.now 0 board.now.watch.rules
        (map (λ w. w.items) seen.now)) }
{
    let mut changes = Vec::new(alloc);
    let rules = board.watch().rules();
    for number in 0..rules.len().min(seen.len()) {
        let rule = &rules[number];
        let (was, is) = (seen[number].as_slice(), board.items(rule.instance()));
        put_changes(&mut changes, number, rule, was, is)?;
    }
    Ok(changes)
}

/// Returns the alarms of a board that are raised, in the order of the watch's rules.
pub fn raised_alarms(alloc: Global, board: &Board) -> Result<Vec<AlarmChange>, AllocError>
    ensures { IfOk result (λ v. v.items ≡ raised_from board.now 0 board.now.watch.rules) }
{
    let mut raised = Vec::new(alloc);
    let rules = board.watch().rules();
    for number in 0..rules.len() {
        let rule = &rules[number];
        put_raised(&mut raised, number, rule, board.items(rule.instance()))?;
    }
    Ok(raised)
}
