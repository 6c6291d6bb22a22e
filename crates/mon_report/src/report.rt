//! A board's report.

ghost use Rattle.std.specs.Prelude.{◌≡◌, ◌≤◌, ◌<◌, ◌*◌, ◌^◌, true, drop, length, slice_get, [], IfOk};
ghost use Rattle.std.specs.List.{AllWithin, flat_map};
ghost use Rattle.std.specs.List.Sorted.{IsStrictlySortedBy};
ghost use Rattle.mon_board.specs.Board.{window_of};
ghost use Rattle.mon_board.specs.RuleOrder.{rule_cmp};
ghost use Rattle.mon_rates.specs.Totals as sums;
ghost use Rattle.mon_report.specs.Report.{Entry as AnyEntry, alarm_of, announced_entry, announced_from, entry_line, entry_rest, entry_of, entries_from, samples_in, report};
ghost use Rattle.mon_report.specs.Written.{AppendsIf, AppendsResult};

use crate::alarms::Alarm;
use crate::fault::ReportFault;
use crate::line::{put_alarms, put_hex, put_name, put_window, write_end};
use crate::writing::put;
use mon_alarms::{AlarmState, Rule, state};
use mon_board::{Board, Watched};
use mon_oid::Oid;
use mon_rates::Totals;
use mon_sample::Sample;
use std::alloc::{AllocError, Global};
use std::io::Write;
use std::marker::Model;

/// What a report says of an instance.
#[derive(Drop)]
pub struct Entry<'a> {
    engine: &'a [u8],
    name: &'a Oid,
    samples: &'a [Sample],
    totals: Totals,
    // The watch's rules on it, which are next to each other.
    rules: &'a [Rule],
    // Of each of these the state that was announced, in their order, as far as they are known.
    states: &'a [AlarmState],
    instance: u16,
}

impl<'a> Model for Entry<'a> {
    ghost use Rattle.std.specs.Prelude.{◌≡◌, ◌<◌, ◌*◌, ◌^◌};
    ghost use Rattle.mon_rates.specs.Totals as sums;
    ghost use Rattle.mon_report.specs.Report.{Entry, alarms_from, rules_on};

    ghost Value = { Entry };

    ghost view = { λ e. record {
      engine = e.engine.now;
      name = e.name.now;
      items = e.samples.now;
      rules = rules_on e.instance e.rules.now;
      alarms = alarms_from e.states.now e.instance e.samples.now 0 e.rules.now;
    } };

    ghost invariant = { λ e. (e.totals ≡ sums.totals e.samples.now)
        × (1000 * e.totals.delta < 2 ^ 128) };
}

impl<'a> Entry<'a> {
    /// An instance with its samples, the oldest first, and their totals. No rule is on it.
    pub fn new(engine: &'a [u8], name: &'a Oid, samples: &'a [Sample], totals: Totals) -> Self
        requires totals { totals ≡ sums.totals samples.now }
        requires rated { 1000 * totals.delta < 2 ^ 128 }
        ensures { let entry : AnyEntry = record {
          engine = engine.now;
          name = name.now;
          items = samples.now;
          rules = [];
          alarms = [];
        } in
            result ≡ entry }
    {
        Entry {
            engine,
            name,
            samples,
            totals,
            rules: &[],
            states: &[],
            instance: 0,
        }
    }

    /// The octets of the engine id.
    pub fn engine(&self) -> &'a [u8]
        ensures { result.now ≡ self.now.engine }
    {
        self.engine
    }

    /// The instance's name.
    pub fn name(&self) -> &'a Oid
        ensures { result.now ≡ self.now.name }
    {
        self.name
    }

    /// The samples, the oldest first.
    pub fn samples(&self) -> &'a [Sample]
        ensures { result.now ≡ self.now.items }
    {
        self.samples
    }

    /// The samples' totals.
    pub fn totals(&self) -> Totals
        ensures totals { result ≡ sums.totals self.now.items }
        ensures rated { 1000 * result.delta < 2 ^ 128 }
    {
        self.totals
    }

    /// The alarm rules on the instance, in their order.
    pub fn rules(&self, alloc: Global) -> Result<Vec<Rule>, AllocError>
        ensures { IfOk result (λ rules. rules.items ≡ self.now.rules) }
    {
        let mut rules = Vec::new(alloc);
        for rule in self.rules {
            if rule.instance() == self.instance {
                rules.push(*rule)?;
            }
        }
        Ok(rules)
    }

    /// Returns the alarms of the rules on the instance, in their order: each with the state that
    /// was announced, or, if none was, with that over the samples.
    ///
    /// # Errors
    /// `AllocError` if there is no memory for them.
    pub fn alarms(&self, alloc: Global) -> Result<Vec<Alarm>, AllocError>
        ensures { IfOk result (λ alarms. alarms.items ≡ self.now.alarms) }
    {
        let mut alarms = Vec::new(alloc);
        for place in 0..self.rules.len() {
            let rule = &self.rules[place];
            if rule.instance() == self.instance {
                let announced = state_at(self.states, place);
                alarms.push(alarm_of(self.samples, rule, announced))?;
            }
        }
        Ok(alarms)
    }
}

/// Returns the state at a place, if there is one.
fn state_at(states: &[AlarmState], place: usize) -> Option<AlarmState>
    ensures { result ≡ slice_get states.now place }
{
    states.get(place).copied()
}

/// Returns the alarm of a rule: with the state that was announced, or, if none was, with that over
/// the samples.
fn alarm_of(samples: &[Sample], rule: &Rule, announced: Option<AlarmState>) -> Alarm
    ensures { result ≡ alarm_of samples.now rule.now announced }
{
    match announced {
        Some(state) => Alarm { rule: *rule, state },
        None => Alarm {
            rule: *rule,
            state: state(rule, samples),
        },
    }
}

/// Writes an instance's line, unless the writer failed before. Returns `true` if all is written so
/// far.
#[tactic(auto, unfolding(crate::specs::Report::entry_line))]
pub fn write_entry<W: Write>(writer: &mut W, ok: bool, entry: &Entry) -> bool
    ensures { AppendsIf (W.contents writer.old) ok (W.contents writer.new) result
        (entry_line entry.now) }
{
    let ok = put_hex(writer, ok, entry.engine);
    let ok = put(writer, ok, b" ");
    let ok = put_name(writer, ok, entry.name);
    write_rest(writer, ok, entry)
}

/// Writes what follows the name in an instance's line, unless the writer failed before. Returns
/// `true` if all is written so far.
#[tactic(auto, unfolding(crate::specs::Report::entry_rest))]
pub fn write_rest<W: Write>(writer: &mut W, ok: bool, entry: &Entry) -> bool
    ensures { AppendsIf (W.contents writer.old) ok (W.contents writer.new) result
        (entry_rest entry.now) }
{
    let ok = put_window(writer, ok, entry.samples, entry.totals);
    let ok = put_alarms(writer, ok, entry.samples, entry.rules, entry.instance);
    put(writer, ok, b"\n")
}

/// Writes the report of a board: of each watched instance a line with its engine id, its name, how
/// many samples its window holds, the oldest and the newest stamp, the newest value, what its
/// counter counted and in how many seconds, the rate, and the state of each alarm rule on it; then
/// the numbers of instances and samples. It allocates nothing. A writer that fails, or that takes
/// nothing, has got a beginning of the report: `WriteFailed`.
pub fn write_report<W: Write>(board: &Board, writer: &mut W) -> Result<(), ReportFault>
    ensures { AppendsResult (W.contents writer.old) (W.contents writer.new) result
        (report board.now.watch (window_of board.now)) }
{
    let ok = write_lines(board, writer);
    let instances = board.watch().instances().len() as u64;
    if write_end(writer, ok, instances, count_samples(board)) {
        Ok(())
    } else {
        Err(ReportFault::WriteFailed)
    }
}

/// Writes the lines of all instances.
fn write_lines<W: Write>(board: &Board, writer: &mut W) -> bool
    ensures { AppendsIf (W.contents writer.old) true (W.contents writer.new) result
        (flat_map entry_line (entries_from board.now.watch.rules (window_of board.now) 0 board.now.watch.instances)) }
{
    let mut ok = true;
    for (i, watched) in board.watch().instances().iter().enumerate() {
        ok = write_line(board, writer, ok, i as u16, watched);
    }
    ok
}

/// Writes the line of the instance of this number.
fn write_line<W: Write>(board: &Board, writer: &mut W, ok: bool, i: u16, watched: &Watched) -> bool
    requires { i < length board.now.watch.instances }
    ensures { AppendsIf (W.contents writer.old) ok (W.contents writer.new) result
        (entry_line (entry_of board.now.watch.rules (window_of board.now) i watched.now)) }
{
    write_entry(writer, ok, &entry_of(board, &[], i, watched))
}

/// What a report says of the instance of this number, by the states that were announced.
fn entry_of<'a>(
    board: &'a Board,
    states: &'a [AlarmState],
    i: u16,
    watched: &'a Watched,
) -> Entry<'a>
    requires { i < length board.now.watch.instances }
    ensures { result ≡ announced_entry states.now board.now.watch.rules (window_of board.now) i
        watched.now }
{
    let instance = &watched.instance;
    let rules = board.watch().rules();
    let (first, end) = range_of(rules, i);
    Entry {
        engine: instance.engine.as_slice(),
        name: &instance.name,
        samples: board.items(i),
        totals: board.totals(i),
        rules: &rules[first..end],
        states: states_from(states, first),
        instance: i,
    }
}

/// Returns the states from this place on.
fn states_from(states: &[AlarmState], first: usize) -> &[AlarmState]
    ensures { result.now ≡ drop first states.now }
{
    &states[first.min(states.len())..]
}

/// Returns where the rules on the instance of this number begin and end.
fn range_of(rules: &[Rule], i: u16) -> (usize, usize)
    requires { IsStrictlySortedBy rule_cmp rules.now }
    ensures ordered { result.0 ≤ result.1 }
    ensures bound { result.1 ≤ length rules.now }
    ensures before { AllWithin (λ r. r.instance < i) rules.now 0 result.0 }
    ensures after { AllWithin (λ r. i < r.instance) rules.now result.1 (length rules.now) }
{
    let number = usize::from(i);
    (first_rule(rules, number), first_rule(rules, number + 1))
}

/// Returns where the rules on the instances from this number on begin.
fn first_rule(rules: &[Rule], number: usize) -> usize
    requires { IsStrictlySortedBy rule_cmp rules.now }
    ensures bound { result ≤ length rules.now }
    ensures before { AllWithin (λ r. r.instance < number) rules.now 0 result }
    ensures after { AllWithin (λ r. number ≤ r.instance) rules.now result (length rules.now) }
{
    rules.partition_point(|rule| usize::from(rule.instance()) < number)
}

/// What a report says of each instance of a board, in their order. The state of each alarm is that
/// over its window.
///
/// # Errors
/// `AllocError` if there is no memory for it.
pub fn entries_of(alloc: Global, board: &Board) -> Result<Vec<Entry<'_>>, AllocError>
    ensures { IfOk result (λ es. es.items ≡ entries_from board.now.watch.rules (window_of board.now)
        0 board.now.watch.instances) }
{
    announced_entries(alloc, board, &[])
}

/// What a report says of each instance of a board, in their order, by the states of its rules'
/// alarms that were announced, in the order of the watch's rules. A rule without one has the state
/// over its window.
///
/// # Errors
/// `AllocError` if there is no memory for it.
pub fn announced_entries<'a>(
    alloc: Global,
    board: &'a Board,
    states: &'a [AlarmState],
) -> Result<Vec<Entry<'a>>, AllocError>
    ensures { IfOk result (λ es. es.items ≡ announced_from states.now board.now.watch.rules
        (window_of board.now) 0 board.now.watch.instances) }
{
    let instances = board.watch().instances();
    let mut found = Vec::with_capacity(alloc, instances.len())?;
    for (i, watched) in instances.iter().enumerate() {
        found.push(entry_of(board, states, i as u16, watched))?;
    }
    Ok(found)
}

/// How many samples the windows of a board hold.
fn count_samples(board: &Board) -> u64
    ensures { result ≡ samples_in (entries_from board.now.watch.rules (window_of board.now) 0
        board.now.watch.instances) }
{
    let mut count = 0;
    for i in 0..board.watch().instances().len() {
        count += board.items(i as u16).len() as u64;
    }
    count
}
