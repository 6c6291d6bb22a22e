//! Walking through the variables under a name.

ghost use Rattle.std.specs.Prelude.{◌≡◌, ◌<◌, ◌||◌, IfErr};
ghost use Rattle.mon_udp.specs.Told.{GoesOnBy};
ghost use Rattle.mon_host.specs.Log.{GoesOnBy as HostGoesOnBy};
ghost use Rattle.mon_client.specs.AtWire.{socket_failures};
ghost use Rattle.mon_client.specs.Printed.{IsQuestionAnswered};
ghost use Rattle.mon_client.specs.Walk.{AreTurns, EndsInLines, IsAlong, IsEmptyNoted, IsOfLines, IsSaid, IsTurn, IsWalk, IsWalkStep, SaysWhether, asking_by, name_in, question_after, walk_failures};

use crate::client::answers;
use crate::fault::WalkFault;
use crate::printed::put_binding;
use crate::question::{Asking, Question, Repeats};
use crate::wire::Wire;
use mon_app::AppFault;
use mon_ber::Value;
use mon_host::{Host, Level};
use mon_oid::Oid;
use mon_pdu::{Binding, Bindings};
use mon_smi::NameTexts;
use std::alloc::Global;
use std::slice;

/// How many requests a walk makes at most.
const REQUESTS: u32 = 65_536;

/// By which request a walk asks for what comes next.
#[derive(Clone, Copy)]
pub enum Stride {
    /// By GetNext, for one variable (RFC 3416 section 4.2.2).
    Next,
    /// By GetBulk, for at most this many: its max-repetitions (RFC 3416 section 4.2.3).
    Bulk(i32),
}

impl Stride {
    /// The request.
    fn asking<'a>(self) -> Asking<'a>
        ensures { result ≡ asking_by self }
    {
        match self {
            Stride::Next => Asking::GetNext,
            Stride::Bulk(max_repetitions) => Asking::GetBulk(Repeats {
                non_repeaters: 0,
                max_repetitions,
            }),
        }
    }
}

/// What a walk asks for: the variables under a name, in a community.
#[derive(Clone, Copy)]
pub struct WalkPlan<'a> {
    pub community: &'a [u8],
    pub start: &'a Oid,
    pub stride: Stride,
}

/// A request of a walk: for what comes after the last name.
#[derive(Clone, Copy)]
struct Turn<'a> {
    asked: WalkPlan<'a>,
    last: &'a Oid,
    request_id: u32,
}

/// Where a walk is: under its start, after the last name.
#[derive(Clone, Copy)]
struct Place<'a> {
    start: &'a Oid,
    last: &'a Oid,
}

/// Asks an agent for what comes after the start, then for what comes after that, and so on, and
/// prints a line for each variable as soon as it is answered. It ends at the first name that is not
/// under the start, at endOfMibView, or after 65536 requests. Names are printed as `names` has it,
/// also those that are values. If it ended and printed no line, one on standard error says that
/// nothing is below the start.
///
/// # Errors
/// `NotIncreasing` where the agent answers with a name that does not increase, or with no variable
/// at all; `Output` where a line could not be printed; else as `answer_text`. The walk ends at
/// once, and the lines before were printed.
pub fn walk<W: Wire, S: NameTexts, H: Host>(
    alloc: Global,
    host: &mut H,
    wire: &mut W,
    asked: &WalkPlan<'_>,
    names: &S,
) -> Result<(), WalkFault>
    ensures walk { GoesOnBy (λ log. HostGoesOnBy (λ said. IsWalk (S.shown names.now)
        (question_after asked.now)
        asked.now.start.now log said result) (H.log host.old) (H.log host.new)) (W.log wire.old) (W.log wire.new) }
    ensures failures { W.failures wire.new ≡ walk_failures result (W.failures wire.old) }
{
    let printed = walk_through(alloc, host, wire, asked, names)?;
    if printed {
        return Ok(());
    }
    note_empty(alloc, host, asked.start, names)
}

/// Walks, and returns `true` if a line was printed.
fn walk_through<W: Wire, S: NameTexts, H: Host>(
    alloc: Global,
    host: &mut H,
    wire: &mut W,
    asked: &WalkPlan<'_>,
    names: &S,
) -> Result<bool, WalkFault>
    ensures walk { GoesOnBy (λ log. HostGoesOnBy (λ said. AreTurns (S.shown names.now)
        (question_after asked.now)
        asked.now.start.now log said result) (H.log host.old) (H.log host.new)) (W.log wire.old) (W.log wire.new) }
    ensures failures { W.failures wire.new ≡ walk_failures result (W.failures wire.old) }
{
    let mut last = asked.start.try_clone(alloc)?;
    for request_id in 0..REQUESTS {
        let turn = Turn {
            asked: *asked,
            last: &last,
            request_id,
        };
        match walk_on(alloc, host, wire, &turn, names)? {
            Turned::On(name) => last = name,
            Turned::Over(printed) => return Ok(is_either(request_id > 0, printed)),
        }
    }
    Ok(true)
}

/// Returns `true` if one of these is.
fn is_either(a: bool, b: bool) -> bool
    ensures { result ≡ (a || b) }
{
    a || b
}

/// Says that nothing is below the start of a walk.
fn note_empty<S: NameTexts, H: Host>(
    alloc: Global,
    host: &mut H,
    start: &Oid,
    names: &S,
) -> Result<(), WalkFault>
    ensures said { HostGoesOnBy (λ said. IsEmptyNoted (S.shown names.now start.now) said result)
        (H.log host.old) (H.log host.new) }
    ensures fault { IfErr result IsOfLines }
{
    let name = names.text(alloc, start)?;
    host.note(
        Level::Info,
        format_args!("snmpmon: nothing is below {name}\n"),
    );
    Ok(())
}

/// How a walk goes on after a turn.
#[derive(Drop)]
enum Turned {
    /// After this name.
    On(Oid),
    /// It is at its end; `true` if the turn printed a line.
    Over(bool),
}

/// Prints the lines of what comes after the last name, and returns how the walk goes on.
fn walk_on<W: Wire, S: NameTexts, H: Host>(
    alloc: Global,
    host: &mut H,
    wire: &mut W,
    turn: &Turn<'_>,
    names: &S,
) -> Result<Turned, WalkFault>
    requires few { turn.now.request_id < 65536 }
    ensures turn { GoesOnBy (λ log. HostGoesOnBy (λ said. IsTurn (S.shown names.now)
        (question_after turn.now.asked turn.now.request_id turn.now.last.now) turn.now.asked.start.now turn.now.last.now
        said log (name_in result) × SaysWhether said result) (H.log host.old) (H.log host.new)) (W.log wire.old) (W.log wire.new) }
    ensures failures { W.failures wire.new ≡ walk_failures result (W.failures wire.old) }
{
    let found = after(alloc, wire, turn)?;
    let at = Place {
        start: turn.asked.start,
        last: turn.last,
    };
    print_found(alloc, host, at, found.as_slice(), names)
}

/// Asks for what comes after the last name.
fn after<W: Wire>(alloc: Global, wire: &mut W, turn: &Turn<'_>) -> Result<Bindings, AppFault>
    requires { turn.now.request_id < 65536 }
    ensures answer { GoesOnBy (λ log. IsQuestionAnswered (question_after turn.now.asked
        turn.now.request_id turn.now.last.now) log result) (W.log wire.old) (W.log wire.new) }
    ensures failures { W.failures wire.new ≡ socket_failures result (W.failures wire.old) }
{
    let question = Question {
        asking: turn.asked.stride.asking(),
        request_id: turn.request_id as i32,
        community: turn.asked.community,
        names: slice::from_ref(turn.last),
    };
    answers(alloc, wire, &question)
}

/// Prints the lines of the variable bindings of an answer that the walk goes on by, and returns how
/// it goes on.
fn print_found<S: NameTexts, H: Host>(
    alloc: Global,
    host: &mut H,
    at: Place<'_>,
    found: &[Binding],
    names: &S,
) -> Result<Turned, WalkFault>
    ensures lines { HostGoesOnBy (λ said. EndsInLines (S.shown names.now) at.entry.start.now
        at.entry.last.now
        found.now said (name_in result) × SaysWhether said result) (H.log host.old) (H.log host.new) }
    ensures fault { IfErr result IsOfLines }
{
    if found.is_empty() {
        return Err(WalkFault::App(AppFault::NotIncreasing));
    }
    print_lines(alloc, host, at, found, names)
}

/// Prints the lines of the variable bindings that the walk goes on by, and returns how it goes on.
fn print_lines<S: NameTexts, H: Host>(
    alloc: Global,
    host: &mut H,
    at: Place<'_>,
    found: &[Binding],
    names: &S,
) -> Result<Turned, WalkFault>
    ensures lines { HostGoesOnBy (λ said. IsAlong (S.shown names.now) at.entry.start.now
        at.entry.last.now
        found.now said (name_in result) × SaysWhether said result) (H.log host.old) (H.log host.new) }
    ensures fault { IfErr result IsOfLines }
{
    let Place { start, mut last } = at;
    let mut printed = false;
    for binding in found {
        match step_of(start, last, binding) {
            WalkStep::Past => return Ok(Turned::Over(printed)),
            WalkStep::Back => return Err(WalkFault::App(AppFault::NotIncreasing)),
            WalkStep::On => print_line(alloc, host, binding, names)?,
        }
        last = &binding.name;
        printed = true;
    }
    Ok(Turned::On(last.try_clone(alloc)?))
}

/// Prints the line of a variable binding.
fn print_line<S: NameTexts, H: Host>(
    alloc: Global,
    host: &mut H,
    found: &Binding,
    names: &S,
) -> Result<(), WalkFault>
    ensures said { HostGoesOnBy (λ said. IsSaid (S.shown names.now) found.now said result)
        (H.log host.old) (H.log host.new) }
    ensures fault { IfErr result IsOfLines }
{
    let mut line = String::new(alloc);
    put_binding(alloc, &mut line, found, names)?;
    match host.print(line.as_bytes()) {
        Ok(()) => Ok(()),
        Err(reason) => Err(WalkFault::Output(reason)),
    }
}

/// What a walk does about a variable binding that answers.
enum WalkStep {
    /// It goes on from it.
    On,
    /// It ends, since there is no further variable under the start.
    Past,
    /// It fails, since the name does not exceed the last one.
    Back,
}

/// What a walk does about the variable binding that answers after the last name.
fn step_of(start: &Oid, last: &Oid, found: &Binding) -> WalkStep
    ensures { IsWalkStep start.now last.now found.now result }
{
    let is_end = matches!(found.value, Value::EndOfMibView);
    if is_end || !start.is_prefix_of(&found.name) {
        return WalkStep::Past;
    }
    if last.compare(&found.name).is_lt() {
        return WalkStep::On;
    }
    WalkStep::Back
}
