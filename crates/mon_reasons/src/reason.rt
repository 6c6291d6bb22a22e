//! Why a message gives an instance no new sample.

ghost use Rattle.std.specs.Prelude.{◌≡◌, IfOk, IsTrue, is_some};
ghost use Rattle.std.specs.Option.{option_copied};
ghost use Rattle.mon_ber.specs.Grammar.{tag_of};
ghost use Rattle.mon_poller.specs.Lent.{lent_stamp};
ghost use Rattle.mon_reasons.specs.Words.{kind_text};
ghost use Rattle.mon_reasons.specs.Reason.{clock_reason, discontinuity_reason, other_than, reason_in, reason_of, value_reason, value_under};

use mon_ber::{Octets, Tag, Value};
use mon_board::Watched;
use mon_oid::Oid;
use mon_pdu::{Binding, Message};
use mon_poller::Stamp;
use mon_poller::stamp::{ENGINE_BOOTS, ENGINE_ID, ENGINE_TIME};
use mon_sample::Sample;
use std::alloc::{AllocError, Global};
use std::fmt;

/// Why a message gives an instance no new sample.
#[derive(Clone, Copy)]
pub enum Reason {
    /// Its value is of this kind, which is no sample: also that the agent has no such object or
    /// instance, or hides it (RFC 3416 section 4.2.1).
    Value(Tag),
    /// The value of its discontinuity indicator is of this kind, which is none of an indicator.
    Discontinuity(Tag),
    /// The message has no value of its discontinuity indicator.
    NoDiscontinuity,
    /// The agent's clock, with this number of boots and of seconds since the last one, is not past
    /// that of its newest sample.
    Clock(u32, u32),
}

/// Returns why a message, if there is one, has for the instance no sample newer than this one.
pub(crate) fn reason_of(
    message: &Option<Message>,
    watched: &Watched,
    newest: Option<Sample>,
) -> Option<Reason>
    ensures { result ≡ reason_of watched.now newest message.now }
{
    match message {
        Some(message) => reason_in(message.body.bindings(), watched, newest),
        None => None,
    }
}

/// Returns why bindings have for the instance no sample newer than this one.
fn reason_in(bindings: &[Binding], watched: &Watched, newest: Option<Sample>) -> Option<Reason>
    ensures { result ≡ reason_in watched.now newest bindings.now }
{
    let value = value_under(watched.instance.name.parts(), bindings)?;
    if let Some(reason) = value_reason(value) {
        return Some(reason);
    }
    if let Some(reason) = discontinuity_reason(&watched.discontinuity, bindings) {
        return Some(reason);
    }
    clock_reason(bindings, newest)
}

/// Returns the value of the first of these bindings that has this name.
fn value_under<'b>(name: &[u32], bindings: &'b [Binding]) -> Option<&'b Value>
    ensures { option_copied result ≡ value_under name.now bindings.now }
{
    let [first, others @ ..] = bindings else {
        return None;
    };
    if name == first.name.parts() {
        return Some(&first.value);
    }
    value_under(name, others)
}

/// Returns `true` if one of these bindings has this name.
pub(crate) fn has_value(name: &[u32], bindings: &[Binding]) -> bool
    ensures { result ≡ is_some (value_under name.now bindings.now) }
{
    value_under(name, bindings).is_some()
}

/// Returns why a value is no sample: it is of a kind that is none.
fn value_reason(value: &Value) -> Option<Reason>
    ensures { result ≡ value_reason value.now }
{
    match value {
        Value::Integer(_)
        | Value::Counter32(_)
        | Value::Gauge32(_)
        | Value::TimeTicks(_)
        | Value::Counter64(_) => None,
        _ => Some(Reason::Value(Tag::of(value))),
    }
}

/// Returns why the value of a discontinuity indicator, if there is one, is none.
fn discontinuity_reason(name: &Option<Oid>, bindings: &[Binding]) -> Option<Reason>
    ensures { result ≡ discontinuity_reason name.now bindings.now }
{
    let Some(name) = name else {
        return None;
    };
    match value_under(name.parts(), bindings) {
        Some(Value::Counter32(_) | Value::Gauge32(_) | Value::TimeTicks(_)) => None,
        Some(value) => Some(Reason::Discontinuity(Tag::of(value))),
        None => Some(Reason::NoDiscontinuity),
    }
}

/// Returns the agent's clock in these bindings if it is not past that of this sample.
fn clock_reason(bindings: &[Binding], newest: Option<Sample>) -> Option<Reason>
    ensures { result ≡ clock_reason newest bindings.now }
{
    let newest = newest?;
    let engine = value_under(&ENGINE_ID, bindings)?;
    let boots = value_under(&ENGINE_BOOTS, bindings)?;
    let time = value_under(&ENGINE_TIME, bindings)?;
    let stamp = Stamp::of(engine, boots, time)?;
    if (stamp.boots, stamp.time) <= (newest.boots(), newest.time()) {
        return Some(Reason::Clock(stamp.boots, stamp.time));
    }
    None
}

/// Returns the engine id in these bindings, if it is another than this.
pub(crate) fn other_than(
    alloc: Global,
    engine: &[u8],
    bindings: &[Binding],
) -> Result<Option<Octets>, AllocError>
    ensures { IfOk result (λ r. r ≡ other_than engine.now bindings.now) }
{
    match value_under(&ENGINE_ID, bindings) {
        Some(Value::Octets(other)) if other.as_slice() != engine => {
            Ok(Some(other.try_clone(alloc)?))
        }
        _ => Ok(None),
    }
}

/// Says why, as after `ENGINE NAME has no new sample: `.
impl fmt::Display for Reason {
    ghost use Rattle.std.specs.Prelude.{Some};
    ghost use Rattle.mon_reasons.specs.Words.{reason_text};

    ghost output = { λ r. Some (reason_text r) };

    fn fmt<W: fmt::Write>(&self, f: &mut fmt::Formatter<W>) -> fmt::Result {
        match *self {
            Reason::Value(Tag::NoSuchObject) => f.write_str("the agent has no such object"),
            Reason::Value(Tag::NoSuchInstance) => f.write_str("the agent has no such instance"),
            Reason::Value(kind) => write!(f, "its value is of the kind {}", kind_name(kind)),
            Reason::Discontinuity(kind) => {
                write!(
                    f,
                    "the value of its mark is of the kind {}",
                    kind_name(kind)
                )
            }
            Reason::NoDiscontinuity => f.write_str("its mark has no value"),
            Reason::Clock(boots, time) => write!(
                f,
                "the agent's clock, {boots}:{time}, is not past that of its newest sample"
            ),
        }
    }
}

/// Returns the name of a kind of values (RFC 2578 section 7.1, RFC 3416 section 3).
fn kind_name<'a>(kind: Tag) -> &'a str
    ensures { result.now ≡ kind_text kind }
{
    match kind {
        Tag::Integer => "INTEGER",
        Tag::OctetString => "OCTET STRING",
        Tag::Null => "NULL",
        Tag::ObjectIdentifier => "OBJECT IDENTIFIER",
        Tag::IpAddress => "IpAddress",
        Tag::Counter32 => "Counter32",
        Tag::Gauge32 => "Gauge32",
        Tag::TimeTicks => "TimeTicks",
        Tag::Opaque => "Opaque",
        Tag::Counter64 => "Counter64",
        Tag::NoSuchObject => "noSuchObject",
        Tag::NoSuchInstance => "noSuchInstance",
        Tag::EndOfMibView => "endOfMibView",
    }
}
