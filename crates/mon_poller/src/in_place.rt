//! Reading a response in place: one that has all the names that its poll asked for, each spelled as
//! it was asked. It makes no name and no list of variable bindings of it. Any other datagram gives
//! None here and is read as a message, which says what is wrong with it.

ghost use Rattle.std.specs.Prelude.{◌≡◌, ◌++◌, ◌<◌, ◌^◌, pos, List, Ok, Some, IfSome, OnSome, length, true};
ghost use Rattle.std.specs.List.{flat_map};
ghost use Rattle.slab.specs.Slab.{get};
ghost use Rattle.mon_ber.specs.declared.value.Value.{Value as AnyValue};
ghost use Rattle.mon_ber.specs.Sequence.{AreSpelled};
ghost use Rattle.mon_pdu.specs.declared.message.Binding.{Binding as AnyBinding};
ghost use Rattle.mon_pdu.specs.declared.message.Message.{Message as AnyMessage};
ghost use Rattle.mon_pdu.specs.declared.message.Pdu.{Pdu as AnyPdu};
ghost use Rattle.mon_pdu.specs.declared.message.PduKind.TheVariants as kinds;
ghost use Rattle.mon_pdu.specs.Framed.{framed};
ghost use Rattle.mon_pdu.specs.Grammar.{BeginsWithMessage, IsBinding};
ghost use Rattle.mon_poller.specs.InPlace.{IsMarked, IsOffered, IsRead, IsSampled, OffersSo, framed_pdu, given};
ghost use Rattle.mon_poller.specs.Lent.{lent_stamp};
ghost use Rattle.mon_poller.specs.Poller.{AreSlots, open_of, poll_in};
ghost use Rattle.mon_poller.specs.Stamp.{octets_in, stamp_number};
ghost use Rattle.mon_poller.specs.Target.{SpellNames, object_names, poll_names, target_at};
ghost use Rattle.mon_poller.specs.Verdict.{awaited, have_names, response_pdu, target_offers};

use crate::asked::PolledTargets;
use crate::finding::find;
use crate::lent::Stamp;
use crate::poller::{Offered, OpenPoll};
use crate::stamp::{discontinuity_in, octets_in, stamp_number};
use crate::target::{Object, Target};
use mon_ber::{Octets, Value};
use mon_board::InstanceSamples;
use mon_oid::Oid;
use mon_pdu::{Frame, PduKind, named_value, read_frame};
use mon_sample::Sample;
use mon_udp::Addr;
use slab::Slab;
use std::alloc::Global;

/// The slot of the poll that a datagram answers, the poll, and what is offered of its target. None
/// where the datagram is not read in place, or where memory is refused.
pub(crate) fn in_place(
    alloc: Global,
    asked: &PolledTargets,
    polls: &Slab<OpenPoll>,
    from: Addr,
    octets: &[u8],
) -> Option<(usize, OpenPoll, Offered)>
    requires { AreSlots asked.now polls.now }
    ensures slot { IfSome result (λ r. get polls.now r.0 ≡ Some r.1) }
    ensures offered { IfSome result (λ r. (m : AnyMessage) × (pdu : AnyPdu)
        × IsOffered asked.now (open_of polls.now.slots) from octets.now m pdu r.1.id (poll_in r.1)
        r.2) }
{
    let frame = read_frame(octets)?;
    let (key, poll) = framed_poll(asked.as_slice(), polls, from, &frame)?;
    let number = usize::from(poll.target);
    let offered = offers(
        alloc,
        poll.target,
        asked.at(number),
        asked.names(number).as_slice(),
        frame.list,
    )?;
    Some((key, poll, offered))
}

/// The slot of the poll that a Response of this frame answers, and the poll. None where it answers
/// none, or has an error-status.
fn framed_poll(
    targets: &[Target],
    polls: &Slab<OpenPoll>,
    from: Addr,
    frame: &Frame<'_>,
) -> Option<(usize, OpenPoll)>
    requires { AreSlots targets.now polls.now }
    ensures slot { IfSome result (λ r. get polls.now r.0 ≡ Some r.1) }
    ensures target { IfSome result (λ r. r.1.target < length targets.now) }
    ensures id { IfSome result (λ r. frame.now.request_id ≡ pos r.1.id) }
    ensures status { IfSome result (λ _. frame.now.error_status ≡ pos 0) }
    ensures response { IfSome result (λ _. (bindings : List AnyBinding)
        → response_pdu (framed frame.now bindings).body ≡ Some (framed_pdu frame.now bindings)) }
    ensures awaited { IfSome result (λ r. (bindings : List AnyBinding)
        → awaited targets.now (open_of polls.now.slots) from (Some (framed frame.now bindings))
        ≡ Ok (poll_in r.1, framed_pdu frame.now bindings)) }
{
    let id = response_id(frame)?;
    let (key, poll) = find(polls, id)?;
    let target = &targets[usize::from(poll.target)];
    if from != target.address || frame.community != target.community.as_slice() {
        return None;
    }
    Some((key, poll))
}

/// The request-id of a frame of a Response with error-status 0.
fn response_id(frame: &Frame<'_>) -> Option<u32>
    ensures id { IfSome result (λ id. frame.now.request_id ≡ pos id) }
    ensures status { IfSome result (λ _. frame.now.error_status ≡ pos 0) }
    ensures kind { IfSome result (λ _. frame.now.kind ≡ kinds.Response) }
{
    if frame.kind != PduKind::Response || frame.error_status != 0 {
        return None;
    }
    u32::try_from(frame.request_id).ok()
}

/// Names that a poll asked for, and the octets of the variable bindings that are to have them.
#[derive(Clone, Copy)]
struct Unread<'a> {
    names: &'a [Octets],
    list: &'a [u8],
}

/// What is offered of the target of this number in the variable bindings of a response, which these
/// octets spell.
fn offers<'a>(
    alloc: Global,
    number: u16,
    target: &Target,
    names: &'a [Octets],
    list: &'a [u8],
) -> Option<Offered>
    requires { SpellNames names.now (poll_names target.now) }
    ensures { IfSome result (λ o. (bindings : List AnyBinding)
        × AreSpelled IsBinding list.now bindings × (have_names (poll_names target.now) bindings
        ≡ true) × (target_offers number target.now bindings ≡ Ok o)) }
{
    let unread = after_engine(alloc, target.engine.as_slice(), &Unread { names, list })?;
    let (boots, unread) = next_number(alloc, &unread)?;
    let (time, unread) = next_number(alloc, &unread)?;
    let stamp = Stamp {
        engine: &target.engine,
        boots,
        time,
    };
    let mut pairs = InstanceSamples::new(alloc);
    put_pairs(
        alloc,
        &stamp,
        target.objects.as_slice(),
        &unread,
        &mut pairs,
    )?;
    Some(Offered {
        target: number,
        boots,
        time,
        pairs,
    })
}

/// The value of the next name, and what is left. Returns `None` if there is none, or its name has
/// another spelling.
fn next_value<'a>(alloc: Global, unread: &Unread<'a>) -> Option<(Value, Unread<'a>)>
    ensures { IfSome result (λ r. IsRead unread.now.names.now unread.now.list.now r.0 r.1.names.now
        r.1.list.now) }
{
    let [name, names @ ..] = unread.names else {
        return None;
    };
    let (value, list) = named_value(alloc, name.as_slice(), unread.list)?;
    Some((value, Unread { names, list }))
}

/// What is left after the next value, where that is this engine's id.
fn after_engine<'a>(alloc: Global, engine: &[u8], unread: &Unread<'a>) -> Option<Unread<'a>>
    ensures { IfSome result (λ r. (v : AnyValue) × IsRead unread.now.names.now unread.now.list.now v
        r.names.now r.list.now × (octets_in v ≡ Some engine.now)) }
{
    let (value, unread) = next_value(alloc, unread)?;
    if octets_in(&value)?.as_slice() == engine {
        Some(unread)
    } else {
        None
    }
}

/// The number that the next value is, boots or a time, and what is left.
fn next_number<'a>(alloc: Global, unread: &Unread<'a>) -> Option<(u32, Unread<'a>)>
    ensures number { IfSome result (λ r. (v : AnyValue) × IsRead unread.now.names.now
        unread.now.list.now v r.1.names.now r.1.list.now × (stamp_number v ≡ Some r.0)) }
    ensures small { IfSome result (λ r. r.0 < 2 ^ 31) }
{
    let (value, unread) = next_value(alloc, unread)?;
    let number = stamp_number(&value)?;
    Some((number, unread))
}

/// Adds what is offered of these objects. It stops where one of them has another name, or another
/// spelling of it.
fn put_pairs(
    alloc: Global,
    stamp: &Stamp<'_>,
    objects: &[Object],
    unread: &Unread<'_>,
    pairs: &mut InstanceSamples,
) -> Option<()>
    requires { SpellNames unread.now.names.now (flat_map object_names objects.now) }
    ensures { OnSome result (OffersSo (lent_stamp stamp.now) objects.now unread.now.list.now
        pairs.old pairs.new) }
{
    let mut rest = *unread;
    for object in objects {
        let Some((sample, after)) = next_sample(alloc, stamp, object, &rest) else {
            return None;
        };
        put_sample(object.instance, sample, pairs)?;
        rest = after;
    }
    if rest.list.is_empty() { Some(()) } else { None }
}

/// The sample of an object, where its value and its discontinuity are one, and what is left after
/// them.
fn next_sample<'a>(
    alloc: Global,
    stamp: &Stamp<'_>,
    object: &Object,
    unread: &Unread<'a>,
) -> Option<(Option<Sample>, Unread<'a>)>
    ensures { IfSome result (λ r. IsSampled (lent_stamp stamp.now) object.now.discontinuity
        unread.now.names.now unread.now.list.now r.0 r.1.names.now r.1.list.now) }
{
    let (value, unread) = next_value(alloc, unread)?;
    let (discontinuity, unread) = next_discontinuity(alloc, &object.discontinuity, &unread)?;
    Some((stamp.sample(&value, discontinuity), unread))
}

/// The value of an object's discontinuity, 0 where it has none, and what is left.
fn next_discontinuity<'a>(
    alloc: Global,
    discontinuity: &Option<Oid>,
    unread: &Unread<'a>,
) -> Option<(Option<u32>, Unread<'a>)>
    ensures { IfSome result (λ r. IsMarked discontinuity.now unread.now.names.now
        unread.now.list.now r.0 r.1.names.now r.1.list.now) }
{
    let Some(_) = discontinuity else {
        return Some((Some(0), *unread));
    };
    let (value, unread) = next_value(alloc, unread)?;
    Some((discontinuity_in(&value), unread))
}

/// Adds the sample of an instance, where there is one.
fn put_sample(instance: u16, sample: Option<Sample>, pairs: &mut InstanceSamples) -> Option<()>
    ensures { OnSome result (pairs.new ≡ pairs.old ++ given instance sample) }
{
    match sample {
        Some(sample) => pairs.push(instance, sample).ok(),
        None => Some(()),
    }
}
