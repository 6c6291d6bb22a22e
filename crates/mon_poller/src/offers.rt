//! What a response offers: samples of the objects that were asked for.

ghost use Rattle.std.specs.Prelude.{◌≡◌, ◌∷◌, ℕ, List, IfOk, drop};
ghost use Rattle.std.specs.List.{flat_map};
ghost use Rattle.std.specs.Option.{option_copied};
ghost use Rattle.mon_poller.specs.Gives.{Gives};
ghost use Rattle.mon_poller.specs.Lent.{lent_stamp};
ghost use Rattle.mon_poller.specs.Target.{poll_names, object_names};
ghost use Rattle.mon_poller.specs.Verdict.{no_error, response_pdu, have_names, have_after, stamp_and_others, discontinuity_value, bindings_for, sample_of, object_offers, target_offers, poll_answer};

use crate::fault::ResponseFault;
use crate::lent::Stamp;
use crate::poller::Offered;
use crate::stamp::{ENGINE_BOOTS, ENGINE_ID, ENGINE_TIME, discontinuity_in};
use crate::target::{Object, Target};
use mon_board::InstanceSamples;
use mon_oid::Oid;
use mon_pdu::{Binding, Body, Pdu, PduKind};
use mon_sample::Sample;
use std::alloc::{AllocError, Global};

/// The Response that a PDU is.
pub(crate) fn response_pdu(body: &Body) -> Option<&Pdu>
    ensures { option_copied result ≡ response_pdu body.now }
{
    match body {
        Body::Bulk(_) => None,
        Body::Pdu(pdu) => {
            if pdu.kind == PduKind::Response {
                Some(pdu)
            } else {
                None
            }
        }
    }
}

/// What a response offers of the target that it came from, which has this number, or the first
/// reason why it offers nothing.
#[tactic(auto, unfolding(crate::specs::Verdict::poll_answer))]
pub(crate) fn poll_answer(
    alloc: Global,
    number: u16,
    target: &Target,
    pdu: &Pdu,
) -> Result<Offered, ResponseFault>
    ensures { Gives (λ o. o) result (poll_answer number target.now pdu.now) }
{
    require_no_error(pdu)?;
    let bindings = pdu.bindings.as_slice();
    if !have_names(target, bindings) {
        return Err(ResponseFault::WrongNames);
    }
    target_offers(alloc, number, target, bindings)
}

/// Requires error-status 0.
fn require_no_error(pdu: &Pdu) -> Result<(), ResponseFault>
    ensures { Gives (λ u. u) result (no_error pdu.now.error_status pdu.now.error_index) }
{
    if pdu.error_status != 0 {
        return Err(ResponseFault::AgentError(pdu.error_status, pdu.error_index));
    }
    Ok(())
}

/// What the bindings offer of the target of this number, whose names they have.
#[tactic(auto, unfolding(crate::specs::Verdict::target_offers))]
fn target_offers(
    alloc: Global,
    number: u16,
    target: &Target,
    bindings: &[Binding],
) -> Result<Offered, ResponseFault>
    ensures { Gives (λ o. o) result (target_offers number target.now bindings.now) }
{
    let (stamp, others) = stamp_and_others(bindings)?;
    if stamp.engine.as_slice() != target.engine.as_slice() {
        return Err(ResponseFault::OtherEngine);
    }
    let pairs = object_offers(alloc, &stamp, target.objects.as_slice(), others)?;
    Ok(Offered {
        target: number,
        boots: stamp.boots,
        time: stamp.time,
        pairs,
    })
}

/// Returns `true` if the bindings have the names that the target is asked for, in their order.
fn have_names(target: &Target, bindings: &[Binding]) -> bool
    ensures { result ≡ have_names (poll_names target.now) bindings.now }
{
    let Some(bindings) = after_name(&ENGINE_ID, bindings) else {
        return false;
    };
    let Some(bindings) = after_name(&ENGINE_BOOTS, bindings) else {
        return false;
    };
    let Some(bindings) = after_name(&ENGINE_TIME, bindings) else {
        return false;
    };
    name_objects(target.objects.as_slice(), bindings)
}

/// The bindings after the first, if that has this name.
fn after_name<'b>(name: &[u32], bindings: &'b [Binding]) -> Option<&'b [Binding]>
    ensures { (names : List (List ℕ)) → have_names (name.now ∷ names) bindings.now
        ≡ have_after names (option_copied result) }
{
    let [first, others @ ..] = bindings else {
        return None;
    };
    if name == first.name.parts() {
        Some(others)
    } else {
        None
    }
}

/// Returns `true` if the bindings have the names by which these objects are asked for.
fn name_objects(objects: &[Object], bindings: &[Binding]) -> bool
    ensures { result ≡ have_names (flat_map object_names objects.now) bindings.now }
{
    let [object, objects @ ..] = objects else {
        return bindings.is_empty();
    };
    let [binding, bindings @ ..] = bindings else {
        return false;
    };
    if object.name.parts() != binding.name.parts() {
        return false;
    }
    let Some(discontinuity) = &object.discontinuity else {
        return name_objects(objects, bindings);
    };
    let [binding, bindings @ ..] = bindings else {
        return false;
    };
    discontinuity.parts() == binding.name.parts() && name_objects(objects, bindings)
}

/// The stamp at the front of the bindings, and the other bindings.
#[tactic(auto, unfolding(crate::specs::Verdict::stamp_and_others))]
fn stamp_and_others(bindings: &[Binding]) -> Result<(Stamp<'_>, &[Binding]), ResponseFault>
    ensures { Gives (λ r. (lent_stamp r.0, r.1.now)) result (stamp_and_others bindings.now) }
{
    let [first, second, third, others @ ..] = bindings else {
        return Err(ResponseFault::BadStamp);
    };
    match Stamp::of(&first.value, &second.value, &third.value) {
        Some(stamp) => Ok((stamp, others)),
        None => Err(ResponseFault::BadStamp),
    }
}

/// What the bindings after a stamp offer of the objects, in their order.
fn object_offers(
    alloc: Global,
    stamp: &Stamp<'_>,
    objects: &[Object],
    bindings: &[Binding],
) -> Result<InstanceSamples, AllocError>
    ensures { IfOk result (λ pairs. pairs ≡ object_offers (lent_stamp stamp.now) objects.now
        bindings.now) }
{
    let mut pairs = InstanceSamples::new(alloc);
    let mut rest = bindings;
    for object in objects {
        if let Some(sample) = sample_of(stamp, object, rest) {
            pairs.push(object.instance, sample)?;
        }
        rest = after_first(rest, bindings_for(&object.discontinuity));
    }
    Ok(pairs)
}

/// Returns the sample of an object whose bindings come first: its value is of a sampled kind, and
/// its discontinuity, if it has one, of that kind.
#[tactic(auto, unfolding(crate::specs::Verdict::sample_of))]
fn sample_of(stamp: &Stamp<'_>, object: &Object, bindings: &[Binding]) -> Option<Sample>
    ensures { result ≡ sample_of (lent_stamp stamp.now) object.now bindings.now }
{
    let [first, ..] = bindings else {
        return None;
    };
    stamp.sample(
        &first.value,
        discontinuity_value(&object.discontinuity, bindings),
    )
}

/// The value of an object's discontinuity, in the second of its bindings; 0 where it has none.
fn discontinuity_value(discontinuity: &Option<Oid>, bindings: &[Binding]) -> Option<u32>
    ensures { result ≡ discontinuity_value discontinuity.now bindings.now }
{
    match discontinuity {
        None => Some(0),
        Some(_) => match bindings {
            [_, second, ..] => discontinuity_in(&second.value),
            _ => None,
        },
    }
}

/// How many bindings answer an object with this discontinuity.
fn bindings_for(discontinuity: &Option<Oid>) -> usize
    ensures { result ≡ bindings_for discontinuity.now }
{
    match discontinuity {
        None => 1,
        Some(_) => 2,
    }
}

/// The bindings after the first n.
fn after_first(bindings: &[Binding], n: usize) -> &[Binding]
    ensures { result.now ≡ drop n bindings.now }
{
    if n < bindings.len() {
        &bindings[n..]
    } else {
        &[]
    }
}
