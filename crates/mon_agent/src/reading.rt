//! What is sent for a request to read (RFC 3416 sections 4.2.1 to 4.2.3), by a search in the view
//! that it is granted.

ghost use Rattle.std.specs.Prelude.{◌≡◌, ℕ, true, List, IfOk};
ghost use Rattle.mon_pdu.specs.declared.message.Binding.{Binding as AnyBinding};
ghost use Rattle.mon_pdu.specs.declared.message.Body.TheVariants as bodies;
ghost use Rattle.mon_pdu.specs.declared.message.Message.{Message as AnyMessage};
ghost use Rattle.mon_pdu.specs.Sizes.{with_bindings};
ghost use Rattle.mon_vacm.specs.declared.view_type.ViewType.TheVariants.{Read};
ghost use Rattle.mon_mib.specs.Search.{IsSeenIn, known_in};
ghost use Rattle.mon_agent.specs.Answer.{IsReading, is_answered, is_request, need_of, need_of_kind};
ghost use Rattle.mon_agent.specs.Bulk.{IsStepper};
ghost use Rattle.mon_agent.specs.Sent.{IsReadOut, IsSentFor};
ghost use Rattle.mon_agent.specs.Step.{AreFor, IsGetAnswer, IsNextAnswer, got_value};

use crate::bulk::{bulk, extend};
use crate::laws;
use crate::reply::Reply;
use crate::response_builder::{ResponseBuilder, with_bindings};
use crate::sending::{make_response, send, send_too_big};
use mon_ber::{Octets, Value};
use mon_mib::{Device, Got, Search};
use mon_oid::Oid;
use mon_pdu::{Binding, Body, Bulk, Message, Pdu, PduKind};
use std::alloc::{AllocError, Global};

/// What is sent for a request to read: its response, or tooBig, or nothing.
pub(crate) fn read<D: Device + Drop>(
    alloc: Global,
    search: &mut Search<'_, D>,
    message: Message,
) -> Result<Reply, AllocError>
    requires request { is_request message.body ≡ true }
    requires read { need_of message.body ≡ Read }
    ensures { IfOk result (IsReadOut (known_in D.held search.old) (IsSeenIn search.old) message) }
{
    let Message { community, body } = message;
    match body {
        Body::Bulk(bulk) => read_bulk(alloc, search, community, bulk),
        Body::Pdu(pdu) => read_pdu(alloc, search, community, pdu),
    }
}

/// What is sent for a Get or GetNext.
fn read_pdu<D: Device + Drop>(
    alloc: Global,
    search: &mut Search<'_, D>,
    community: Octets,
    pdu: Pdu,
) -> Result<Reply, AllocError>
    requires answered { is_answered pdu.kind ≡ true }
    requires read { need_of_kind pdu.kind ≡ Read }
    ensures { let message : AnyMessage = record { community = community; body = bodies.Pdu pdu } in
        IfOk result (IsReadOut (known_in D.held search.old) (IsSeenIn search.old) message) }
{
    let asked = pdu.bindings.into_vec();
    let head = make_response(community, pdu.request_id, Vec::new(alloc));
    if pdu.kind == PduKind::Get {
        read_names(alloc, search, head, asked)
    } else {
        read_next(alloc, search, head, asked.as_slice())
    }
}

/// What is sent for a Get, whose response without variable bindings this is.
fn read_names<D: Device + Drop>(
    alloc: Global,
    search: &Search<'_, D>,
    head: Message,
    asked: Vec<Binding>,
) -> Result<Reply, AllocError>
    ensures { let R = IsGetAnswer (known_in D.held search.now) (IsSeenIn search.now) in
        IfOk result (IsSentFor search.now.map.settings.max_message_size R head asked.items) }
{
    let answers = read_all(alloc, search, asked)?;
    let response = with_bindings(head, answers);
    send(alloc, response, search.settings().max_message_size)
}

/// The variable bindings of a Get with their values.
fn read_all<D: Device + Drop>(
    alloc: Global,
    search: &Search<'_, D>,
    asked: Vec<Binding>,
) -> Result<Vec<Binding>, AllocError>
    ensures { let R = IsGetAnswer (known_in D.held search.now) (IsSeenIn search.now) in
        IfOk result (λ answers. AreFor R asked.items answers.items) }
{
    let mut answers = asked;
    for binding in answers.iter_mut() {
        let got = search.get(alloc, &binding.name)?;
        binding.value = got_value(got);
    }
    Ok(answers)
}

/// Returns the value of what was found.
pub(crate) fn got_value(got: Got) -> Value
    ensures { result ≡ got_value got }
{
    match got {
        Got::Found(value) => value,
        Got::NoObject => Value::NoSuchObject,
        Got::NoInstance => Value::NoSuchInstance,
    }
}

/// What is sent for a GetNext, whose response without variable bindings this is. No name is
/// answered after the response is certain to be above the limit.
fn read_next<D: Device + Drop>(
    alloc: Global,
    search: &mut Search<'_, D>,
    head: Message,
    asked: &[Binding],
) -> Result<Reply, AllocError>
    ensures { let R = IsNextAnswer (known_in D.held search.old) (IsSeenIn search.old) in
        IfOk result (IsSentFor search.old.map.settings.max_message_size R head asked.now) }
{
    mon_pdu::laws::grows();
    laws::stepper();
    let max_message_size = search.settings().max_message_size;
    let mut reply = ResponseBuilder::new(alloc, head, max_message_size);
    let all = extend(alloc, search, &mut reply, asked)?;
    if all {
        reply.send(alloc)
    } else {
        send_too_big(alloc, reply.into_message(), max_message_size)
    }
}

/// What is sent for a GetBulk.
fn read_bulk<D: Device + Drop>(
    alloc: Global,
    search: &mut Search<'_, D>,
    community: Octets,
    bulk: Bulk,
) -> Result<Reply, AllocError>
    ensures { let message : AnyMessage = record { community = community; body = bodies.Bulk bulk }
        in
        IfOk result (IsReadOut (known_in D.held search.old) (IsSeenIn search.old) message) }
{
    let response = bulk_response(alloc, search, community, bulk)?;
    response.send(alloc)
}

/// The response to a GetBulk.
fn bulk_response<D: Device + Drop>(
    alloc: Global,
    search: &mut Search<'_, D>,
    community: Octets,
    request: Bulk,
) -> Result<ResponseBuilder, AllocError>
    ensures reading { let message : AnyMessage = record {
      community = community;
      body = bodies.Bulk
          request;
    } in
        IfOk result (λ response. IsReading (known_in D.held search.old) (IsSeenIn search.old) message (with_bindings response.head response.bindings)) }
    ensures max_message_size { IfOk result
        (λ response. response.max_message_size ≡ search.old.map.settings.max_message_size) }
{
    mon_pdu::laws::grows();
    let head = make_response(community, request.request_id, Vec::new(alloc));
    let mut reply = ResponseBuilder::new(alloc, head, search.settings().max_message_size);
    bulk(alloc, search, &mut reply, &request)?;
    reply.invariants();
    Ok(reply)
}

/// The binding that answers a name in a GetNext.
pub(crate) fn step<D: Device + Drop>(
    alloc: Global,
    search: &mut Search<'_, D>,
    name: &Oid,
) -> Result<Binding, AllocError>
    ensures step { IfOk result (IsNextAnswer (known_in D.held search.old) (IsSeenIn search.old)
        name.now) }
    // It is the one that every right choice of answers has.
    ensures only { (next : List ℕ → AnyBinding) → IsStepper (known_in D.held search.old)
        (IsSeenIn search.old) next
        → IfOk result (λ answer. answer ≡ next name.now) }
    ensures stays { search.new ≡ search.old }
{
    laws::one_step();
    match search.next(alloc, name)? {
        Some(binding) => Ok(binding),
        None => Ok(Binding {
            name: name.try_clone(alloc)?,
            value: Value::EndOfMibView,
        }),
    }
}
