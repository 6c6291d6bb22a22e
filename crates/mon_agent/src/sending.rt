//! Responses, and whether they are sent (RFC 3416 section 4.2).

ghost use Rattle.std.specs.Prelude.{◌≡◌, ◌<◌, ◌≤◌, ◌^◌, ◌↔◌, pos, length, IfOk, IfSome, IfNone};
ghost use Rattle.mon_pdu.specs.declared.message.Message.{Message as AnyMessage};
ghost use Rattle.mon_pdu.specs.Grammar.{bindings_of};
ghost use Rattle.mon_ber.specs.Writing.{size_counted};
ghost use Rattle.mon_pdu.specs.Writing.{HasLength, list_contents, written_message};
ghost use Rattle.mon_agent.specs.Assigned.{returned};
ghost use Rattle.mon_agent.specs.Reply.{IsWithinLimit, IsAboveLimit, IsOut, IsSending, response_body, too_big};

use crate::reply::{Reply, Silence};
use crate::response_builder::is_within;
use mon_ber::Octets;
use mon_pdu::{
    Binding, Bindings, Body, Message, Pdu, PduKind, list_len, size_with, write_measured,
};
use std::alloc::{AllocError, Global};

/// noError (RFC 3416 section 3).
pub(crate) const NO_ERROR: i32 = 0;

/// tooBig (RFC 3416 section 3).
const TOO_BIG: i32 = 1;

/// The response without an error.
pub(crate) fn make_response(community: Octets, request_id: i32, answers: Vec<Binding>) -> Message
    ensures { result ≡ record {
      community = community;
      body = response_body request_id (pos 0)
          (pos 0) answers.items;
    } }
{
    Message {
        community,
        body: response_body(request_id, NO_ERROR, 0, Bindings::new(answers)),
    }
}

/// The response to a message that has the variable bindings of the message itself, with this error.
pub(crate) fn make_return(message: Message, error_status: i32, error_index: i32) -> Message
    ensures { result ≡ returned message error_status error_index }
{
    let Message { community, body } = message;
    let (request_id, bindings) = match body {
        Body::Pdu(pdu) => (pdu.request_id, pdu.bindings),
        Body::Bulk(bulk) => (bulk.request_id, bulk.bindings),
    };
    Message {
        community,
        body: response_body(request_id, error_status, error_index, bindings),
    }
}

/// A Response-PDU.
fn response_body(request_id: i32, error_status: i32, error_index: i32, bindings: Bindings) -> Body
    ensures { result ≡ response_body request_id error_status error_index bindings }
{
    Body::Pdu(Pdu {
        kind: PduKind::Response,
        request_id,
        error_status,
        error_index,
        bindings,
    })
}

/// Sends a response, or tooBig in its place where it is above the limit, or nothing where both are.
pub(crate) fn send(
    alloc: Global,
    reply: Message,
    max_message_size: i32,
) -> Result<Reply, AllocError>
    ensures { IfOk result (IsOut max_message_size reply reply) }
{
    let list = list_len(reply.body.bindings());
    send_measured(alloc, reply, list, max_message_size)
}

/// Sends what `send` does, where the variable bindings of the response take `list` octets.
pub(crate) fn send_measured(
    alloc: Global,
    reply: Message,
    list: usize,
    max_message_size: i32,
) -> Result<Reply, AllocError>
    requires { list ≡ size_counted (length (list_contents (bindings_of reply.body))) }
    ensures { IfOk result (IsOut max_message_size reply reply) }
{
    match measure_within(&reply, list, max_message_size) {
        Some(size) => write_listed(alloc, &reply, list, size),
        None => send_too_big(alloc, reply, max_message_size),
    }
}

/// Sends tooBig in the place of any response of this community and request-id that is above the
/// limit, or nothing where tooBig is above it too.
pub(crate) fn send_too_big(
    alloc: Global,
    reply: Message,
    max_message_size: i32,
) -> Result<Reply, AllocError>
    ensures { (other : AnyMessage) → too_big reply ≡ too_big other
        → IsAboveLimit max_message_size other
        → IfOk result (IsOut max_message_size other other) }
{
    let response = too_big(alloc, reply);
    match size_within(&response, max_message_size) {
        Some(size) => write(alloc, &response, size),
        None => Ok(Reply::Silent(Silence::TooBigTwice)),
    }
}

/// The response that says that no response fits.
fn too_big(alloc: Global, reply: Message) -> Message
    ensures { result ≡ too_big reply }
{
    let request_id = match &reply.body {
        Body::Pdu(pdu) => pdu.request_id,
        Body::Bulk(bulk) => bulk.request_id,
    };
    Message {
        community: reply.community,
        body: response_body(request_id, TOO_BIG, 0, Bindings::new(Vec::new(alloc))),
    }
}

/// The size of a message in octets, where it is within a limit.
pub(crate) fn size_within(message: &Message, max_message_size: i32) -> Option<usize>
    ensures size { IfSome result (λ size. size ≡ length (written_message message.now)) }
    ensures length { IfSome result (λ size. HasLength message.now) }
    ensures within { IfSome result (λ size. IsWithinLimit max_message_size message.now) }
    ensures small { IfSome result (λ size. size < 2 ^ 32) }
    ensures above { IfNone result (IsAboveLimit max_message_size message.now) }
{
    measure_within(message, list_len(message.body.bindings()), max_message_size)
}

/// The size of a message in octets, where it is within a limit. Its variable bindings take `list`
/// octets.
fn measure_within(message: &Message, list: usize, max_message_size: i32) -> Option<usize>
    requires { list ≡ size_counted (length (list_contents (bindings_of message.now.body))) }
    ensures size { IfSome result (λ size. size ≡ length (written_message message.now)) }
    ensures length { IfSome result (λ size. HasLength message.now) }
    ensures within { IfSome result (λ size. IsWithinLimit max_message_size message.now) }
    ensures small { IfSome result (λ size. size < 2 ^ 32) }
    ensures above { IfNone result (IsAboveLimit max_message_size message.now) }
{
    let size = size_with(message, list);
    if !is_within(size, max_message_size) {
        return None;
    }
    Some(size)
}

/// Sends a message that takes this many octets at most.
pub(crate) fn write(alloc: Global, message: &Message, size: usize) -> Result<Reply, AllocError>
    requires length { HasLength message.now }
    requires size { length (written_message message.now) ≤ size }
    ensures { IfOk result (IsSending message.now) }
{
    write_listed(alloc, message, list_len(message.body.bindings()), size)
}

/// Sends what `write` does, where the variable bindings of the message take `list` octets.
fn write_listed(
    alloc: Global,
    message: &Message,
    list: usize,
    size: usize,
) -> Result<Reply, AllocError>
    requires measured { list ≡ size_counted
        (length (list_contents (bindings_of message.now.body))) }
    requires length { HasLength message.now }
    requires size { length (written_message message.now) ≤ size }
    ensures { IfOk result (IsSending message.now) }
{
    let mut octets = Vec::with_capacity(alloc, size)?;
    write_measured(&mut octets, message, list);
    Ok(Reply::Send(octets))
}
