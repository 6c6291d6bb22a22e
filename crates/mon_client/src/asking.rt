//! Asking an agent over a wire.

ghost use Rattle.std.specs.Prelude.{◌≡◌, ◌≢◌, true, false, IfOk, IfSome, IfNone, length};
ghost use Rattle.mon_udp.specs.Told.{GoesOnBy};
ghost use Rattle.mon_client.specs.Asking.{HoldsReply, HoldsNone, IsAsked, IsWait};
ghost use Rattle.mon_client.specs.AtWire.{socket_failures};
ghost use Rattle.mon_client.specs.Question.{asked_in, is_reply};

use crate::question::{Question, is_reply, request};
use crate::wire::{Heard, Wire};
use mon_app::AppFault;
use mon_pdu::{Message, PduFault, laws, read_message, write_message};
use mon_udp::datagram_buffer;
use std::alloc::{AllocError, Global};

/// How often a request is sent.
const SENDS: u8 = 3;

/// How much is received after each sending: of what is no reply 64 are passed over, and the next
/// one ends the wait.
const HEARINGS: u8 = 65;

/// Asks: sends the request at most three times, and returns the first reply that is received. After
/// each sending it waits as long as the wire does, and passes over at most 64 datagrams that are no
/// reply.
///
/// # Errors
/// `Timeout` where no reply came in three waits, `SocketFault` where the wire failed, `BadText`
/// where the request needs 2^32 octets or more, `OutOfMemory`.
pub fn send_request<W: Wire>(
    alloc: Global,
    wire: &mut W,
    question: &Question<'_>,
) -> Result<Message, AppFault>
    ensures asked { GoesOnBy (λ log. IsAsked (asked_in question.now) log result) (W.log wire.old)
        (W.log wire.new) }
    ensures failures { W.failures wire.new ≡ socket_failures result (W.failures wire.old) }
{
    let octets = write_message(alloc, &request(alloc, question)?)?;
    let mut room = datagram_buffer(alloc)?;
    for _ in 0..SENDS {
        wire.send(octets.as_slice())?;
        if let Some(reply) = take_reply(alloc, wire, question, room.as_mut_slice())? {
            return Ok(reply);
        }
    }
    Err(AppFault::Timeout)
}

/// Returns the first reply that is received in the wait after the last sending, or None if the wait
/// ends, or after 64 others.
///
/// # Errors
/// `SocketFault` if the wire failed, `OutOfMemory` if there was no memory for the message that was
/// received.
pub fn take_reply<W: Wire>(
    alloc: Global,
    wire: &mut W,
    question: &Question<'_>,
    room: &mut [u8],
) -> Result<Option<Message>, AppFault>
    ensures wait { GoesOnBy (λ log. IsWait (asked_in question.now) log result) (W.log wire.old)
        (W.log wire.new) }
    ensures failures { W.failures wire.new ≡ socket_failures result (W.failures wire.old) }
{
    for _ in 0..HEARINGS {
        match wire.receive(room)? {
            Heard::Quiet => return Ok(None),
            Heard::Other => {}
            Heard::Datagram(len) => {
                if let Some(reply) = reply_in(alloc, question, &room[..len])? {
                    return Ok(Some(reply));
                }
            }
        }
    }
    Ok(None)
}

/// The reply that a datagram holds.
fn reply_in(
    alloc: Global,
    question: &Question<'_>,
    octets: &[u8],
) -> Result<Option<Message>, AllocError>
    ensures found { IfOk result (λ found. IfSome found (HoldsReply (asked_in question.now)
        octets.now)) }
    ensures none { IfOk result (λ found. IfNone found (HoldsNone (asked_in question.now)
        octets.now)) }
{
    laws::again();
    match read_message(alloc, octets) {
        Ok(message) => Ok(reply_of(question, message)),
        Err(fault) => skip_unread(fault),
    }
}

/// The message, where it replies.
fn reply_of(question: &Question<'_>, message: Message) -> Option<Message>
    ensures some { IfSome result (λ m. (m ≡ message) × (is_reply (asked_in question.now) message
        ≡ true)) }
    ensures none { IfNone result (is_reply (asked_in question.now) message ≡ false) }
{
    if is_reply(question, &message) {
        return Some(message);
    }
    None
}

/// A datagram that could not be read holds no reply, unless memory ran out.
fn skip_unread(fault: PduFault) -> Result<Option<Message>, AllocError>
    ensures { IfOk result (λ found. (found ≡ None) × (fault ≢ PduFault.OutOfMemory)) }
{
    match fault {
        PduFault::OutOfMemory => Err(AllocError),
        _ => Ok(None),
    }
}
