//! Which open poll a message responds to, and whether its answer ends the poll.

ghost use Rattle.std.specs.Prelude.{◌≡◌, ◌<◌, ◌≤◌, Option, pos, Some, IfOk, IfErr, length};
ghost use Rattle.slab.specs.Slab.{get};
ghost use Rattle.mon_poller.specs.Fault.{response_number};
ghost use Rattle.mon_poller.specs.Gives.{Gives, or_refuse};
ghost use Rattle.mon_poller.specs.Poller.{AreSlots, open_of, poll_in};
ghost use Rattle.mon_poller.specs.Verdict.{ReadsAs, awaited, ends, response_pdu};
ghost use Rattle.mon_pdu.specs.declared.message.Message.{Message as AnyMessage};
ghost use Rattle.mon_poller.specs.declared.fault.ResponseFault.TheVariants.{BadMessage};

use crate::fault::ResponseFault;
use crate::finding::find;
use crate::offers::response_pdu;
use crate::poller::{Offered, OpenPoll};
use crate::target::Target;
use mon_pdu::{Message, Pdu, read_message};
use mon_udp::Addr;
use slab::Slab;
use std::alloc::Global;

/// The message that a datagram begins with.
pub(crate) fn read(alloc: Global, octets: &[u8]) -> Result<Message, ResponseFault>
    ensures read { (read : Option AnyMessage) × ReadsAs octets.now read }
    ensures gives { (read : Option AnyMessage) → ReadsAs octets.now read
        → Gives (λ m. m) result (or_refuse BadMessage read) }
{
    mon_pdu::laws::takes();
    mon_pdu::laws::again();
    Ok(read_message(alloc, octets)?)
}

/// The slot of the poll that the message responds to, the poll and the Response, or the first
/// reason why it responds to none.
#[tactic(auto, unfolding(crate::specs::Verdict::awaited))]
pub(crate) fn find_awaited<'m>(
    targets: &[Target],
    polls: &Slab<OpenPoll>,
    from: Addr,
    message: &'m Message,
) -> Result<(usize, OpenPoll, &'m Pdu), ResponseFault>
    requires { AreSlots targets.now polls.now }
    ensures verdict { Gives (λ r. (poll_in r.1, r.2.now)) result
        (awaited targets.now (open_of polls.now.slots) from (Some message.now)) }
    ensures response { IfOk result (λ r. response_pdu message.now.body ≡ Some r.2.now) }
    ensures slot { IfOk result (λ r. get polls.now r.0 ≡ Some r.1) }
    ensures id { IfOk result (λ r. r.2.now.request_id ≡ pos r.1.id) }
    ensures target { IfOk result (λ r. r.1.target < length targets.now) }
    // Nothing that is refused here ends a poll.
    ensures early { IfErr result (λ e. response_number e ≤ 5) }
{
    let Some(pdu) = response_pdu(&message.body) else {
        return Err(ResponseFault::BadMessage);
    };
    let Ok(id) = u32::try_from(pdu.request_id) else {
        return Err(ResponseFault::Stray);
    };
    let Some((key, poll)) = find(polls, id) else {
        return Err(ResponseFault::Stray);
    };
    let target = &targets[usize::from(poll.target)];
    if from != target.address {
        return Err(ResponseFault::WrongSource);
    }
    if message.community.as_slice() != target.community.as_slice() {
        return Err(ResponseFault::WrongCommunity);
    }
    Ok((key, poll, pdu))
}

/// Returns `true` if a response with this answer ends its poll.
pub(crate) fn ends_poll(poll_answer: &Result<Offered, ResponseFault>) -> bool
    ensures { result ≡ ends poll_answer.now }
{
    match poll_answer {
        Ok(_) => true,
        Err(fault) => fault.number() > 5,
    }
}
