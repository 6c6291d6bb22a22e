//! A question to an agent: a Get, GetNext, GetBulk or Set request, and which messages reply to it.

ghost use Rattle.std.specs.Prelude.{◌≡◌, IfOk, map};
ghost use Rattle.mon_client.specs.Question.{asking_body, plain, request_of, asked_in, wanted_value, asked_for, same_names, are_answers, is_reply};

use mon_ber::{Octets, Value};
use mon_oid::Oid;
use mon_pdu::{Binding, Bindings, Body, Bulk, Message, Pdu, PduKind};
use std::alloc::{AllocError, Global};

/// Which request asks (RFC 3416 sections 4.2.1 to 4.2.3 and 4.2.5).
#[derive(Clone, Copy)]
pub enum Asking<'a> {
    /// For the variables of the names.
    Get,
    /// For those after the names.
    GetNext,
    /// For those after the names, again and again.
    GetBulk(Repeats),
    /// To assign this value to the variable of each name.
    Set(&'a Value),
}

/// How often a GetBulk asks for what comes next (RFC 3416 section 4.2.3).
#[derive(Clone, Copy, Debug, PartialEq, Eq)]
pub struct Repeats {
    /// How many of the names are asked for once.
    pub non_repeaters: i32,
    /// How often each of the others is asked for at most.
    pub max_repetitions: i32,
}

impl Asking<'_> {
    /// The value that each name has in the request: the one to be assigned, else none yet
    /// (`unSpecified`).
    fn value(self, alloc: Global) -> Result<Value, AllocError>
        ensures { IfOk result (λ v. v ≡ wanted_value self.entry) }
    {
        match self {
            Asking::Set(value) => value.try_clone(alloc),
            _ => Ok(Value::Null),
        }
    }

    /// The PDU that asks.
    fn body(self, request_id: i32, bindings: Bindings) -> Body
        ensures { result ≡ asking_body self.entry request_id bindings }
    {
        match self {
            Asking::Get => plain(PduKind::Get, request_id, bindings),
            Asking::GetNext => plain(PduKind::GetNext, request_id, bindings),
            Asking::GetBulk(repeats) => Body::Bulk(Bulk {
                request_id,
                non_repeaters: repeats.non_repeaters,
                max_repetitions: repeats.max_repetitions,
                bindings,
            }),
            Asking::Set(_) => plain(PduKind::Set, request_id, bindings),
        }
    }
}

/// A request of a kind that has no numbers of its own.
fn plain(kind: PduKind, request_id: i32, bindings: Bindings) -> Body
    ensures { result ≡ plain kind request_id bindings }
{
    Body::Pdu(Pdu {
        kind,
        request_id,
        error_status: 0,
        error_index: 0,
        bindings,
    })
}

/// What a client asks an agent, in a community, under a request-id.
#[derive(Clone, Copy)]
pub struct Question<'a> {
    pub asking: Asking<'a>,
    pub request_id: i32,
    pub community: &'a [u8],
    pub names: &'a [Oid],
}

/// Returns the request that asks: each name with the value to assign, or else `unSpecified` (RFC
/// 3416 section 3).
pub fn request(alloc: Global, question: &Question<'_>) -> Result<Message, AllocError>
    ensures { IfOk result (λ m. m ≡ request_of (asked_in question.now)) }
{
    let bindings = Bindings::new(asked_bindings(alloc, question.asking, question.names)?);
    Ok(Message {
        community: Octets::from_slice(alloc, question.community)?,
        body: question.asking.body(question.request_id, bindings),
    })
}

/// The names, each with its value in the request.
fn asked_bindings(
    alloc: Global,
    asking: Asking<'_>,
    names: &[Oid],
) -> Result<Vec<Binding>, AllocError>
    ensures { IfOk result (λ v. v.items ≡ map (asked_for (wanted_value asking.entry)) names.now) }
{
    let mut bindings = Vec::new(alloc);
    for name in names {
        let name = name.try_clone(alloc)?;
        let value = asking.value(alloc)?;
        bindings.push(Binding { name, value })?;
    }
    Ok(bindings)
}

/// Returns `true` if a message replies to the question: a Response in its community with its
/// request-id that has an error status or answers each name. To a Get or a Set the names are those
/// asked for; to a GetNext there are as many; to a GetBulk there are any.
pub fn is_reply(question: &Question<'_>, message: &Message) -> bool
    ensures { result ≡ is_reply (asked_in question.now) message.now }
{
    let Body::Pdu(pdu) = &message.body else {
        return false;
    };
    pdu.kind == PduKind::Response
        && pdu.request_id == question.request_id
        && message.community.as_slice() == question.community
        && (pdu.error_status != 0 || are_answers(question, pdu.bindings.as_slice()))
}

fn are_answers(question: &Question<'_>, bindings: &[Binding]) -> bool
    ensures { result ≡ are_answers question.now.asking question.now.names.now bindings.now }
{
    match question.asking {
        Asking::Get | Asking::Set(_) => same_names(question.names, bindings),
        Asking::GetNext => question.names.len() == bindings.len(),
        Asking::GetBulk(_) => true,
    }
}

fn same_names(names: &[Oid], bindings: &[Binding]) -> bool
    ensures { result ≡ same_names names.now bindings.now }
{
    let [name, names @ ..] = names else {
        return bindings.is_empty();
    };
    let [binding, bindings @ ..] = bindings else {
        return false;
    };
    name.parts() == binding.name.parts() && same_names(names, bindings)
}
