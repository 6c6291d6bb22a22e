//! Answering a Get, GetNext or GetBulk in place: no message and no list of variable bindings is
//! made of it, and the response is written into buffers that are kept. Any other datagram is read
//! as a message.

ghost use Rattle.std.specs.Prelude.{pos, Ok, ◌≡◌, ◌<◌, ◌↔◌, ◌⊎◌, ◌++◌, ◌∷◌, ◌+◌, ◌≤◌, ◌^◌, ℕ, List, length, IfSome, OnSome, IfOk, IsTrue, vec_len, vec_capacity};
ghost use Rattle.mon_ber.specs.declared.value.Value.{Value as AnyValue};
ghost use Rattle.mon_pdu.specs.declared.message.Binding.{Binding as AnyBinding};
ghost use Rattle.mon_pdu.specs.declared.message.PduKind.TheVariants as kinds;
ghost use Rattle.mon_pdu.specs.Grammar.{IsBinding};
ghost use Rattle.mon_pdu.specs.Framed.{bulk_framed, framed};
ghost use Rattle.mon_pdu.specs.Writing.{list_contents, written_binding, written_message};
ghost use Rattle.mon_ber.specs.Sequence.{AreSpelled};
ghost use Rattle.mon_vacm.specs.declared.view_type.ViewType.TheVariants.{Read};
ghost use Rattle.mon_vacm.specs.Access.{access_of};
ghost use Rattle.mon_mib.specs.Map.{known_by, map_device};
ghost use Rattle.mon_mib.specs.Search.{IsSeenIn, known_in};
ghost use Rattle.mon_ber.specs.declared.value.Value.TheVariants.{Name};
ghost use Rattle.mon_ber.specs.Writing.{length_octets, name_octets, size_for, written};
ghost use Rattle.mon_agent.specs.Answer.{IsAnswer, IsAnswered};
ghost use Rattle.mon_agent.specs.InPlace.{ArePut, IsAnswerOf, IsPut, answer_at, sought_in};
ghost use Rattle.mon_agent.specs.Reply.{count_of, response_body};
ghost use Rattle.mon_agent.specs.Bulk.{IsStepper};
ghost use Rattle.mon_agent.specs.Step.{IsGetAnswer, IsNextAnswer};

use crate::agent::Agent;
use crate::buffers::ReplyBuffers;
use crate::bulk_in_place::{BulkPlan, fill, read_names};
use crate::laws;
use crate::reading::got_value;
use crate::reply::Reply;
use crate::response_builder::is_within;
use crate::sending::NO_ERROR;
use mon_ber::element::element_at;
use mon_ber::reading::name_at;
use mon_ber::writing::{
    contents_len, element_len, identifier_len, put_header, put_measured_identifier,
    put_measured_value, put_octets,
};
use mon_ber::{SEQUENCE, Value};
use mon_mib::{Device, Got, Moment, Search, Shown};
use mon_oid::Oid;
use mon_pdu::{BulkFrame, Frame, PduKind, read_bulk_frame, read_frame, write_frame};
use mon_vacm::ViewType;
use std::alloc::{AllocError, Global};
use std::mem;

/// The longest value that is written in place, in octets.
const LONGEST: usize = 65535;

/// Null, as nearly every request spells its values.
const NULL: [u8; 2] = [5, 0];

impl<D: Device + Drop> Agent<D> {
    /// The octets of the reply to a datagram that is a Get, GetNext or GetBulk which is granted,
    /// each of its values spelled as `NULL`, and whose response is within the limit. Returns `None`
    /// for any other datagram, or if memory ran out.
    pub(crate) fn in_place(
        &self,
        alloc: Global,
        datagram: &[u8],
        moment: Moment,
        buffers: &mut ReplyBuffers,
    ) -> Option<Vec<u8>>
        ensures { let known = known_by D.held self.now.mib moment in
            IfSome result (λ octets. IsAnswer D.held D.failed D.refuses self.now.policy known
            (map_device self.now.mib) (map_device self.now.mib) datagram.now (Reply.Send octets)) }
    {
        match read_frame(datagram) {
            Some(frame) => self.answer_frame(alloc, &frame, moment, buffers),
            None => self.answer_bulk(alloc, &read_bulk_frame(datagram)?, moment, buffers),
        }
    }

    /// The octets of the reply to a Get or GetNext of this frame.
    fn answer_frame(
        &self,
        alloc: Global,
        frame: &Frame<'_>,
        moment: Moment,
        buffers: &mut ReplyBuffers,
    ) -> Option<Vec<u8>>
        ensures { let known = known_by D.held self.now.mib moment in
            IfSome result (λ octets. (asked : List AnyBinding) × AreSpelled IsBinding frame.now.list.now asked
            × IsAnswered D.held D.failed D.refuses self.now.policy known
            (map_device self.now.mib) (map_device self.now.mib) (framed frame.now asked) (Reply.Send octets)) }
    {
        if !is_in_place(frame.kind) {
            return None;
        }
        let mut search = self.search(alloc, frame.community, moment)?;
        buffers.list.clear();
        put_answers(alloc, &mut search, frame, &mut buffers.list)?;
        let max_message_size = self.mib.settings().max_message_size;
        take_response(
            alloc,
            frame.community,
            frame.request_id,
            max_message_size,
            buffers,
        )
    }

    /// The octets of the reply to a GetBulk of this frame.
    fn answer_bulk(
        &self,
        alloc: Global,
        frame: &BulkFrame<'_>,
        moment: Moment,
        buffers: &mut ReplyBuffers,
    ) -> Option<Vec<u8>>
        ensures { let known = known_by D.held self.now.mib moment in
            IfSome result (λ octets. (asked : List AnyBinding) × AreSpelled IsBinding frame.now.list.now asked
            × IsAnswered D.held D.failed D.refuses self.now.policy known
            (map_device self.now.mib) (map_device self.now.mib) (bulk_framed frame.now asked) (Reply.Send octets)) }
    {
        mon_pdu::laws::grows();
        let mut search = self.search(alloc, frame.community, moment)?;
        let max_message_size = self.mib.settings().max_message_size;
        let plan = BulkPlan::new(frame, max_message_size);
        buffers.names.clear();
        read_names(alloc, frame.list, &mut buffers.names)?;
        buffers.list.clear();
        fill(
            alloc,
            &mut search,
            &plan,
            buffers.names.as_mut_slice(),
            &mut buffers.list,
        )?;
        take_response(
            alloc,
            frame.community,
            frame.request_id,
            max_message_size,
            buffers,
        )
    }

    /// A search in the view that a community may read.
    fn search<'a>(
        &'a self,
        alloc: Global,
        community: &[u8],
        moment: Moment,
    ) -> Option<Search<'a, D>>
        ensures { IfSome result (λ s. (view : List ℕ) × (access_of self.now.policy community.now
            Read ≡ Ok view)
            × (s ≡ sought_in self.now.mib self.now.policy view moment)) }
    {
        match self.policy.access(community, ViewType::Read) {
            Ok(access) => Some(Search::new(alloc, &self.mib, &self.policy, access, moment)),
            Err(_) => None,
        }
    }
}

/// The response without an error to a request of this community and request-id, with variable
/// bindings that were written before.
pub(crate) fn response_frame<'a>(community: &'a [u8], request_id: i32, list: &'a [u8]) -> Frame<'a>
    ensures framed { (bindings : List AnyBinding) → framed result bindings
        ≡ record {
          community = community.now;
          body = response_body request_id (pos 0) (pos 0)
              bindings;
        } }
    ensures list { result.list.now ≡ list.now }
{
    Frame {
        community,
        kind: PduKind::Response,
        request_id,
        error_status: NO_ERROR,
        error_index: 0,
        list,
    }
}

/// The octets of the response without an error to a request of this community and request-id, with
/// the variable bindings that the buffers hold. Returns `None` if it is above the limit, or if
/// memory ran out.
fn take_response(
    alloc: Global,
    community: &[u8],
    request_id: i32,
    max_message_size: i32,
    buffers: &mut ReplyBuffers,
) -> Option<Vec<u8>>
    ensures written { (bindings : List AnyBinding) → buffers.old.list.items ≡ list_contents bindings
        → IfSome result (λ octets. octets.items
        ≡ written_message (record {
          community = community.now;
          body = response_body request_id
              (pos 0) (pos 0) bindings;
        })) }
    ensures within { IfSome result (λ octets. length octets.items ≤ count_of max_message_size) }
{
    let frame = response_frame(community, request_id, buffers.list.as_slice());
    write_frame(&mut buffers.octets, &frame, max_message_size.max(0) as u32).ok()?;
    let empty = Vec::new(alloc);
    Some(mem::replace(&mut buffers.octets, empty))
}

/// Returns `true` if a PDU may be answered in place.
fn is_in_place(kind: PduKind) -> bool
    ensures { IsTrue result ↔ ((kind ≡ kinds.Get) ⊎ (kind ≡ kinds.GetNext)) }
{
    matches!(kind, PduKind::Get | PduKind::GetNext)
}

/// Writes the answers to the names of a Get or GetNext of this frame.
fn put_answers<D: Device + Drop>(
    alloc: Global,
    search: &mut Search<'_, D>,
    frame: &Frame<'_>,
    out: &mut Vec<u8>,
) -> Option<()>
    ensures { OnSome result (ArePut (IsAnswerOf (known_in D.held search.old) (IsSeenIn search.old)
        frame.now.kind)
        frame.now.list.now out.old.items out.new.items) }
{
    let mut rest = frame.list;
    while !rest.is_empty() {
        let Some(after) = put_answer(alloc, search, frame.kind, rest, out) else {
            return None;
        };
        rest = after;
    }
    Some(())
}

/// Writes the answer to the name that the octets begin with, and returns what follows it.
fn put_answer<'b, D: Device + Drop>(
    alloc: Global,
    search: &mut Search<'_, D>,
    kind: PduKind,
    octets: &'b [u8],
    out: &mut Vec<u8>,
) -> Option<&'b [u8]>
    ensures put { IfSome result (λ rest. IsPut (IsAnswerOf (known_in D.held search.old)
        (IsSeenIn search.old) kind)
        octets.now rest.now out.old.items out.new.items) }
    ensures shorter { IfSome result (λ rest. length rest.now < length octets.now) }
    ensures stays { search.new ≡ search.old }
{
    let (mut name, rest) = asked_name(alloc, octets)?;
    put_for(alloc, search, kind, &mut name, out)?;
    Some(rest)
}

/// Writes the answer to a name, whose place the name of the answer takes.
fn put_for<D: Device + Drop>(
    alloc: Global,
    search: &mut Search<'_, D>,
    kind: PduKind,
    name: &mut Oid,
    out: &mut Vec<u8>,
) -> Option<()>
    ensures put { OnSome result ((answer : AnyBinding)
        × IsAnswerOf (known_in D.held search.old) (IsSeenIn search.old) kind name.old answer
        × (out.new.items ≡ out.old.items ++ written_binding answer)) }
    ensures stays { search.new ≡ search.old }
{
    match kind {
        PduKind::Get => put_got(alloc, search, name, out),
        PduKind::GetNext => {
            let max_message_size = search.settings().max_message_size;
            let Ok(found) = advance(alloc, search, name) else {
                return None;
            };
            put_found(out, name, &found, max_message_size)
        }
        _ => None,
    }
}

/// The value that answers a name in a GetNext, whose place the name of the answer takes. Where
/// there is none, the name stays, and its answer is endOfMibView.
pub(crate) fn advance<'s, D: Device + Drop>(
    alloc: Global,
    search: &mut Search<'s, D>,
    name: &mut Oid,
) -> Result<Option<Shown<'s>>, AllocError>
    ensures step { IfOk result (λ found. IsNextAnswer (known_in D.held search.old)
        (IsSeenIn search.old) name.old (answer_at name.new found)) }
    // It is the one that every right choice of answers has.
    ensures only { (next : List ℕ → AnyBinding) → IsStepper (known_in D.held search.old)
        (IsSeenIn search.old) next
        → IfOk result (λ found. answer_at name.new found ≡ next name.old) }
    ensures stays { search.new ≡ search.old }
{
    laws::one_step();
    search.step(alloc, name)
}

/// Writes the answer to a name in a GetNext: the name of the answer, with what was found. Returns
/// `None` as `put_head` does.
pub(crate) fn put_found(
    out: &mut Vec<u8>,
    name: &Oid,
    found: &Option<Shown<'_>>,
    max_message_size: i32,
) -> Option<()>
    ensures { OnSome result (out.new.items ≡ out.old.items ++ written_binding
        (answer_at name.now found.now)) }
{
    match found {
        Some(Shown::Octets(octets)) => put_octets_binding(out, name, octets, max_message_size),
        Some(Shown::Other(Got::Found(value))) => put_binding(out, name, value, max_message_size),
        _ => put_binding(out, name, &Value::EndOfMibView, max_message_size),
    }
}

/// Writes the answer to a name in a Get. Octets that the agent keeps are copied only into the
/// response.
fn put_got<D: Device + Drop>(
    alloc: Global,
    search: &Search<'_, D>,
    name: &Oid,
    out: &mut Vec<u8>,
) -> Option<()>
    ensures { OnSome result ((answer : AnyBinding)
        × IsGetAnswer (known_in D.held search.now) (IsSeenIn search.now) name.now answer
        × (out.new.items ≡ out.old.items ++ written_binding answer)) }
{
    let max_message_size = search.settings().max_message_size;
    match search.show(alloc, name) {
        Ok(Shown::Octets(octets)) => put_octets_binding(out, name, octets, max_message_size),
        Ok(Shown::Other(got)) => put_binding(out, name, &got_value(got), max_message_size),
        Err(_) => None,
    }
}

/// The name of the variable binding that the octets begin with, and what follows that, if its value
/// is spelled as `NULL`.
pub(crate) fn asked_name(alloc: Global, octets: &[u8]) -> Option<(Oid, &[u8])>
    ensures spelled { IfSome result (λ r. (text : List ℕ) × (v : AnyValue)
        × IsBinding text (record { name = r.0; value = v }) × (octets.now ≡ text ++ r.1.now)) }
    ensures shorter { IfSome result (λ r. length r.1.now < length octets.now) }
{
    let (contents, rest) = element_at(SEQUENCE, octets).ok()?;
    let (name, value) = name_at(alloc, contents).ok()?;
    if value != NULL.as_slice() {
        return None;
    }
    Some((name, rest))
}

/// Writes a variable binding, whose value is octets. Returns `None` as `put_head` does.
fn put_octets_binding(
    out: &mut Vec<u8>,
    name: &Oid,
    octets: &[u8],
    max_message_size: i32,
) -> Option<()>
    ensures { let binding : AnyBinding = record { name = name.now; value = Value.Octets octets.now }
        in
        OnSome result (out.new.items ≡ out.old.items ++ written_binding binding) }
{
    put_head(out, name, octets.len(), max_message_size)?;
    put_octets(out, octets);
    Some(())
}

/// Writes a variable binding. Returns `None` as `put_head` does.
fn put_binding(out: &mut Vec<u8>, name: &Oid, value: &Value, max_message_size: i32) -> Option<()>
    ensures { let binding : AnyBinding = record { name = name.now; value = value.now } in
        OnSome result (out.new.items ≡ out.old.items ++ written_binding binding) }
{
    let len = contents_len(value);
    put_head(out, name, len, max_message_size)?;
    put_measured_value(out, value, len);
    Some(())
}

/// Writes a variable binding up to its value, whose contents take this many octets, and takes
/// memory for the value. Returns `None` if `out` is then longer than the limit, or if memory ran
/// out.
fn put_head(out: &mut Vec<u8>, name: &Oid, value_len: usize, max_message_size: i32) -> Option<()>
    ensures put { OnSome result (out.new.items ≡ (out.old.items
        ++ (0x30 ∷ length_octets (size_for (length (name_octets name.now)) + size_for value_len)))
        ++ written (Name name.now)) }
    ensures room { OnSome result (vec_len out.new + size_for value_len ≤ vec_capacity out.new) }
    ensures small { OnSome result (value_len < 2 ^ 16) }
{
    if value_len > LONGEST {
        return None;
    }
    let name_len = identifier_len(name);
    let len = element_len(name_len) + element_len(value_len);
    let size = element_len(len);
    if !is_within(out.len().saturating_add(size), max_message_size) {
        return None;
    }
    out.reserve(size).ok()?;
    put_header(out, SEQUENCE, len);
    put_measured_identifier(out, name, name_len);
    Some(())
}
