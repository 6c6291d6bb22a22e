//! Writing messages. Lengths are counted first, so that what is written needs no memory of its own
//! and never fails.

ghost use Rattle.std.specs.Prelude.{◌≡◌, FitsSigned, ℕ, ◌≤◌, ◌<◌, ◌+◌, ◌^◌, ◌++◌, ◌⊎◌, List, [], pos, length, IfOk, IfErr, MatchResult, vec_len, vec_capacity};
ghost use Rattle.std.specs.List.{flat_map, AllByRecursion};
ghost use Rattle.std.specs.Int.{w32};
ghost use Rattle.mon_ber.specs.declared.value.Value.TheVariants.{Integer};
ghost use Rattle.mon_ber.specs.Writing.{written, element, size_counted, IsValid as IsValidValue};
ghost use Rattle.mon_pdu.specs.declared.fault.PduFault.TheVariants.{OutOfMemory, BadLength};
ghost use Rattle.mon_pdu.specs.declared.message.Binding.{Binding as AnyBinding};
ghost use Rattle.mon_pdu.specs.declared.message.Message.{Message as AnyMessage};
ghost use Rattle.mon_pdu.specs.Grammar.{tag_of, first_of, second_of, third_of, bindings_of, IsMessage};
ghost use Rattle.mon_pdu.specs.Around.{body_around, contents_of_body, contents_of_message, message_around, octets_of};
ghost use Rattle.mon_pdu.specs.Sizes.{with_bindings};
ghost use Rattle.mon_pdu.specs.Writing.{HasLength, binding_contents, written_binding, list_contents, written_list, leading_integers, body_contents, written_body, message_contents, written_message, IsValidBinding, IsValid};

use crate::fault::PduFault;
use crate::message::{Binding, Body, Message};
use mon_ber::writing::{
    LIMIT, contents_len, element_len, element_size, identifier_len, integer_size, name_size,
    put_header, put_integer, put_measured_identifier, put_measured_value, put_octets, value_size,
};
use mon_ber::{SEQUENCE, Value};
use std::alloc::Global;

/// An address has four octets.
fn look_at_address(address: [u8; 4])
    ensures { length address ≡ 4 }
{}

/// Looks at a value, which then is known to be in the range of its type.
fn look_at_value(value: &Value)
    ensures { IsValidValue value.now }
{
    match value {
        Value::Integer(number) => {
            // Proof: its range is that of its type.
            let _number = *number;
        }
        Value::Name(name) => {
            // Proof: a name is an identifier.
            let _parts = name.parts();
        }
        Value::IpAddress(address) => {
            look_at_address(*address);
        }
        Value::Counter32(number) | Value::Gauge32(number) | Value::TimeTicks(number) => {
            // Proof: its range is that of its type.
            let _number = *number;
        }
        Value::Counter64(number) => {
            // Proof: its range is that of its type.
            let _number = *number;
        }
        _ => {}
    }
}

/// How many octets the contents of a binding take, counted up to the limit.
#[tactic(auto, using(crate::proofs::Lengths::binding_total))]
fn binding_len(binding: &Binding) -> usize
    ensures len { result ≡ size_counted (length (binding_contents binding.now)) }
    ensures valid { IsValidBinding binding.now }
{
    // Proof: the binding's name and value are valid.
    let _parts = binding.name.parts();
    look_at_value(&binding.value);
    (name_size(&binding.name) + value_size(&binding.value)).min(LIMIT)
}

/// Counts the octets of variable bindings as a message has them, one after the other, up to
/// `LIMIT` of `mon_ber::writing`.
#[tactic(auto, using(crate::proofs::Lengths::binding_length, crate::proofs::Lengths::counted_twice))]
pub fn list_len(bindings: &[Binding]) -> usize
    ensures len { result ≡ size_counted (length (list_contents bindings.now)) }
    ensures valid { AllByRecursion IsValidBinding bindings.now }
{
    let mut len = 0;
    for binding in bindings {
        len = (len + element_size(binding_len(binding))).min(LIMIT);
    }
    len
}

/// How many octets three numbers take.
#[tactic(auto, using(crate::proofs::Lengths::passed))]
pub(crate) fn three_len(first: i32, second: i32, third: i32) -> usize
    ensures value { result ≡ length (written (Integer first)) + length (written (Integer second))
        + length (written (Integer third)) }
    ensures small { result ≤ 45 }
    ensures fits { FitsSigned w32 first × FitsSigned w32 second × FitsSigned w32 third }
{
    integer_size(first) + integer_size(second) + integer_size(third)
}

#[tactic(auto, using(crate::proofs::Lengths::passed))]
pub(crate) fn put_three(out: &mut Vec<u8>, first: i32, second: i32, third: i32)
    requires room { vec_len out.old + length (written (Integer first) ++ written (Integer second)
        ++ written (Integer third)) ≤ vec_capacity out.old }
    ensures items { out.new.items ≡ out.old.items ++ written (Integer first)
        ++ written (Integer second) ++ written (Integer third) }
    ensures len { vec_len out.new ≡ vec_len out.old + length
        (written (Integer first) ++ written (Integer second) ++ written (Integer third)) }
    ensures capacity { vec_capacity out.old ≤ vec_capacity out.new }
{
    put_integer(out, first);
    put_integer(out, second);
    put_integer(out, third);
}

/// How many octets the numbers before the bindings take.
#[tactic(auto, using(crate::proofs::Lengths::passed, crate::proofs::Lengths::numbers_total))]
fn numbers_len(body: &Body) -> usize
    ensures value { result ≡ length (leading_integers body.now) }
    ensures small { result ≤ 45 }
    ensures fits { FitsSigned w32 (first_of body.now) × FitsSigned w32 (second_of body.now)
        × FitsSigned w32 (third_of body.now) }
{
    match body {
        Body::Pdu(pdu) => three_len(pdu.request_id, pdu.error_status, pdu.error_index),
        Body::Bulk(bulk) => three_len(bulk.request_id, bulk.non_repeaters, bulk.max_repetitions),
    }
}

#[tactic(auto, using(crate::proofs::Lengths::passed))]
fn put_numbers(out: &mut Vec<u8>, body: &Body)
    requires room { vec_len out.old + length (leading_integers body.now) ≤ vec_capacity out.old }
    ensures items { out.new.items ≡ out.old.items ++ leading_integers body.now }
    ensures len { vec_len out.new ≡ vec_len out.old + length (leading_integers body.now) }
    ensures capacity { vec_capacity out.old ≤ vec_capacity out.new }
{
    match body {
        Body::Pdu(pdu) => put_three(out, pdu.request_id, pdu.error_status, pdu.error_index),
        Body::Bulk(bulk) => put_three(
            out,
            bulk.request_id,
            bulk.non_repeaters,
            bulk.max_repetitions,
        ),
    }
}

/// How many octets of contents a message and its parts have, counted up to the limit.
#[derive(Clone, Copy)]
pub(crate) struct Lengths {
    pub(crate) list: usize,
    pub(crate) body: usize,
    pub(crate) message: usize,
}

/// Measures a message from the inside out. Its community has `community` octets, its numbers take
/// `numbers`, and its variable bindings `list`, counted up to the limit.
pub(crate) fn lengths_from(community: usize, numbers: usize, list: usize) -> Lengths
    requires { numbers ≤ 45 }
    ensures list { result.list ≡ list }
    ensures body { (m : AnyMessage) (octets : List ℕ) → numbers ≡ length (leading_integers m.body)
        → list ≡ size_counted (length octets)
        → result.body ≡ size_counted (length (contents_of_body m.body octets)) }
    ensures message { (m : AnyMessage) (octets : List ℕ) → community ≡ length m.community
        → numbers ≡ length (leading_integers m.body)
        → list ≡ size_counted (length octets) → result.message
        ≡ size_counted (length (contents_of_message m octets)) }
{
    let body = (numbers + element_size(list)).min(LIMIT);
    let contents = (integer_size(1) + element_size(community) + element_size(body)).min(LIMIT);
    Lengths {
        list,
        body,
        message: contents,
    }
}

/// Measures a message around its variable bindings, which take `list` octets, counted up to the
/// limit.
fn lengths_around(message: &Message, list: usize) -> Lengths
    ensures list { result.list ≡ list }
    ensures body { (octets : List ℕ) → list ≡ size_counted (length octets)
        → result.body ≡ size_counted (length (contents_of_body message.now.body octets)) }
    ensures message { (octets : List ℕ) → list ≡ size_counted (length octets)
        → result.message ≡ size_counted (length (contents_of_message message.now octets)) }
    ensures fits { FitsSigned w32 (first_of message.now.body)
        × FitsSigned w32 (second_of message.now.body) × FitsSigned w32 (third_of message.now.body) }
{
    let numbers = numbers_len(&message.body);
    lengths_from(message.community.as_slice().len(), numbers, list)
}

/// Measures a message whose variable bindings take `list` octets, counted up to the limit.
fn lengths_by(message: &Message, list: usize) -> Lengths
    requires { list ≡ size_counted (length (list_contents (bindings_of message.now.body))) }
    ensures list { result.list ≡ list }
    ensures body { result.body ≡ size_counted (length (body_contents message.now.body)) }
    ensures message { result.message ≡ size_counted (length (message_contents message.now)) }
    ensures fits { FitsSigned w32 (first_of message.now.body)
        × FitsSigned w32 (second_of message.now.body) × FitsSigned w32 (third_of message.now.body) }
{
    lengths_around(message, list)
}

/// Measures a message, each of its variable bindings once.
fn lengths_of(message: &Message) -> Lengths
    ensures list { result.list ≡ size_counted (length (list_contents
        (bindings_of message.now.body))) }
    ensures body { result.body ≡ size_counted (length (body_contents message.now.body)) }
    ensures message { result.message ≡ size_counted (length (message_contents message.now)) }
    ensures valid { IsValid message.now }
{
    lengths_by(message, list_len(message.body.bindings()))
}

/// Counts the octets that `write_message` writes. Allocates nothing and takes time linear in the
/// message. The one fault is `BadLength`: the length of the contents needs more than 4 octets.
#[tactic(auto, using(crate::proofs::Lengths::message_length))]
pub fn message_size(message: &Message) -> Result<usize, PduFault>
    ensures valid { IsValid message.now }
    ensures size { MatchResult result (λ n. HasLength message.now
        × (n ≡ length (written_message message.now)))
        (λ e. (e ≡ BadLength) × (2 ^ 32 ≤ length (message_contents message.now))) }
{
    let len = lengths_of(message).message;
    if len >= LIMIT {
        return Err(PduFault::BadLength);
    }
    Ok(element_len(len))
}

/// Counts the octets of a variable binding in a message, up to `LIMIT` of `mon_ber::writing`.
#[tactic(auto, using(crate::proofs::Lengths::binding_length, crate::proofs::Lengths::counted_twice))]
pub fn binding_size(binding: &Binding) -> usize
    ensures { result ≡ size_counted (length (written_binding binding.now)) }
{
    element_size(binding_len(binding))
}

/// How many octets `write_message` would write for this message with other variable bindings, which
/// take `list` octets in all, counted up to `LIMIT` of `mon_ber::writing`. Takes the same time
/// however many they are.
pub fn size_with(message: &Message, list: usize) -> usize
    ensures { (bindings : List AnyBinding) → list ≡ size_counted (length (list_contents bindings))
        → result ≡ size_counted (length (written_message (with_bindings message.now bindings))) }
{
    element_size(lengths_around(message, list).message)
}

/// A number that `size_with` is not above. It takes no measuring.
pub fn size_bound(message: &Message, list: usize) -> usize
    requires { list ≤ 2 ^ 32 }
    ensures { (bindings : List AnyBinding) → list ≡ size_counted (length (list_contents bindings))
        → size_counted (length (written_message (with_bindings message.now bindings))) ≤ result }
{
    message.community.as_slice().len() + 100 + list
}

/// Writes a variable binding. Its name and its value are measured once each, for all three headers.
#[tactic(auto, using(crate::proofs::Lengths::value_fits, crate::proofs::Lengths::binding_sum), unfolding(crate::specs::Writing::written_binding, mon_ber::specs::Writing::element))]
fn put_binding(out: &mut Vec<u8>, binding: &Binding)
    requires fits { length (binding_contents binding.now) < 2 ^ 32 }
    requires room { vec_len out.old + length (written_binding binding.now) ≤ vec_capacity out.old }
    ensures items { out.new.items ≡ out.old.items ++ written_binding binding.now }
    ensures len { vec_len out.new ≡ vec_len out.old + length (written_binding binding.now) }
    ensures capacity { vec_capacity out.old ≤ vec_capacity out.new }
{
    let name = identifier_len(&binding.name);
    let value = contents_len(&binding.value);
    put_header(out, SEQUENCE, element_len(name) + element_len(value));
    put_measured_identifier(out, &binding.name, name);
    put_measured_value(out, &binding.value, value);
}

fn put_bindings(out: &mut Vec<u8>, bindings: &[Binding])
    requires fits { length (list_contents bindings.now) < 2 ^ 32 }
    requires room { vec_len out.old + length (list_contents bindings.now) ≤ vec_capacity out.old }
    ensures items { out.new.items ≡ out.old.items ++ list_contents bindings.now }
    ensures len { vec_len out.new ≡ vec_len out.old + length (list_contents bindings.now) }
    ensures capacity { vec_capacity out.old ≤ vec_capacity out.new }
{
    for binding in bindings {
        put_binding(out, binding);
    }
}

/// Writes octets that were written before, if the vector has capacity for them.
fn put_written(out: &mut Vec<u8>, octets: &[u8])
    requires room { vec_len out.old + length octets.now ≤ vec_capacity out.old }
    ensures items { out.new.items ≡ out.old.items ++ octets.now }
    ensures len { vec_len out.new ≡ vec_len out.old + length octets.now }
    ensures capacity { vec_capacity out.old ≤ vec_capacity out.new }
{
    out.extend_from_slice(octets).unwrap();
}

/// The variable bindings of a message that is written.
#[derive(Clone, Copy)]
pub(crate) enum Listed<'a> {
    /// Bindings that are still to write.
    Bindings(&'a [Binding]),
    /// They were written before, as these octets.
    Written(&'a [u8]),
}

fn put_contents(out: &mut Vec<u8>, list: &Listed<'_>)
    requires fits { length (octets_of list.now) < 2 ^ 32 }
    requires room { vec_len out.old + length (octets_of list.now) ≤ vec_capacity out.old }
    ensures items { out.new.items ≡ out.old.items ++ octets_of list.now }
    ensures len { vec_len out.new ≡ vec_len out.old + length (octets_of list.now) }
    ensures capacity { vec_capacity out.old ≤ vec_capacity out.new }
{
    match list {
        Listed::Bindings(bindings) => put_bindings(out, bindings),
        Listed::Written(octets) => put_written(out, octets),
    }
}

#[tactic(auto, using(crate::proofs::Around::list_length), unfolding(mon_ber::specs::Writing::element))]
pub(crate) fn put_list(out: &mut Vec<u8>, list: &Listed<'_>, len: usize)
    requires fits { length (octets_of list.now) < 2 ^ 32 }
    requires len { len ≡ length (octets_of list.now) }
    requires room { vec_len out.old + length (element 0x30 (octets_of list.now))
        ≤ vec_capacity out.old }
    ensures items { out.new.items ≡ out.old.items ++ element 0x30 (octets_of list.now) }
    ensures len { vec_len out.new ≡ vec_len out.old + length (element 0x30 (octets_of list.now)) }
    ensures capacity { vec_capacity out.old ≤ vec_capacity out.new }
{
    put_header(out, SEQUENCE, len);
    put_contents(out, list);
}

#[tactic(auto, using(crate::proofs::Around::list_fits), unfolding(crate::specs::Around::body_around, mon_ber::specs::Writing::element))]
fn put_body(out: &mut Vec<u8>, body: &Body, lengths: Lengths, list: &Listed<'_>)
    requires fits { length (contents_of_body body.now (octets_of list.now)) < 2 ^ 32 }
    requires body { lengths.body ≡ size_counted (length (contents_of_body body.now
        (octets_of list.now))) }
    requires list { lengths.list ≡ size_counted (length (octets_of list.now)) }
    requires room { vec_len out.old + length (body_around body.now (octets_of list.now))
        ≤ vec_capacity out.old }
    ensures items { out.new.items ≡ out.old.items ++ body_around body.now (octets_of list.now) }
    ensures len { vec_len out.new ≡ vec_len out.old + length
        (body_around body.now (octets_of list.now)) }
    ensures capacity { vec_capacity out.old ≤ vec_capacity out.new }
{
    put_header(out, body.octet(), lengths.body);
    put_numbers(out, body);
    put_list(out, list, lengths.list);
}

/// Writes a message around its variable bindings.
#[tactic(auto, using(crate::proofs::Around::inside_fits), unfolding(crate::specs::Around::message_around, mon_ber::specs::Writing::element))]
fn put_message(out: &mut Vec<u8>, message: &Message, lengths: Lengths, list: &Listed<'_>)
    requires fits { length (contents_of_message message.now (octets_of list.now)) < 2 ^ 32 }
    requires message { lengths.message ≡ size_counted (length
        (contents_of_message message.now (octets_of list.now))) }
    requires body { lengths.body ≡ size_counted (length (contents_of_body message.now.body
        (octets_of list.now))) }
    requires list { lengths.list ≡ size_counted (length (octets_of list.now)) }
    requires room { vec_len out.old + length (message_around message.now (octets_of list.now))
        ≤ vec_capacity out.old }
    ensures items { out.new.items ≡ out.old.items
        ++ message_around message.now (octets_of list.now) }
    ensures len { vec_len out.new ≡ vec_len out.old + length
        (message_around message.now (octets_of list.now)) }
    ensures capacity { vec_capacity out.old ≤ vec_capacity out.new }
{
    put_header(out, SEQUENCE, lengths.message);
    put_integer(out, 1);
    put_octets(out, message.community.as_slice());
    put_body(out, &message.body, lengths, list);
}

/// Writes a message with its own variable bindings.
fn put_whole(out: &mut Vec<u8>, message: &Message, lengths: Lengths)
    requires fits { HasLength message.now }
    requires message { lengths.message ≡ size_counted (length (message_contents message.now)) }
    requires body { lengths.body ≡ size_counted (length (body_contents message.now.body)) }
    requires list { lengths.list ≡ size_counted (length (list_contents
        (bindings_of message.now.body))) }
    requires room { vec_len out.old + length (written_message message.now) ≤ vec_capacity out.old }
    ensures items { out.new.items ≡ out.old.items ++ written_message message.now }
    ensures len { vec_len out.new ≡ vec_len out.old + length (written_message message.now) }
    ensures capacity { vec_capacity out.old ≤ vec_capacity out.new }
{
    put_message(
        out,
        message,
        lengths,
        &Listed::Bindings(message.body.bindings()),
    );
}

/// Writes the shortest spelling of the message after what `out` holds, if the vector has capacity
/// for it: `message_size` octets. Allocates nothing and never fails, so memory can be allocated
/// before and the message written once nothing else can go wrong. Names and values are measured
/// twice, as by `write_message`, so the time is linear in what is written.
pub fn write_within(out: &mut Vec<u8>, message: &Message)
    requires fits { HasLength message.now }
    requires room { vec_len out.old + length (written_message message.now) ≤ vec_capacity out.old }
    ensures valid { IsValid message.now }
    ensures items { out.new.items ≡ out.old.items ++ written_message message.now }
    // What is written is a spelling of the message.
    ensures spelled { IsMessage (written_message message.now) message.now }
    ensures len { vec_len out.new ≡ vec_len out.old + length (written_message message.now) }
    ensures capacity { vec_capacity out.old ≤ vec_capacity out.new }
{
    put_whole(out, message, lengths_of(message));
}

/// Writes what `write_within` writes. The message's variable bindings take `list` octets, as
/// `list_len` counts them, and are measured once, to be written.
pub fn write_measured(out: &mut Vec<u8>, message: &Message, list: usize)
    requires measured { list ≡ size_counted
        (length (list_contents (bindings_of message.now.body))) }
    requires fits { HasLength message.now }
    requires room { vec_len out.old + length (written_message message.now) ≤ vec_capacity out.old }
    ensures items { out.new.items ≡ out.old.items ++ written_message message.now }
    ensures len { vec_len out.new ≡ vec_len out.old + length (written_message message.now) }
    ensures capacity { vec_capacity out.old ≤ vec_capacity out.new }
{
    put_whole(out, message, lengths_by(message, list));
}

/// The shortest spelling of the message, in a vector of just its size, which is the one allocation.
/// Names and values are measured twice: for the size of the message, and for the lengths in their
/// binding. So the time is linear in what is written. Besides `OutOfMemory` the one fault is
/// `BadLength`, as of `message_size`.
#[tactic(auto, using(crate::proofs::Lengths::message_length))]
pub fn write_message(alloc: Global, message: &Message) -> Result<Vec<u8>, PduFault>
    ensures valid { IsValid message.now }
    ensures ok { IfOk result (λ v. HasLength message.now
        × (v.items ≡ written_message message.now)) }
    // What is written is a spelling of the message.
    ensures spelled { IfOk result (λ v. IsMessage v.items message.now) }
    ensures err { IfErr result (λ e. (e ≡ OutOfMemory) ⊎ ((e ≡ BadLength)
        × (2 ^ 32 ≤ length (message_contents message.now)))) }
{
    let lengths = lengths_of(message);
    if lengths.message >= LIMIT {
        return Err(PduFault::BadLength);
    }
    let mut out = Vec::with_capacity(alloc, element_len(lengths.message))?;
    put_whole(&mut out, message, lengths);
    Ok(out)
}

/// Writes variable bindings as a message has them, one after the other, in one allocation. A
/// request that is sent again and again under other request-ids has its names written only once,
/// for `write_with`. Besides `OutOfMemory` the one fault is `BadLength`: they take 2^32 octets or
/// more.
pub fn write_bindings(alloc: Global, bindings: &[Binding]) -> Result<Vec<u8>, PduFault>
    ensures ok { IfOk result (λ v. v.items ≡ list_contents bindings.now) }
    ensures err { IfErr result (λ e. (e ≡ OutOfMemory) ⊎ ((e ≡ BadLength)
        × (2 ^ 32 ≤ length (list_contents bindings.now)))) }
{
    let len = list_len(bindings);
    if len >= LIMIT {
        return Err(PduFault::BadLength);
    }
    let mut out = Vec::with_capacity(alloc, len)?;
    put_bindings(&mut out, bindings);
    Ok(out)
}

/// What `write_message` writes for this message with other variable bindings, those that `list` is
/// written of (`write_bindings`), in one allocation. They are copied and not measured again.
/// Besides `OutOfMemory` the one fault is `BadLength`, as of `message_size`.
#[tactic(auto, using(crate::proofs::Around::message_length))]
pub fn write_with(alloc: Global, message: &Message, list: &[u8]) -> Result<Vec<u8>, PduFault>
    ensures ok { (bindings : List AnyBinding) → list.now ≡ list_contents bindings
        → IfOk result (λ v. HasLength (with_bindings message.now bindings)
        × (v.items ≡ written_message (with_bindings message.now bindings))) }
    ensures err { (bindings : List AnyBinding) → list.now ≡ list_contents bindings
        → IfErr result (λ e. (e ≡ OutOfMemory) ⊎ ((e ≡ BadLength)
        × (2 ^ 32 ≤ length (message_contents (with_bindings message.now bindings))))) }
{
    let lengths = lengths_around(message, list.len().min(LIMIT));
    if lengths.message >= LIMIT {
        return Err(PduFault::BadLength);
    }
    let mut out = Vec::with_capacity(alloc, element_len(lengths.message))?;
    put_message(&mut out, message, lengths, &Listed::Written(list));
    Ok(out)
}
