//! Writing a message by its frame, into a buffer that is kept.

ghost use Rattle.std.specs.Prelude.{◌≡◌, ◌↔◌, ◌<◌, ◌≤◌, ◌+◌, ◌^◌, ◌++◌, ◌⊎◌, ℕ, List, [], length, IfErr, IsTrue, OnOk, vec_len, vec_capacity};
ghost use Rattle.mon_ber.specs.Writing.{element, size_counted};
ghost use Rattle.mon_pdu.specs.declared.fault.PduFault.TheVariants.{OutOfMemory, BadLength};
ghost use Rattle.mon_pdu.specs.declared.message.Binding.{Binding as AnyBinding};
ghost use Rattle.mon_pdu.specs.Around.{body_around, contents_of_body, contents_of_message, message_around};
ghost use Rattle.mon_pdu.specs.Framed.{framed};
ghost use Rattle.mon_pdu.specs.Writing.{leading_integers, list_contents, written_message};

use crate::fault::PduFault;
use crate::frame::Frame;
use crate::writing::{Lengths, Listed, lengths_from, put_list, put_three, three_len};
use mon_ber::SEQUENCE;
use mon_ber::writing::{LIMIT, element_size, put_header, put_integer, put_octets};

/// Returns `true` if the message of this frame, with variable bindings that take `list` octets in
/// place of its own, takes at most `limit` octets. Only one that is close to the limit is
/// measured for it.
pub fn frame_fits(frame: &Frame<'_>, list: usize, limit: u32) -> bool
    requires { list ≤ 2 ^ 32 }
    ensures { (bindings : List AnyBinding) → list ≡ size_counted (length (list_contents bindings))
        → IsTrue result ↔ (length (written_message (framed frame.now bindings)) ≤ limit) }
{
    if frame.community.len() + 100 + list <= limit as usize {
        return true;
    }
    element_size(lengths_of(frame, list).message) <= limit as usize
}

/// Makes `out` what `write_message` writes for the message of this frame. The octets of its
/// variable bindings, which were written before (`write_bindings`), are copied and not measured
/// again. Memory is allocated only where the capacity of `out` is too small. Besides `OutOfMemory`
/// the one fault is `BadLength`: it takes more than `limit` octets.
pub fn write_frame(out: &mut Vec<u8>, frame: &Frame<'_>, limit: u32) -> Result<(), PduFault>
    ensures ok { (bindings : List AnyBinding) → frame.now.list.now ≡ list_contents bindings
        → OnOk result (out.new.items ≡ written_message (framed frame.now bindings)) }
    ensures within { OnOk result (length out.new.items ≤ limit) }
    ensures err { (bindings : List AnyBinding) → frame.now.list.now ≡ list_contents bindings
        → IfErr result (λ e. (e ≡ OutOfMemory) ⊎ ((e ≡ BadLength)
        × (limit < length (written_message (framed frame.now bindings))))) }
{
    let lengths = lengths_of(frame, frame.list.len().min(LIMIT));
    let size = element_size(lengths.message);
    if size > limit as usize {
        return Err(PduFault::BadLength);
    }
    out.clear();
    out.reserve(size)?;
    put_frame(out, frame, lengths);
    Ok(())
}

/// Measures the message of a frame around variable bindings that take `list` octets, counted up to
/// the limit.
fn lengths_of(frame: &Frame<'_>, list: usize) -> Lengths
    ensures list { result.list ≡ list }
    ensures body { (octets : List ℕ) → list ≡ size_counted (length octets)
        → result.body ≡ size_counted (length (contents_of_body (framed frame.now []).body octets)) }
    ensures message { (octets : List ℕ) → list ≡ size_counted (length octets)
        → result.message ≡ size_counted (length
        (contents_of_message (framed frame.now []) octets)) }
{
    lengths_from(frame.community.len(), numbers_len(frame), list)
}

/// How many octets the three numbers of a frame take.
#[tactic(auto, using(crate::proofs::Lengths::passed, crate::proofs::Lengths::numbers_total))]
fn numbers_len(frame: &Frame<'_>) -> usize
    ensures value { result ≡ length (leading_integers (framed frame.now []).body) }
    ensures small { result ≤ 45 }
{
    three_len(frame.request_id, frame.error_status, frame.error_index)
}

/// Writes the message of a frame.
#[tactic(auto, using(crate::proofs::Around::inside_fits), unfolding(crate::specs::Around::message_around, mon_ber::specs::Writing::element))]
fn put_frame(out: &mut Vec<u8>, frame: &Frame<'_>, lengths: Lengths)
    requires fits { length (contents_of_message (framed frame.now []) frame.now.list.now) < 2 ^ 32 }
    requires message { lengths.message ≡ size_counted (length
        (contents_of_message (framed frame.now []) frame.now.list.now)) }
    requires body { lengths.body ≡ size_counted (length (contents_of_body (framed frame.now []).body
        frame.now.list.now)) }
    requires list { lengths.list ≡ size_counted (length frame.now.list.now) }
    requires room { vec_len out.old + length (message_around (framed frame.now [])
        frame.now.list.now) ≤ vec_capacity out.old }
    ensures { out.new.items ≡ out.old.items ++ message_around (framed frame.now [])
        frame.now.list.now }
{
    put_header(out, SEQUENCE, lengths.message);
    put_integer(out, 1);
    put_octets(out, frame.community);
    put_pdu(out, frame, lengths);
}

/// Writes the PDU of a frame.
#[tactic(auto, using(crate::proofs::Around::list_fits), unfolding(crate::specs::Around::body_around, mon_ber::specs::Writing::element))]
fn put_pdu(out: &mut Vec<u8>, frame: &Frame<'_>, lengths: Lengths)
    requires fits { length (contents_of_body (framed frame.now []).body frame.now.list.now)
        < 2 ^ 32 }
    requires body { lengths.body ≡ size_counted (length (contents_of_body (framed frame.now []).body
        frame.now.list.now)) }
    requires list { lengths.list ≡ size_counted (length frame.now.list.now) }
    requires room { vec_len out.old + length (body_around (framed frame.now []).body
        frame.now.list.now) ≤ vec_capacity out.old }
    ensures { out.new.items ≡ out.old.items ++ body_around (framed frame.now []).body
        frame.now.list.now }
{
    put_header(out, frame.kind.octet(), lengths.body);
    put_numbers(out, frame);
    put_list(out, &Listed::Written(frame.list), lengths.list);
}

/// Writes the three numbers of a frame.
#[tactic(auto, using(crate::proofs::Lengths::passed))]
fn put_numbers(out: &mut Vec<u8>, frame: &Frame<'_>)
    requires room { vec_len out.old + length (leading_integers (framed frame.now []).body)
        ≤ vec_capacity out.old }
    ensures items { out.new.items ≡ out.old.items ++ leading_integers (framed frame.now []).body }
    ensures len { vec_len out.new ≡ vec_len out.old + length
        (leading_integers (framed frame.now []).body) }
    ensures capacity { vec_capacity out.old ≤ vec_capacity out.new }
{
    put_three(out, frame.request_id, frame.error_status, frame.error_index);
}
