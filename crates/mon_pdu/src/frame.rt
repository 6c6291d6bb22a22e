//! Reading a message in place: its frame, and then variable bindings whose names are known. No
//! octets are copied but those of values.

ghost use Rattle.std.specs.Prelude.{◌≡◌, ◌≢◌, ◌++◌, ℕ, List, IfNone, IfSome, IsSome, Err};
ghost use Rattle.mon_ber.specs.declared.value.Value.{Value as AnyValue};
ghost use Rattle.mon_ber.specs.declared.value.Value.TheVariants.{Name};
ghost use Rattle.mon_ber.specs.Grammar.{IsElement, Spells};
ghost use Rattle.mon_ber.specs.Memory.{IsInline};
ghost use Rattle.mon_ber.specs.Sequence.{AreSpelled};
ghost use Rattle.mon_pdu.specs.declared.message.Binding.{Binding as AnyBinding};
ghost use Rattle.mon_pdu.specs.declared.message.Body.TheVariants as bodies;
ghost use Rattle.mon_pdu.specs.declared.message.Bulk.{Bulk as AnyBulk};
ghost use Rattle.mon_pdu.specs.declared.message.Message.{Message as AnyMessage};
ghost use Rattle.mon_pdu.specs.declared.message.Pdu.{Pdu as AnyPdu};
ghost use Rattle.mon_ber.specs.Reading.{Gives};
ghost use Rattle.mon_pdu.specs.Framed.{BeginsWithFrame, BeginsWithBulkFrame, Held, BulkHeld, framed, bulk_framed, held, bulk_held, any_held, frame_at, bulk_frame_at, any_at, any_of, octet_at, fields_of};
ghost use Rattle.mon_pdu.specs.Grammar.{BeginsWithMessage, IsBinding};

use crate::message::{GET_BULK, PduKind};
use mon_ber::element::{contents_at, element_at};
use mon_ber::reading::{integer_at, value_at};
use mon_ber::{BerFault, OCTET_STRING, SEQUENCE, Value};
use std::alloc::Global;

/// A message except its variable bindings, whose octets are lent and not read yet. A GetBulk has a
/// `BulkFrame`.
#[derive(Clone, Copy, Debug, PartialEq, Eq)]
pub struct Frame<'a> {
    /// The community.
    pub community: &'a [u8],
    /// Which PDU it is.
    pub kind: PduKind,
    /// The request-id.
    pub request_id: i32,
    /// The error-status.
    pub error_status: i32,
    /// The error-index.
    pub error_index: i32,
    /// The octets of the variable bindings, one after the other.
    pub list: &'a [u8],
}

/// A GetBulk except its variable bindings, whose octets are lent and not read yet.
#[derive(Clone, Copy, Debug, PartialEq, Eq)]
pub struct BulkFrame<'a> {
    /// The community.
    pub community: &'a [u8],
    /// The request-id.
    pub request_id: i32,
    /// How many of the bindings are asked for once; any number is read.
    pub non_repeaters: i32,
    /// How often each of the others is asked for; any number is read.
    pub max_repetitions: i32,
    /// The octets of the variable bindings, one after the other.
    pub list: &'a [u8],
}

/// The frame of any message: the tag of its PDU, and its three numbers by their places.
#[derive(Clone, Copy)]
struct AnyFrame<'a> {
    community: &'a [u8],
    tag: u8,
    first: i32,
    second: i32,
    third: i32,
    list: &'a [u8],
}

/// The frame of the message that the octets begin with; what follows it is passed over. None where
/// they begin with no message, or with a GetBulk, or where only the variable bindings are to blame
/// that they begin with none: those are not looked at.
pub fn read_frame(octets: &[u8]) -> Option<Frame<'_>>
    // What it holds is there, whatever the octets of its list are; if it isn't, no frame is
    // returned.
    ensures framed { IfSome result (λ f. BeginsWithFrame octets.now (held f)) }
    ensures none { IfNone result ((h : Held) → BeginsWithFrame octets.now h → ⊥) }
    // With the variable bindings that its list spells it is the message.
    ensures found { IfSome result (λ f. (bindings : List AnyBinding)
        → AreSpelled IsBinding f.list.now bindings → BeginsWithMessage octets.now
        (framed f bindings)) }
    // Each message with another PDU than a GetBulk has a frame.
    ensures only { (m : AnyMessage) (p : AnyPdu) → m.body ≡ bodies.Pdu p
        → BeginsWithMessage octets.now m → IsSome result }
    // Its list spells the variable bindings.
    ensures spells { (m : AnyMessage) (p : AnyPdu) → m.body ≡ bodies.Pdu p
        → BeginsWithMessage octets.now m
        → IfSome result (λ f. AreSpelled IsBinding f.list.now p.bindings) }
{
    frame_at(octets).ok()
}

/// The frame of the GetBulk that the octets begin with; what follows it is passed over. None where
/// they begin with no message, or with another, or where only the variable bindings are to blame
/// that they begin with none: those are not looked at.
pub fn read_bulk_frame(octets: &[u8]) -> Option<BulkFrame<'_>>
    // What it holds is there, whatever the octets of its list are; if it isn't, no frame is
    // returned.
    ensures framed { IfSome result (λ f. BeginsWithBulkFrame octets.now (bulk_held f)) }
    ensures none { IfNone result ((h : BulkHeld) → BeginsWithBulkFrame octets.now h → ⊥) }
    // With the variable bindings that its list spells it is the message.
    ensures found { IfSome result (λ f. (bindings : List AnyBinding)
        → AreSpelled IsBinding f.list.now bindings
        → BeginsWithMessage octets.now (bulk_framed f bindings)) }
    // Each GetBulk has a frame.
    ensures only { (m : AnyMessage) (p : AnyBulk) → m.body ≡ bodies.Bulk p
        → BeginsWithMessage octets.now m → IsSome result }
    // Its list spells the variable bindings.
    ensures spells { (m : AnyMessage) (p : AnyBulk) → m.body ≡ bodies.Bulk p
        → BeginsWithMessage octets.now m
        → IfSome result (λ f. AreSpelled IsBinding f.list.now p.bindings) }
{
    bulk_frame_at(octets).ok()
}

/// The frame of the message that the octets begin with, or why there is none.
#[tactic(auto, unfolding(crate::specs::Framed::frame_at))]
fn frame_at(octets: &[u8]) -> Result<Frame<'_>, BerFault>
    ensures gives { Gives held result (frame_at octets.now) }
    ensures no_memory { result ≢ Err BerFault.OutOfMemory }
{
    let frame = any_at(octets)?;
    match PduKind::from_octet(frame.tag) {
        Some(kind) => Ok(Frame {
            community: frame.community,
            kind,
            request_id: frame.first,
            error_status: frame.second,
            error_index: frame.third,
            list: frame.list,
        }),
        None => Err(BerFault::BadTag),
    }
}

/// The frame of the GetBulk that the octets begin with, or why there is none.
#[tactic(auto, unfolding(crate::specs::Framed::bulk_frame_at))]
fn bulk_frame_at(octets: &[u8]) -> Result<BulkFrame<'_>, BerFault>
    ensures gives { Gives bulk_held result (bulk_frame_at octets.now) }
    ensures no_memory { result ≢ Err BerFault.OutOfMemory }
{
    let frame = any_at(octets)?;
    if frame.tag != GET_BULK {
        return Err(BerFault::BadTag);
    }
    Ok(BulkFrame {
        community: frame.community,
        request_id: frame.first,
        non_repeaters: frame.second,
        max_repetitions: frame.third,
        list: frame.list,
    })
}

/// The frame of the message that the octets begin with, whatever the tag of its PDU, or why there
/// is none.
#[tactic(auto, unfolding(crate::specs::Framed::any_at))]
fn any_at(octets: &[u8]) -> Result<AnyFrame<'_>, BerFault>
    ensures gives { Gives any_held result (any_at octets.now) }
    ensures no_memory { result ≢ Err BerFault.OutOfMemory }
{
    let (contents, _) = element_at(SEQUENCE, octets)?;
    any_of(contents)
}

/// The frame of the message whose SEQUENCE has these contents, or why there is none.
#[tactic(auto, unfolding(crate::specs::Framed::any_of))]
fn any_of(contents: &[u8]) -> Result<AnyFrame<'_>, BerFault>
    ensures gives { Gives any_held result (any_of contents.now) }
    ensures no_memory { result ≢ Err BerFault.OutOfMemory }
{
    let (version, rest) = integer_at(contents)?;
    if version != 1 {
        return Err(BerFault::OutOfRange);
    }
    let (community, rest) = element_at(OCTET_STRING, rest)?;
    let (tag, rest) = octet_at(rest)?;
    let (contents, rest) = contents_at(rest)?;
    if !rest.is_empty() {
        return Err(BerFault::BadLength);
    }
    let (first, second, third, list) = fields_of(contents)?;
    Ok(AnyFrame {
        community,
        tag,
        first,
        second,
        third,
        list,
    })
}

/// The octet that the octets begin with, and what follows it.
#[tactic(auto, unfolding(crate::specs::Framed::octet_at))]
fn octet_at(octets: &[u8]) -> Result<(u8, &[u8]), BerFault>
    ensures gives { Gives (λ x. (x.0, x.1.now)) result (octet_at octets.now) }
    ensures no_memory { result ≢ Err BerFault.OutOfMemory }
{
    let [octet, rest @ ..] = octets else {
        return Err(BerFault::Truncated);
    };
    Ok((*octet, rest))
}

/// The numbers of the PDU that has these contents, and the octets of its variable bindings.
#[tactic(auto, unfolding(crate::specs::Framed::fields_of))]
fn fields_of(contents: &[u8]) -> Result<(i32, i32, i32, &[u8]), BerFault>
    ensures gives { Gives (λ x. (x.0, x.1, x.2, x.3.now)) result (fields_of contents.now) }
    ensures no_memory { result ≢ Err BerFault.OutOfMemory }
{
    let (first, rest) = integer_at(contents)?;
    let (second, rest) = integer_at(rest)?;
    let (third, rest) = integer_at(rest)?;
    let (list, rest) = element_at(SEQUENCE, rest)?;
    if !rest.is_empty() {
        return Err(BerFault::BadLength);
    }
    Ok((first, second, third, list))
}

/// Returns the value of the variable binding that the octets begin with, if these octets spell its
/// name, and what follows it. Returns `None` if they begin with no such variable binding, or if
/// memory for its value ran out.
pub fn named_value<'b>(alloc: Global, name: &[u8], octets: &'b [u8]) -> Option<(Value, &'b [u8])>
    ensures found { IfSome result (λ r. (oid : List ℕ) → Spells name.now (Name oid)
        → (text : List ℕ) × IsBinding text (record { name = oid; value = r.0 })
        × (octets.now ≡ text ++ r.1.now)) }
    // A value that needs no memory is found.
    ensures inline { (text rest spelled : List ℕ) (v : AnyValue)
        → IsElement 0x30 (name.now ++ spelled) text → Spells spelled v → IsInline v
        → octets.now ≡ text ++ rest → IsSome result }
{
    let (contents, after) = element_at(SEQUENCE, octets).ok()?;
    let rest = contents.strip_prefix(name)?;
    let (value, rest) = value_at(alloc, rest).ok()?;
    if !rest.is_empty() {
        return None;
    }
    Some((value, after))
}
