//! Reading messages.

ghost use Rattle.std.specs.Prelude.{◌≡◌, ◌≢◌, ◌↔◌, ◌<◌, ℕ, ℤ, pos, length, None, Some, Ok, Err, IfOk};
ghost use Rattle.mon_pdu.specs.declared.message.Message.{Message};
ghost use Rattle.mon_pdu.specs.Grammar.{BeginsWithMessage, IsVersioned, HasUnknownPdu};
ghost use Rattle.mon_pdu.specs.declared.fault.PduFault.TheVariants.{Truncated};
ghost use Rattle.mon_ber.specs.Many.{many};
ghost use Rattle.mon_pdu.specs.Reading.{Gives, binding_at, ended, list_at, body_of, behind_tag, body_at, message_of, message_at};

use crate::fault::PduFault;
use crate::message::{Binding, Bindings, Body, Bulk, GET_BULK, Message, Pdu, PduKind};
use mon_ber::element::{contents_at, element_at};
use mon_ber::reading::{integer_at, name_at, value_at};
use mon_ber::{OCTET_STRING, Octets, SEQUENCE};
use std::alloc::Global;

/// All of the contents were used up.
fn require_end(rest: &[u8]) -> Result<(), PduFault>
    ensures { Gives (λ u. u) result (ended rest.now (tt {0})) }
{
    if !rest.is_empty() {
        return Err(PduFault::BadLength);
    }
    Ok(())
}

/// A variable binding, and what follows it.
#[tactic(auto, unfolding(crate::specs::Reading::binding_at))]
fn binding_at(alloc: Global, octets: &[u8]) -> Result<(Binding, &[u8]), PduFault>
    ensures gives { Gives (λ x. (x.0, x.1.now)) result (binding_at octets.now) }
    ensures shorter { IfOk result (λ x. length x.1.now < length octets.now) }
{
    let (contents, after) = element_at(SEQUENCE, octets)?;
    let (name, rest) = name_at(alloc, contents)?;
    let (value, rest) = value_at(alloc, rest)?;
    require_end(rest)?;
    Ok((Binding { name, value }, after))
}

/// The bindings that the contents spell, all of the contents.
fn all_bindings(alloc: Global, contents: &[u8]) -> Result<Vec<Binding>, PduFault>
    ensures { Gives (λ v. v.items) result (many binding_at Truncated (length contents.now)
        contents.now) }
{
    let mut bindings = Vec::new(alloc);
    let mut rest = contents;
    while !rest.is_empty() {
        let (binding, after) = binding_at(alloc, rest)?;
        bindings.push(binding)?;
        rest = after;
    }
    Ok(bindings)
}

/// The SEQUENCE of variable bindings, and what follows it.
#[inline(always)]
#[tactic(auto, unfolding(crate::specs::Reading::list_at))]
fn list_at(alloc: Global, octets: &[u8]) -> Result<(Bindings, &[u8]), PduFault>
    ensures { Gives (λ x. (x.0, x.1.now)) result (list_at octets.now) }
{
    let (contents, after) = element_at(SEQUENCE, octets)?;
    let bindings = all_bindings(alloc, contents)?;
    Ok((Bindings::new(bindings), after))
}

/// The PDU of this kind, or the GetBulk, that the contents spell, all of the contents.
#[inline(always)]
#[tactic(auto, unfolding(crate::specs::Reading::body_of))]
fn body_of(alloc: Global, kind: Option<PduKind>, contents: &[u8]) -> Result<Body, PduFault>
    ensures { Gives (λ b. b) result (body_of kind contents.now) }
{
    let (request_id, rest) = integer_at(contents)?;
    let (second, rest) = integer_at(rest)?;
    let (third, rest) = integer_at(rest)?;
    let (bindings, rest) = list_at(alloc, rest)?;
    require_end(rest)?;
    match kind {
        Some(kind) => Ok(Body::Pdu(Pdu {
            kind,
            request_id,
            error_status: second,
            error_index: third,
            bindings,
        })),
        None => Ok(Body::Bulk(Bulk {
            request_id,
            non_repeaters: second,
            max_repetitions: third,
            bindings,
        })),
    }
}

/// The PDU after its tag, and what follows it.
#[inline(always)]
#[tactic(auto, unfolding(crate::specs::Reading::behind_tag))]
fn behind_tag(
    alloc: Global,
    kind: Option<PduKind>,
    octets: &[u8],
) -> Result<(Body, &[u8]), PduFault>
    ensures { Gives (λ x. (x.0, x.1.now)) result (behind_tag kind octets.now) }
{
    let (contents, rest) = contents_at(octets)?;
    Ok((body_of(alloc, kind, contents)?, rest))
}

/// The PDU, and what follows it.
#[inline(always)]
#[tactic(auto, unfolding(crate::specs::Reading::body_at))]
fn body_at(alloc: Global, octets: &[u8]) -> Result<(Body, &[u8]), PduFault>
    ensures { Gives (λ x. (x.0, x.1.now)) result (body_at octets.now) }
{
    let [tag, rest @ ..] = octets else {
        return Err(PduFault::Truncated);
    };
    if *tag == GET_BULK {
        return behind_tag(alloc, None, rest);
    }
    match PduKind::from_octet(*tag) {
        Some(kind) => behind_tag(alloc, Some(kind), rest),
        None => Err(PduFault::UnknownPdu(*tag)),
    }
}

/// The message that the contents of the outer SEQUENCE spell, all of the contents.
#[inline(always)]
#[tactic(auto, unfolding(crate::specs::Reading::message_of))]
fn message_of(alloc: Global, contents: &[u8]) -> Result<Message, PduFault>
    ensures gives { Gives (λ m. m) result (message_of contents.now) }
    // The version is refused before memory is taken.
    ensures version { (v : ℤ) → message_of contents.now ≡ Err (PduFault.BadVersion v)
        → result ≢ Err PduFault.OutOfMemory }
{
    let (version, rest) = integer_at(contents)?;
    if version != 1 {
        return Err(PduFault::BadVersion(version));
    }
    let (community, rest) = element_at(OCTET_STRING, rest)?;
    let community = Octets::from_slice(alloc, community)?;
    let (body, rest) = body_at(alloc, rest)?;
    require_end(rest)?;
    Ok(Message { community, body })
}

/// The message; what follows it is passed over.
#[inline(always)]
#[tactic(auto, unfolding(crate::specs::Reading::message_at))]
fn message_at(alloc: Global, octets: &[u8]) -> Result<Message, PduFault>
    ensures gives { Gives (λ m. m) result (message_at octets.now) }
    ensures version { (v : ℤ) → message_at octets.now ≡ Err (PduFault.BadVersion v)
        → result ≢ Err PduFault.OutOfMemory }
{
    let (contents, _) = element_at(SEQUENCE, octets)?;
    message_of(alloc, contents)
}

/// The message that the octets begin with; what follows it is passed over. The faults come from
/// left to right, the first one counts, and the version is tested before the community and the PDU
/// are read (RFC 3417 section 8).
pub fn read_message(alloc: Global, octets: &[u8]) -> Result<Message, PduFault>
    // What is read is spelled where the octets begin.
    ensures found { IfOk result (λ m. BeginsWithMessage octets.now m) }
    // A message that is spelled where the octets begin is read, unless memory runs out.
    ensures only { (m : Message) → BeginsWithMessage octets.now m → Gives (λ m. m) result (Ok m) }

    // Another version is refused as such, also where no memory is left, and nothing else is.
    ensures version { (v : ℤ) → result ≡ Err (PduFault.BadVersion v)
        ↔ (IsVersioned octets.now v × (v ≢ pos 1)) }

    // So is the tag of no PDU after a community, unless memory runs out.
    ensures unknown { (t : ℕ) → result ≡ Err (PduFault.UnknownPdu t) → HasUnknownPdu octets.now t }
    ensures unknown_only { (t : ℕ) → HasUnknownPdu octets.now t
        → Gives (λ m. m) result (Err (PduFault.UnknownPdu t)) }

    // The result is what reading gives, or `OutOfMemory`.
    ensures exact { Gives (λ m. m) result (message_at octets.now) }
{
    message_at(alloc, octets)
}
