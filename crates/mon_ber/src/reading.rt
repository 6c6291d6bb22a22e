//! Reading values. Each reader returns what it read and what follows it, or the first fault from
//! the left: no octet, the tag, the length, the octets that are left, the contents.

ghost use Rattle.std.specs.Prelude.{◌≡◌, ◌≢◌, ◌≤◌, ◌^◌, ◌-◌, ◌<◌, ℕ, List, length, take, Ok, IsOk, IfOk, IfErr};
ghost use Rattle.mon_ber.specs.declared.value.Value.{Value};
ghost use Rattle.mon_ber.specs.Grammar.{Spells};
ghost use Rattle.mon_ber.specs.Memory.{IsInline};
ghost use Rattle.mon_ber.specs.Reading.{Gives, Fails, address_of, nothing_of, value_of, value_at, integer_at, name_at};

use crate::element::{contents_at, element_at, tag_at};
use crate::fault::BerFault;
use crate::name::name_of;
use crate::number::{integer_of, u32_of, u64_of};
use crate::octets::Octets;
use crate::tag::{INTEGER, OBJECT_IDENTIFIER, Tag};
use crate::value::Value;
use mon_oid::Oid;
use std::alloc::Global;

/// Reads an IPv4 address. `BadLength` unless it has 4 octets.
#[tactic(auto, unfolding(crate::specs::Reading::address_of))]
fn address_of(contents: &[u8]) -> Result<[u8; 4], BerFault>
    ensures gives { Gives (λ a. a) result (address_of contents.now) }
    ensures no_memory { result ≢ Err BerFault.OutOfMemory }
{
    match contents {
        [a, b, c, d] => Ok([*a, *b, *c, *d]),
        _ => Err(BerFault::BadLength),
    }
}

/// A value of no contents. `BadLength` where there are any.
#[tactic(auto, unfolding(crate::specs::Reading::nothing_of))]
fn nothing_of(value: Value, contents: &[u8]) -> Result<Value, BerFault>
    ensures gives { Gives (λ v. v) result (nothing_of value contents.now) }
    ensures no_memory { result ≢ Err BerFault.OutOfMemory }
{
    if !contents.is_empty() {
        return Err(BerFault::BadLength);
    }
    Ok(value)
}

/// Returns the value that contents after this tag spell.
#[tactic(auto, unfolding(crate::specs::Reading::value_of))]
fn value_of(alloc: Global, tag: Tag, contents: &[u8]) -> Result<Value, BerFault>
    ensures gives { Gives (λ v. v) result (value_of tag contents.now) }
    ensures inline { (v : Value) → value_of tag contents.now ≡ Ok v → IsInline v → IsOk result }
{
    match tag {
        Tag::Integer => Ok(Value::Integer(integer_of(contents)?)),
        Tag::OctetString => Ok(Value::Octets(Octets::from_slice(alloc, contents)?)),
        Tag::Null => nothing_of(Value::Null, contents),
        Tag::ObjectIdentifier => Ok(Value::Name(name_of(alloc, contents)?)),
        Tag::IpAddress => Ok(Value::IpAddress(address_of(contents)?)),
        Tag::Counter32 => Ok(Value::Counter32(u32_of(contents)?)),
        Tag::Gauge32 => Ok(Value::Gauge32(u32_of(contents)?)),
        Tag::TimeTicks => Ok(Value::TimeTicks(u32_of(contents)?)),
        Tag::Opaque => Ok(Value::Opaque(Octets::from_slice(alloc, contents)?)),
        Tag::Counter64 => Ok(Value::Counter64(u64_of(contents)?)),
        Tag::NoSuchObject => nothing_of(Value::NoSuchObject, contents),
        Tag::NoSuchInstance => nothing_of(Value::NoSuchInstance, contents),
        Tag::EndOfMibView => nothing_of(Value::EndOfMibView, contents),
    }
}

/// A value, and what follows it. The octets and long identifiers in it are copied to the heap.
#[inline(always)]
#[tactic(auto, unfolding(crate::specs::Reading::value_at))]
pub fn value_at(alloc: Global, octets: &[u8]) -> Result<(Value, &[u8]), BerFault>
    ensures gives { Gives (λ x. (x.0, x.1.now)) result (value_at octets.now) }
    ensures inline { (v : Value) (rest : List ℕ) → value_at octets.now ≡ Ok (v, rest) → IsInline v
        → IsOk result }
    ensures shorter { IfOk result (λ x. length x.1.now < length octets.now) }
{
    let (tag, rest) = tag_at(octets)?;
    let (contents, rest) = contents_at(rest)?;
    let value = value_of(alloc, tag, contents)?;
    Ok((value, rest))
}

/// The value that the octets begin with, and how many octets it takes (RFC 3417 section 8).
pub fn read_value(alloc: Global, octets: &[u8]) -> Result<(Value, usize), BerFault>
    // What is read is spelled so.
    ensures found { IfOk result (λ x. (x.1 ≤ length octets.now)
        × Spells (take x.1 octets.now) x.0) }
    // What is spelled so is read, unless memory runs out.
    ensures only { (v : Value) (k : ℕ) → k ≤ length octets.now → Spells (take k octets.now) v
        → Gives (λ x. x) result (Ok (v, k)) }
    // Only octets, and identifiers of more than 16 sub-identifiers, are allocated.
    ensures inline { (v : Value) (k : ℕ) → k ≤ length octets.now → Spells (take k octets.now) v
        → IsInline v → IsOk result }
    // Which fault it is: the first from left to right.
    ensures fault { IfErr result (λ e. Fails e (value_at octets.now)) }
{
    let (value, rest) = value_at(alloc, octets)?;
    Ok((value, octets.len() - rest.len()))
}

/// An INTEGER of 32 bits, and what follows it.
#[tactic(auto, unfolding(crate::specs::Reading::integer_at))]
pub fn integer_at(octets: &[u8]) -> Result<(i32, &[u8]), BerFault>
    ensures gives { Gives (λ x. (x.0, x.1.now)) result (integer_at octets.now) }
    ensures shorter { IfOk result (λ x. length x.1.now < length octets.now) }
    ensures no_memory { result ≢ Err BerFault.OutOfMemory }
{
    let (contents, rest) = element_at(INTEGER, octets)?;
    Ok((integer_of(contents)?, rest))
}

/// An OBJECT IDENTIFIER, and what follows it.
#[tactic(auto, unfolding(crate::specs::Reading::name_at))]
pub fn name_at(alloc: Global, octets: &[u8]) -> Result<(Oid, &[u8]), BerFault>
    ensures gives { Gives (λ x. (x.0, x.1.now)) result (name_at octets.now) }
    ensures inline { (parts rest : List ℕ) → name_at octets.now ≡ Ok (parts, rest)
        → length parts ≤ 16 → IsOk result }
    ensures shorter { IfOk result (λ x. length x.1.now < length octets.now) }
{
    let (contents, rest) = element_at(OBJECT_IDENTIFIER, octets)?;
    Ok((name_of(alloc, contents)?, rest))
}
