//! Object identifiers, in base 128 (X.690 8.19).

ghost use Rattle.std.specs.Prelude.{◌≡◌, ◌≢◌, ◌≤◌, ◌<◌, ◌-◌, ◌^◌, ◌∷◌, ℕ, List, Ok, length, IfOk, IsOk};
ghost use Rattle.mon_oid.specs.Oid.{IsOid};
ghost use Rattle.mon_ber.specs.Reading.{Gives, digits_at, subidentifier_at, subidentifiers_of, first_two, name_of};
ghost use Rattle.mon_ber.specs.Many.{with_front};

use crate::fault::BerFault;
use mon_oid::{Oid, laws};
use smallvec::SmallVec;
use std::alloc::{AllocError, Global};

/// Numbers from here on spell no sub-identifier, nor the first two.
const LIMIT: u64 = 4_294_967_376;

/// Up to this many sub-identifiers of one octet behind the first two are read at once, since they
/// take no heap memory.
const SHORT: usize = 14;

/// The most sub-identifiers of an identifier.
const MAX_PARTS: usize = 128;

/// A number in base 128, and what follows it. Most numbers of names have one digit.
#[inline(always)]
#[tactic(auto, unfolding(crate::specs::Reading::subidentifier_at))]
fn subidentifier_at(octets: &[u8]) -> Result<(u64, &[u8]), BerFault>
    ensures gives { Gives (λ x. (x.0, x.1.now)) result (subidentifier_at octets.now) }
    ensures shorter { IfOk result (λ x. length x.1.now < length octets.now) }
    ensures no_memory { result ≢ Err BerFault.OutOfMemory }
{
    if let [octet, rest @ ..] = octets {
        if *octet < 0x80 {
            return Ok((u64::from(*octet), rest));
        }
    }
    digits_at(octets)
}

/// A number in base 128, and what follows it, digit by digit.
#[tactic(auto, unfolding(crate::specs::Reading::subidentifier_at))]
fn digits_at(octets: &[u8]) -> Result<(u64, &[u8]), BerFault>
    ensures gives { Gives (λ x. (x.0, x.1.now)) result (subidentifier_at octets.now) }
    ensures shorter { IfOk result (λ x. length x.1.now < length octets.now) }
    ensures no_memory { result ≢ Err BerFault.OutOfMemory }
{
    if octets.first() == Some(&0x80) {
        return Err(BerFault::BadOid);
    }
    let mut number: u64 = 0;
    let mut rest = octets;
    while let [octet, after @ ..] = rest {
        rest = after;
        number = 128 * number + u64::from(*octet & 0x7f);
        if number >= LIMIT {
            return Err(BerFault::BadOid);
        }
        if *octet < 0x80 {
            return Ok((number, rest));
        }
    }
    Err(BerFault::BadOid)
}

/// The first two sub-identifiers, of which the number is 40 times the first and the second.
fn first_two(number: u64) -> Result<(u32, u32), BerFault>
    ensures gives { Gives (λ x. x) result (first_two number) }
    ensures no_memory { result ≢ Err BerFault.OutOfMemory }
{
    if number < 40 {
        return Ok((0, number as u32));
    }
    if number < 80 {
        return Ok((1, number as u32 - 40));
    }
    match u32::try_from(number - 80) {
        Ok(second) => Ok((2, second)),
        Err(_) => Err(BerFault::BadOid),
    }
}

/// The sub-identifiers that the octets spell, all of them, after those that were read before.
fn with_others(mut parts: SmallVec<u32, 16>, octets: &[u8]) -> Result<SmallVec<u32, 16>, BerFault>
    requires { IsOid parts.items }
    ensures gives { Gives (λ v. v.items) result
        (with_front parts.items (subidentifiers_of (128 - length parts.items) octets.now)) }
    ensures valid { IfOk result (λ v. IsOid v.items) }
    ensures inline { (all : List ℕ) → 16 ≤ parts.capacity → length all ≤ 16
        → with_front parts.items (subidentifiers_of (128 - length parts.items) octets.now) ≡ Ok all
        → IsOk result }
{
    laws::pushed();
    let mut rest = octets;
    while !rest.is_empty() {
        if parts.len() == MAX_PARTS {
            return Err(BerFault::BadOid);
        }
        let (number, after) = subidentifier_at(rest)?;
        let Ok(part) = u32::try_from(number) else {
            return Err(BerFault::BadOid);
        };
        parts.push(part)?;
        rest = after;
    }
    Ok(parts)
}

/// The first two sub-identifiers and the others, each of which is an octet.
fn with_octets(
    alloc: Global,
    first: u32,
    second: u32,
    octets: &[u8],
) -> Result<SmallVec<u32, 16>, AllocError>
    requires { length octets.now ≤ 14 }
    ensures items { IfOk result (λ v. v.items ≡ first ∷ second ∷ octets.now) }
    ensures made { IsOk result }
{
    let mut parts = [0; 16];
    parts[0] = first;
    parts[1] = second;
    for i in 0..octets.len() {
        parts[i + 2] = u32::from(octets[i]);
    }
    SmallVec::from_slice(alloc, &parts[..octets.len() + 2])
}

/// The identifier that contents spell. Up to 16 sub-identifiers take no heap memory.
#[tactic(auto, using(crate::proofs::Names::first_two_valid, crate::proofs::Names::octets_are_numbers), unfolding(crate::specs::Reading::name_of))]
pub fn name_of(alloc: Global, contents: &[u8]) -> Result<Oid, BerFault>
    ensures gives { Gives (λ o. o) result (name_of contents.now) }
    ensures inline { (parts : List ℕ) → name_of contents.now ≡ Ok parts → length parts ≤ 16
        → IsOk result }
{
    let (number, rest) = subidentifier_at(contents)?;
    let (first, second) = first_two(number)?;
    if rest.len() <= SHORT && rest.is_ascii() {
        return Ok(Oid::from_valid(with_octets(alloc, first, second, rest)?));
    }
    let mut parts = SmallVec::new(alloc);
    parts.push(first)?;
    parts.push(second)?;
    Ok(Oid::from_valid(with_others(parts, rest)?))
}
