//! Writing values, with the shortest lengths and numbers. Sizes are counted first, which allocates
//! nothing. What is written goes after the octets of a vector that has the capacity, so it never
//! fails.

ghost use Rattle.std.specs.Prelude.{◌≡◌, ℕ, ◌≤◌, ◌<◌, ◌+◌, ◌^◌, ◌++◌, ◌∷◌, [], pos, negsuc, ◌≤ℤ◌, ◌<ℤ◌, length, List, ◌⊎◌, IfOk, IfErr, MatchResult, vec_len, vec_capacity};
ghost use Rattle.mon_ber.specs.declared.value.Value.{Value};
ghost use Rattle.mon_ber.specs.declared.value.Value.TheVariants.{Integer, Name, Octets as OctetString};
ghost use Rattle.mon_ber.specs.declared.fault.BerFault.TheVariants.{OutOfMemory, BadLength};
ghost use Rattle.std.specs.List.{flat_map};
ghost use Rattle.mon_oid.specs.Oid.{IsOid};
ghost use Rattle.mon_ber.specs.Grammar.{octet_of, tag_of};
ghost use Rattle.mon_ber.specs.Writing.{width, number_octets, digit, base128, name_octets, contents_of, size_for, size_counted, length_width, length_octets, element, written, HasLength};

use crate::fault::BerFault;
use crate::tag::{INTEGER, OBJECT_IDENTIFIER, OCTET_STRING, Tag};
use crate::value::Value;
use mon_oid::Oid;
use std::alloc::Global;

/// How many octets the number takes in two's complement.
fn width(number: i128) -> usize
    requires low { negsuc 18446744073709551615 ≤ℤ number }
    requires high { number <ℤ pos (2 ^ 64) }
    ensures { result ≡ width number }
{
    let magnitude = if number < 0 { -1 - number } else { number };
    match magnitude as u64 {
        0..=0x7f => 1,
        0x80..=0x7fff => 2,
        0x8000..=0x7f_ffff => 3,
        0x80_0000..=0x7fff_ffff => 4,
        0x8000_0000..=0x7f_ffff_ffff => 5,
        0x80_0000_0000..=0x7fff_ffff_ffff => 6,
        0x8000_0000_0000..=0x7f_ffff_ffff_ffff => 7,
        0x80_0000_0000_0000..=0x7fff_ffff_ffff_ffff => 8,
        _ => 9,
    }
}

/// How many octets of contents the number takes.
#[tactic(auto, unfolding(crate::specs::Writing::number_octets))]
fn number_len(number: i128) -> usize
    requires low { negsuc 18446744073709551615 ≤ℤ number }
    requires high { number <ℤ pos (2 ^ 64) }
    ensures value { result ≡ length (number_octets number) }
    ensures small { result ≤ 9 }
{
    width(number)
}

/// Writes an octet if the vector has capacity for it.
#[inline(always)]
fn put_octet(out: &mut Vec<u8>, octet: u8)
    requires room { vec_len out.old < vec_capacity out.old }
    ensures items { out.new.items ≡ out.old.items ++ octet ∷ [] }
    ensures len { vec_len out.new ≡ vec_len out.old + 1 }
    ensures capacity { vec_capacity out.old ≤ vec_capacity out.new }
{
    out.push(octet).unwrap();
}

/// Writes the octets if the vector has capacity for them.
fn put_slice(out: &mut Vec<u8>, octets: &[u8])
    requires room { vec_len out.old + length octets.now ≤ vec_capacity out.old }
    ensures items { out.new.items ≡ out.old.items ++ octets.now }
    ensures len { vec_len out.new ≡ vec_len out.old + length octets.now }
    ensures capacity { vec_capacity out.old ≤ vec_capacity out.new }
{
    out.extend_from_slice(octets).unwrap();
}

/// Writes the number, big-endian in two's complement. Most numbers of messages take one octet.
#[inline(always)]
#[tactic(auto, unfolding(crate::specs::Writing::number_octets))]
fn put_number(out: &mut Vec<u8>, number: i128)
    requires low { negsuc 18446744073709551615 ≤ℤ number }
    requires high { number <ℤ pos (2 ^ 64) }
    requires room { vec_len out.old + length (number_octets number) ≤ vec_capacity out.old }
    ensures items { out.new.items ≡ out.old.items ++ number_octets number }
    ensures len { vec_len out.new ≡ vec_len out.old + length (number_octets number) }
    ensures capacity { vec_capacity out.old ≤ vec_capacity out.new }
{
    if 0 <= number && number < 0x80 {
        put_octet(out, number as u8);
        return;
    }
    put_long_number(out, number);
}

/// Writes the number, of however many octets.
#[tactic(auto, unfolding(crate::specs::Writing::number_octets))]
fn put_long_number(out: &mut Vec<u8>, number: i128)
    requires low { negsuc 18446744073709551615 ≤ℤ number }
    requires high { number <ℤ pos (2 ^ 64) }
    requires room { vec_len out.old + length (number_octets number) ≤ vec_capacity out.old }
    ensures items { out.new.items ≡ out.old.items ++ number_octets number }
    ensures len { vec_len out.new ≡ vec_len out.old + length (number_octets number) }
    ensures capacity { vec_capacity out.old ≤ vec_capacity out.new }
{
    let octets = number.to_be_bytes();
    put_slice(out, &octets[16 - width(number)..]);
}

/// Writes the digit of this place in base 128, where the number reaches it.
fn put_digit(out: &mut Vec<u8>, place: u64, number: u64)
    requires place { 0 < place }
    requires room { vec_len out.old + length (digit place number) ≤ vec_capacity out.old }
    ensures items { out.new.items ≡ out.old.items ++ digit place number }
    ensures len { vec_len out.new ≡ vec_len out.old + length (digit place number) }
    ensures capacity { vec_capacity out.old ≤ vec_capacity out.new }
{
    if number >= place {
        put_octet(out, (0x80 + number / place % 128) as u8);
    }
}

/// Writes the number in base 128. Most numbers of names have one digit.
#[inline(always)]
#[tactic(auto, unfolding(crate::specs::Writing::base128))]
fn put_base128(out: &mut Vec<u8>, number: u64)
    requires room { vec_len out.old + length (base128 number) ≤ vec_capacity out.old }
    ensures items { out.new.items ≡ out.old.items ++ base128 number }
    ensures len { vec_len out.new ≡ vec_len out.old + length (base128 number) }
    ensures capacity { vec_capacity out.old ≤ vec_capacity out.new }
{
    if number < 0x80 {
        put_octet(out, number as u8);
        return;
    }
    put_digits(out, number);
}

/// Writes the number in base 128, digit by digit.
#[tactic(auto, unfolding(crate::specs::Writing::base128))]
fn put_digits(out: &mut Vec<u8>, number: u64)
    requires room { vec_len out.old + length (base128 number) ≤ vec_capacity out.old }
    ensures items { out.new.items ≡ out.old.items ++ base128 number }
    ensures len { vec_len out.new ≡ vec_len out.old + length (base128 number) }
    ensures capacity { vec_capacity out.old ≤ vec_capacity out.new }
{
    put_digit(out, 1 << 28, number);
    put_digit(out, 1 << 21, number);
    put_digit(out, 1 << 14, number);
    put_digit(out, 1 << 7, number);
    put_octet(out, (number % 128) as u8);
}

/// Writes sub-identifiers, one after the other.
fn put_subidentifiers(out: &mut Vec<u8>, parts: &[u32])
    requires room { vec_len out.old + length (flat_map base128 parts.now) ≤ vec_capacity out.old }
    ensures items { out.new.items ≡ out.old.items ++ flat_map base128 parts.now }
    ensures len { vec_len out.new ≡ vec_len out.old + length (flat_map base128 parts.now) }
    ensures capacity { vec_capacity out.old ≤ vec_capacity out.new }
{
    for part in parts {
        put_base128(out, u64::from(*part));
    }
}

/// Writes an identifier's contents.
fn put_name(out: &mut Vec<u8>, parts: &[u32])
    requires oid { IsOid parts.now }
    requires room { vec_len out.old + length (name_octets parts.now) ≤ vec_capacity out.old }
    ensures items { out.new.items ≡ out.old.items ++ name_octets parts.now }
    ensures len { vec_len out.new ≡ vec_len out.old + length (name_octets parts.now) }
    ensures capacity { vec_capacity out.old ≤ vec_capacity out.new }
{
    let [first, second, others @ ..] = parts else {
        unreachable!();
    };
    put_base128(out, u64::from(*first) * 40 + u64::from(*second));
    put_subidentifiers(out, others);
}

/// Writes the contents of the value.
fn put_contents(out: &mut Vec<u8>, value: &Value)
    requires room { vec_len out.old + length (contents_of value.now) ≤ vec_capacity out.old }
    ensures items { out.new.items ≡ out.old.items ++ contents_of value.now }
    ensures len { vec_len out.new ≡ vec_len out.old + length (contents_of value.now) }
    ensures capacity { vec_capacity out.old ≤ vec_capacity out.new }
{
    match value {
        Value::Integer(number) => put_number(out, i128::from(*number)),
        Value::Octets(octets) => put_slice(out, octets.as_slice()),
        Value::Name(name) => put_name(out, name.parts()),
        Value::IpAddress(address) => put_slice(out, address),
        Value::Counter32(number) => put_number(out, i128::from(*number)),
        Value::Gauge32(number) => put_number(out, i128::from(*number)),
        Value::TimeTicks(number) => put_number(out, i128::from(*number)),
        Value::Opaque(octets) => put_slice(out, octets.as_slice()),
        Value::Counter64(number) => put_number(out, i128::from(*number)),
        Value::Null | Value::NoSuchObject | Value::NoSuchInstance | Value::EndOfMibView => {}
    }
}

/// How many octets follow the first of a length from 128 on.
fn length_width(len: usize) -> usize
    requires { len < 2 ^ 32 }
    ensures { result ≡ length_width len }
{
    match len {
        0..=0xff => 1,
        0x100..=0xffff => 2,
        0x1_0000..=0xff_ffff => 3,
        _ => 4,
    }
}

/// Writes a length in its shortest form (X.690 8.1.3).
#[tactic(auto, unfolding(crate::specs::Writing::length_octets))]
fn put_length(out: &mut Vec<u8>, len: usize)
    requires fits { len < 2 ^ 32 }
    requires room { vec_len out.old + length (length_octets len) ≤ vec_capacity out.old }
    ensures items { out.new.items ≡ out.old.items ++ length_octets len }
    ensures len { vec_len out.new ≡ vec_len out.old + length (length_octets len) }
    ensures capacity { vec_capacity out.old ≤ vec_capacity out.new }
{
    if len < 0x80 {
        put_octet(out, len as u8);
        return;
    }
    let count = length_width(len);
    put_octet(out, (0x80 + count) as u8);
    let octets = (len as u32).to_be_bytes();
    put_slice(out, &octets[4 - count..]);
}

/// How many octets the number takes in base 128.
#[inline(always)]
#[tactic(auto, unfolding(crate::specs::Writing::base128))]
fn base128_len(number: u64) -> usize
    ensures value { result ≡ length (base128 number) }
    ensures small { result ≤ 5 }
{
    match number {
        0..=0x7f => 1,
        0x80..=0x3fff => 2,
        0x4000..=0x1f_ffff => 3,
        0x20_0000..=0xfff_ffff => 4,
        _ => 5,
    }
}

/// How many octets of contents the value takes.
pub fn contents_len(value: &Value) -> usize
    ensures { result ≡ length (contents_of value.now) }
{
    match value {
        Value::Integer(number) => number_len(i128::from(*number)),
        Value::Octets(octets) => octets.as_slice().len(),
        Value::Name(name) => name_len(name.parts()),
        Value::IpAddress(address) => address.as_slice().len(),
        Value::Counter32(number) => number_len(i128::from(*number)),
        Value::Gauge32(number) => number_len(i128::from(*number)),
        Value::TimeTicks(number) => number_len(i128::from(*number)),
        Value::Opaque(octets) => octets.as_slice().len(),
        Value::Counter64(number) => number_len(i128::from(*number)),
        Value::Null | Value::NoSuchObject | Value::NoSuchInstance | Value::EndOfMibView => 0,
    }
}

/// How many octets sub-identifiers take.
fn subidentifiers_len(parts: &[u32]) -> usize
    requires { length parts.now ≤ 128 }
    ensures value { result ≡ length (flat_map base128 parts.now) }
    ensures small { result ≤ 640 }
{
    let mut len = 0;
    for part in parts {
        len += base128_len(u64::from(*part));
    }
    len
}

/// How many octets of contents an identifier takes.
fn name_len(parts: &[u32]) -> usize
    requires { IsOid parts.now }
    ensures value { result ≡ length (name_octets parts.now) }
    ensures small { result ≤ 645 }
{
    let [first, second, others @ ..] = parts else {
        unreachable!();
    };
    base128_len(u64::from(*first) * 40 + u64::from(*second)) + subidentifiers_len(others)
}

/// How many octets a length takes, 1 to 5.
#[tactic(auto, unfolding(crate::specs::Writing::length_octets))]
fn length_len(len: usize) -> usize
    requires { len < 2 ^ 32 }
    ensures value { result ≡ length (length_octets len) }
    ensures small { result ≤ 5 }
{
    if len < 0x80 { 1 } else { 1 + length_width(len) }
}

/// Writes a tag and a length at the end, if the vector has capacity for them.
#[inline(always)]
#[tactic(auto, unfolding(crate::specs::Writing::length_octets))]
pub fn put_header(out: &mut Vec<u8>, tag: u8, len: usize)
    requires fits { len < 2 ^ 32 }
    requires room { vec_len out.old + length (tag ∷ length_octets len) ≤ vec_capacity out.old }
    ensures items { out.new.items ≡ out.old.items ++ (tag ∷ length_octets len) }
    ensures len { vec_len out.new ≡ vec_len out.old + length (tag ∷ length_octets len) }
    ensures capacity { vec_capacity out.old ≤ vec_capacity out.new }
{
    if len < 0x80 {
        put_slice(out, &[tag, len as u8]);
        return;
    }
    put_long_header(out, tag, len);
}

/// Writes a tag and a length of any form.
fn put_long_header(out: &mut Vec<u8>, tag: u8, len: usize)
    requires fits { len < 2 ^ 32 }
    requires room { vec_len out.old + length (tag ∷ length_octets len) ≤ vec_capacity out.old }
    ensures items { out.new.items ≡ out.old.items ++ (tag ∷ length_octets len) }
    ensures len { vec_len out.new ≡ vec_len out.old + length (tag ∷ length_octets len) }
    ensures capacity { vec_capacity out.old ≤ vec_capacity out.new }
{
    put_octet(out, tag);
    put_length(out, len);
}

/// How many octets an INTEGER takes.
#[tactic(auto, using(crate::proofs::Written::integer_size_is), unfolding(crate::specs::Writing::size_for))]
pub fn integer_size(number: i32) -> usize
    ensures value { result ≡ length (written (Integer number)) }
    ensures small { result ≤ 15 }
{
    element_len(number_len(i128::from(number)))
}

/// Writes an INTEGER at the end, if the vector has capacity for it: `integer_size` octets.
#[tactic(auto, unfolding(crate::specs::Writing::written, crate::specs::Writing::element))]
pub fn put_integer(out: &mut Vec<u8>, number: i32)
    requires room { vec_len out.old + length (written (Integer number)) ≤ vec_capacity out.old }
    ensures items { out.new.items ≡ out.old.items ++ written (Integer number) }
    ensures len { vec_len out.new ≡ vec_len out.old + length (written (Integer number)) }
    ensures capacity { vec_capacity out.old ≤ vec_capacity out.new }
{
    put_header(out, INTEGER, number_len(i128::from(number)));
    put_number(out, i128::from(number));
}

/// Writes an OCTET STRING at the end, if the vector has capacity for it: `element_len` octets of
/// its length.
#[tactic(auto, unfolding(crate::specs::Writing::written, crate::specs::Writing::element))]
pub fn put_octets(out: &mut Vec<u8>, octets: &[u8])
    requires fits { length octets.now < 2 ^ 32 }
    requires room { vec_len out.old + length (written (OctetString octets.now))
        ≤ vec_capacity out.old }
    ensures items { out.new.items ≡ out.old.items ++ written (OctetString octets.now) }
    ensures len { vec_len out.new ≡ vec_len out.old + length (written (OctetString octets.now)) }
    ensures capacity { vec_capacity out.old ≤ vec_capacity out.new }
{
    put_header(out, OCTET_STRING, octets.len());
    put_slice(out, octets);
}

/// How many octets an OBJECT IDENTIFIER takes.
#[tactic(auto, using(crate::proofs::Written::name_size_is), unfolding(crate::specs::Writing::size_for))]
pub fn name_size(name: &Oid) -> usize
    ensures value { result ≡ length (written (Name name.now)) }
    ensures small { result ≤ 651 }
{
    element_len(name_len(name.parts()))
}

/// How many octets of contents an OBJECT IDENTIFIER has.
pub fn identifier_len(name: &Oid) -> usize
    ensures value { result ≡ length (name_octets name.now) }
    ensures small { result ≤ 645 }
{
    name_len(name.parts())
}

/// Writes an OBJECT IDENTIFIER at the end, if the vector has capacity for it: `name_size` octets.
pub fn put_object_identifier(out: &mut Vec<u8>, name: &Oid)
    requires room { vec_len out.old + length (written (Name name.now)) ≤ vec_capacity out.old }
    ensures items { out.new.items ≡ out.old.items ++ written (Name name.now) }
    ensures len { vec_len out.new ≡ vec_len out.old + length (written (Name name.now)) }
    ensures capacity { vec_capacity out.old ≤ vec_capacity out.new }
{
    put_measured_identifier(out, name, identifier_len(name));
}

/// Writes an OBJECT IDENTIFIER of this many octets of contents at the end, if the vector has
/// capacity for it.
#[tactic(auto, unfolding(crate::specs::Writing::written, crate::specs::Writing::element))]
pub fn put_measured_identifier(out: &mut Vec<u8>, name: &Oid, len: usize)
    requires measured { len ≡ length (name_octets name.now) }
    requires small { len ≤ 645 }
    requires room { vec_len out.old + length (written (Name name.now)) ≤ vec_capacity out.old }
    ensures items { out.new.items ≡ out.old.items ++ written (Name name.now) }
    ensures len { vec_len out.new ≡ vec_len out.old + length (written (Name name.now)) }
    ensures capacity { vec_capacity out.old ≤ vec_capacity out.new }
{
    put_header(out, OBJECT_IDENTIFIER, len);
    put_name(out, name.parts());
}

/// The first number of octets that takes a length of more than 4 octets. No size is counted
/// further.
pub const LIMIT: usize = 0x1_0000_0000;

/// How many octets an element with this many octets of contents takes.
#[tactic(auto, unfolding(crate::specs::Writing::size_for))]
pub fn element_len(len: usize) -> usize
    requires { len < 2 ^ 32 }
    ensures value { result ≡ size_for len }
    ensures small { result ≤ len + 6 }
{
    1 + length_len(len) + len
}

/// How many octets an element takes, counted up to the limit, of contents that are counted so too.
#[tactic(auto, unfolding(crate::specs::Writing::size_for))]
pub fn element_size(len: usize) -> usize
    ensures { result ≡ size_counted (size_for len) }
{
    if len >= LIMIT {
        return LIMIT;
    }
    element_len(len).min(LIMIT)
}

/// How many octets the value takes, counted up to the limit. It never fails.
#[tactic(auto, using(crate::proofs::Written::written_size))]
pub fn value_size(value: &Value) -> usize
    ensures { result ≡ size_counted (length (written value.now)) }
{
    element_size(contents_len(value))
}

/// How many octets the value takes. A length that needs more than 4 octets is `BadLength`.
#[tactic(auto, using(crate::proofs::Written::written_size))]
pub fn size_of(value: &Value) -> Result<usize, BerFault>
    ensures { MatchResult result (λ n. HasLength value.now × (n ≡ length (written value.now)))
        (λ e. (e ≡ BadLength) × (2 ^ 32 ≤ length (contents_of value.now))) }
{
    let len = contents_len(value);
    if len >= LIMIT {
        return Err(BerFault::BadLength);
    }
    Ok(element_len(len))
}

/// Writes the value at the end, if the vector has capacity for it: `value_size` octets.
pub fn put_value(out: &mut Vec<u8>, value: &Value)
    requires fits { HasLength value.now }
    requires room { vec_len out.old + length (written value.now) ≤ vec_capacity out.old }
    ensures items { out.new.items ≡ out.old.items ++ written value.now }
    ensures len { vec_len out.new ≡ vec_len out.old + length (written value.now) }
    ensures capacity { vec_capacity out.old ≤ vec_capacity out.new }
{
    put_measured_value(out, value, contents_len(value));
}

/// Writes the value of this many octets of contents at the end, if the vector has capacity for it.
#[tactic(auto, unfolding(crate::specs::Writing::written, crate::specs::Writing::element))]
pub fn put_measured_value(out: &mut Vec<u8>, value: &Value, len: usize)
    requires measured { len ≡ length (contents_of value.now) }
    requires fits { HasLength value.now }
    requires room { vec_len out.old + length (written value.now) ≤ vec_capacity out.old }
    ensures items { out.new.items ≡ out.old.items ++ written value.now }
    ensures len { vec_len out.new ≡ vec_len out.old + length (written value.now) }
    ensures capacity { vec_capacity out.old ≤ vec_capacity out.new }
{
    put_header(out, Tag::of(value).octet(), len);
    put_contents(out, value);
}

/// The shortest spelling of the value, in one allocation.
/// A length that needs more than 4 octets is `BadLength`.
pub fn write_value(alloc: Global, value: &Value) -> Result<Vec<u8>, BerFault>
    ensures ok { IfOk result (λ v. HasLength value.now × (v.items ≡ written value.now)) }
    ensures err { IfErr result (λ e. (e ≡ OutOfMemory) ⊎ ((e ≡ BadLength)
        × (2 ^ 32 ≤ length (contents_of value.now)))) }
{
    let mut out = Vec::with_capacity(alloc, size_of(value)?)?;
    put_value(&mut out, value);
    Ok(out)
}
