//! Values that are written as words, as on the command line.

ghost use Rattle.std.specs.Prelude.{◌≡◌, ◌≢◌, Err, IfOk, IfErr, IfSome, IfNone, slice_index, ◌==◌};
ghost use Rattle.std.specs.Net.Grammar.{IsDotted};
ghost use Rattle.mon_app.specs.declared.fault.AppFault.TheVariants as faults;
ghost use Rattle.mon_client.specs.Meaning.{IsFault, IsHex, IsInteger, IsDottedName, IsUnsigned, MeansValue, word_of};

use hex::FromHexError;
use mon_app::AppFault;
use mon_ber::{Octets, Value};
use mon_oid::{Oid, OidFault};
use std::alloc::Global;
use std::net::Ipv4Addr;

/// How a text is read as a value.
#[derive(Clone, Copy, PartialEq, Eq)]
pub enum ValueKind {
    /// A decimal number from -2147483648 to 2147483647.
    Integer,
    /// The text's own octets, as an OCTET STRING.
    String,
    /// Hex digits, as an OCTET STRING.
    Hex,
    /// An object identifier in decimal numbers with dots between them.
    Oid,
    /// An IPv4 address, a.b.c.d.
    Ip,
    /// A decimal number from 0 to 4294967295.
    Counter32,
    /// A decimal number from 0 to 4294967295.
    Gauge32,
    /// A decimal number from 0 to 4294967295, in hundredths of a second.
    TimeTicks,
    /// A decimal number from 0 to 18446744073709551615.
    Counter64,
}

impl ValueKind {
    /// Returns the kind that a word names, if it names one.
    pub fn from_word(word: &str) -> Option<ValueKind>
        ensures found { IfSome result (λ kind. word.now ≡ word_of kind) }
        ensures none { IfNone result ((kind : ValueKind) → word.now ≢ word_of kind) }
    {
        match word {
            "integer" => Some(ValueKind::Integer),
            "string" => Some(ValueKind::String),
            "hex" => Some(ValueKind::Hex),
            "oid" => Some(ValueKind::Oid),
            "ip" => Some(ValueKind::Ip),
            "counter32" => Some(ValueKind::Counter32),
            "gauge32" => Some(ValueKind::Gauge32),
            "timeticks" => Some(ValueKind::TimeTicks),
            "counter64" => Some(ValueKind::Counter64),
            _ => None,
        }
    }
}

/// Returns the value that a text means for a kind. A decimal number only has digits, leading zeros
/// allowed, and for an integer one `-` before them; `+5`, a blank and the empty text are none.
///
/// # Errors
/// `BadText` where the text means none, `OutOfMemory`.
pub fn value_of(alloc: Global, kind: ValueKind, text: &str) -> Result<Value, AppFault>
    ensures found { IfOk result (MeansValue kind text.now) }
    ensures fault { IfErr result (IsFault (MeansValue kind text.now)) }
{
    Ok(match kind {
        ValueKind::Integer => Value::Integer(integer(text)?),
        ValueKind::String => Value::Octets(Octets::from_slice(alloc, text.as_bytes())?),
        ValueKind::Hex => Value::Octets(octets(alloc, text)?),
        ValueKind::Oid => Value::Name(identifier(alloc, text)?),
        ValueKind::Ip => Value::IpAddress(address(text)?),
        ValueKind::Counter32 => Value::Counter32(number32(text)?),
        ValueKind::Gauge32 => Value::Gauge32(number32(text)?),
        ValueKind::TimeTicks => Value::TimeTicks(number32(text)?),
        ValueKind::Counter64 => Value::Counter64(number(text)?),
    })
}

/// Returns `true` if a plus is in front, which `parse` accepts and a decimal number here has not.
fn has_plus(text: &str) -> bool
    ensures { result ≡ (slice_index text.now 0 == 43) }
{
    text.starts_with('+')
}

/// The number of digits, with or without a minus before them.
fn integer(text: &str) -> Result<i32, AppFault>
    ensures found { IfOk result (IsInteger text.now) }
    ensures fault { IfErr result (IsFault (IsInteger text.now)) }
    ensures no_memory { result ≢ Err faults.OutOfMemory }
{
    if has_plus(text) {
        return Err(AppFault::BadText);
    }
    match text.parse::<i32>() {
        Ok(signed) => Ok(signed),
        Err(_) => Err(AppFault::BadText),
    }
}

/// The number of digits, in 64 bits.
fn number(text: &str) -> Result<u64, AppFault>
    ensures found { IfOk result (IsUnsigned 64 text.now) }
    ensures fault { IfErr result (IsFault (IsUnsigned 64 text.now)) }
    ensures no_memory { result ≢ Err faults.OutOfMemory }
{
    if has_plus(text) {
        return Err(AppFault::BadText);
    }
    match text.parse::<u64>() {
        Ok(number) => Ok(number),
        Err(_) => Err(AppFault::BadText),
    }
}

/// The number of digits, in 32 bits.
fn number32(text: &str) -> Result<u32, AppFault>
    ensures found { IfOk result (IsUnsigned 32 text.now) }
    ensures fault { IfErr result (IsFault (IsUnsigned 32 text.now)) }
    ensures no_memory { result ≢ Err faults.OutOfMemory }
{
    let number = number(text)?;
    match u32::try_from(number) {
        Ok(small) => Ok(small),
        Err(_) => Err(AppFault::BadText),
    }
}

/// The octets of hex digits.
fn octets(alloc: Global, text: &str) -> Result<Octets, AppFault>
    ensures found { IfOk result (IsHex text.now) }
    ensures fault { IfErr result (IsFault (IsHex text.now)) }
{
    match hex::decode(alloc, text) {
        Ok(octets) => Ok(Octets::new(octets)),
        Err(FromHexError::OutOfMemory) => Err(AppFault::OutOfMemory),
        Err(_) => Err(AppFault::BadText),
    }
}

/// The identifier of dotted numbers.
fn identifier(alloc: Global, text: &str) -> Result<Oid, AppFault>
    ensures found { IfOk result (IsDottedName text.now) }
    ensures fault { IfErr result (IsFault (IsDottedName text.now)) }
{
    match Oid::parse(alloc, text) {
        Ok(name) => Ok(name),
        Err(OidFault::OutOfMemory) => Err(AppFault::OutOfMemory),
        Err(_) => Err(AppFault::BadText),
    }
}

/// The four octets of an address.
fn address(text: &str) -> Result<[u8; 4], AppFault>
    ensures found { IfOk result (IsDotted text.now) }
    ensures fault { IfErr result (IsFault (IsDotted text.now)) }
    ensures no_memory { result ≢ Err faults.OutOfMemory }
{
    match text.parse::<Ipv4Addr>() {
        Ok(address) => Ok(address.octets()),
        Err(_) => Err(AppFault::BadText),
    }
}
