//! The values of variables.

ghost use Rattle.std.specs.Prelude.{◌≡◌, IfOk, IsOk};
ghost use Rattle.mon_ber.specs.Memory.{IsInline};

use crate::octets::Octets;
use mon_oid::Oid;
use std::alloc::{AllocError, Global};

/// A value of a variable, or the exception in its place (RFC 3416 section 3).
#[derive(Debug, PartialEq, Eq)]
pub enum Value {
    /// INTEGER, -2147483648 to 2147483647.
    Integer(i32),
    /// OCTET STRING.
    Octets(Octets),
    /// NULL, the value of a request's binding.
    Null,
    /// OBJECT IDENTIFIER.
    Name(Oid),
    /// The 4 octets of an IPv4 address.
    IpAddress([u8; 4]),
    /// A counter that wraps at 2^32.
    Counter32(u32),
    /// A level from 0 to 4294967295, also as Unsigned32.
    Gauge32(u32),
    /// Hundredths of a second since some epoch, modulo 2^32.
    TimeTicks(u32),
    /// Octets of another encoding.
    Opaque(Octets),
    /// A counter that wraps at 2^64.
    Counter64(u64),
    /// There is no such object.
    NoSuchObject,
    /// The object has no such instance.
    NoSuchInstance,
    /// No variable follows in the view.
    EndOfMibView,
}

// By hand: where one is let go, a proof has one call and not a drop of each field.
impl Drop for Value {
    #[inline(always)]
    fn drop(self) {
        match self {
            Value::Integer(_)
            | Value::Octets(_)
            | Value::Null
            | Value::Name(_)
            | Value::IpAddress(_)
            | Value::Counter32(_)
            | Value::Gauge32(_)
            | Value::TimeTicks(_)
            | Value::Opaque(_)
            | Value::Counter64(_)
            | Value::NoSuchObject
            | Value::NoSuchInstance
            | Value::EndOfMibView => {}
        }
    }
}

impl Value {
    /// An equal value. Only octets and identifiers of more than 16 sub-identifiers take heap
    /// memory.
    pub fn try_clone(&self, alloc: Global) -> Result<Self, AllocError>
        ensures equal { IfOk result (λ v. v ≡ self.now) }
        ensures inline { IsInline self.now → IsOk result }
    {
        Ok(match self {
            Value::Integer(number) => Value::Integer(*number),
            Value::Octets(octets) => Value::Octets(octets.try_clone(alloc)?),
            Value::Null => Value::Null,
            Value::Name(name) => Value::Name(name.try_clone(alloc)?),
            Value::IpAddress(address) => Value::IpAddress(*address),
            Value::Counter32(number) => Value::Counter32(*number),
            Value::Gauge32(number) => Value::Gauge32(*number),
            Value::TimeTicks(number) => Value::TimeTicks(*number),
            Value::Opaque(octets) => Value::Opaque(octets.try_clone(alloc)?),
            Value::Counter64(number) => Value::Counter64(*number),
            Value::NoSuchObject => Value::NoSuchObject,
            Value::NoSuchInstance => Value::NoSuchInstance,
            Value::EndOfMibView => Value::EndOfMibView,
        })
    }
}
