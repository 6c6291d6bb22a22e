//! When a response was made and whose it is (RFC 3411 section 5), and which values are samples.

ghost use Rattle.std.specs.Prelude.{◌≡◌, ◌<◌, ◌^◌, IfSome, IsTrue};
ghost use Rattle.std.specs.Option.{option_copied, option_map};
ghost use Rattle.mon_sample.specs.Kind.{holds};
ghost use Rattle.mon_poller.specs.Lent.{lent_stamp};
ghost use Rattle.mon_poller.specs.Stamp.{octets_in, stamp_number, stamp_of_values, sampled, discontinuity_in};
ghost use Rattle.mon_poller.specs.Verdict.{sampled_at};

use crate::lent::Stamp;
use mon_ber::{Octets, Value};
use mon_sample::{Kind, Sample};

/// snmpEngineID.0 (RFC 3411 section 5).
pub const ENGINE_ID: [u32; 11] = [1, 3, 6, 1, 6, 3, 10, 2, 1, 1, 0];

/// snmpEngineBoots.0.
pub const ENGINE_BOOTS: [u32; 11] = [1, 3, 6, 1, 6, 3, 10, 2, 1, 2, 0];

/// snmpEngineTime.0.
pub const ENGINE_TIME: [u32; 11] = [1, 3, 6, 1, 6, 3, 10, 2, 1, 3, 0];

impl<'a> Stamp<'a> {
    /// Returns the stamp that three values are: an OCTET STRING, and two INTEGERs that are not
    /// negative.
    pub fn of(engine: &'a Value, boots: &Value, time: &Value) -> Option<Self>
        ensures { option_map lent_stamp result ≡ stamp_of_values engine.now boots.now time.now }
    {
        Some(Stamp {
            engine: octets_in(engine)?,
            boots: stamp_number(boots)?,
            time: stamp_number(time)?,
        })
    }

    /// Returns the sample of a value with this discontinuity, if the value is of a sampled kind and
    /// the discontinuity is known.
    pub fn sample(&self, value: &Value, discontinuity: Option<u32>) -> Option<Sample>
        ensures { result ≡ sampled_at (lent_stamp self.now) value.now discontinuity }
    {
        let (kind, value) = read_sampled(value)?;
        let discontinuity = discontinuity?;
        Some(Sample::new(self.boots, self.time, discontinuity, kind, value))
    }
}

/// Returns the octets of an OCTET STRING.
pub(crate) fn octets_in(value: &Value) -> Option<&Octets>
    ensures { option_copied result ≡ octets_in value.now }
{
    match value {
        Value::Octets(octets) => Some(octets),
        _ => None,
    }
}

/// Returns the number of an INTEGER that is not negative, 0 to 2147483647.
pub(crate) fn stamp_number(value: &Value) -> Option<u32>
    ensures number { result ≡ stamp_number value.now }
    ensures small { IfSome result (λ n. n < 2 ^ 31) }
{
    match value {
        Value::Integer(number) => match u32::try_from(*number) {
            Ok(number) => Some(number),
            Err(_) => None,
        },
        _ => None,
    }
}

/// Returns the kind and the value modulo 2^64 of a value of a sampled kind.
fn read_sampled(value: &Value) -> Option<(Kind, u64)>
    ensures value { result ≡ sampled value.now }
    ensures holds { IfSome result (λ v. IsTrue (holds v.0 v.1)) }
{
    match value {
        Value::Integer(number) => Some((Kind::Integer, i64::from(*number).cast_unsigned())),
        Value::Counter32(number) => Some((Kind::Counter32, u64::from(*number))),
        Value::Gauge32(number) => Some((Kind::Gauge32, u64::from(*number))),
        Value::TimeTicks(number) => Some((Kind::TimeTicks, u64::from(*number))),
        Value::Counter64(number) => Some((Kind::Counter64, *number)),
        _ => None,
    }
}

/// Returns the value of a discontinuity indicator (RFC 2578 section 7.1.6): of a Counter32, a
/// Gauge32 or a TimeTicks.
pub(crate) fn discontinuity_in(value: &Value) -> Option<u32>
    ensures { result ≡ discontinuity_in value.now }
{
    match value {
        Value::Counter32(number) | Value::Gauge32(number) | Value::TimeTicks(number) => {
            Some(*number)
        }
        _ => None,
    }
}
