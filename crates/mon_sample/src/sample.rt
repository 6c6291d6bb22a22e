ghost use Rattle.std.specs.Prelude.{ℕ, ◌≡◌, ◌<◌, ◌+◌, ◌*◌, ◌^◌, ◌↔◌, IfOk, IsTrue};
ghost use Rattle.std.specs.Ordering.{nat_cmp};
ghost use Rattle.std.specs.Cmp.Lexicographic.{slice_cmp};
ghost use Rattle.mon_sample.specs.Kind.{holds, kind_tag, number_of};
ghost use Rattle.mon_sample.specs.Key.{key, boots_of, time_of, discontinuity_of, tag_of, kind_of, sample_value, IsSample, HasTag, HasStamp, HasValue};
ghost use Rattle.mon_sample.specs.Record.{octets_of, spelled, layout, boots_at, time_at, discontinuity_at, tag_at, value_at};

use crate::fault::SampleFault;
use crate::kind::Kind;
use std::cmp::Ordering;
use std::marker::Model;

/// One more than the greatest boots and time.
const STAMP_LIMIT: u32 = 1 << 31;

/// A value that an agent gave for an object, and when. Contracts see the number that its record's
/// octets spell, so the newer of two samples is the greater number.
#[derive(Clone, Copy, Debug, PartialEq, Eq)]
pub struct Sample {
    boots: u32,
    time: u32,
    discontinuity: u32,
    kind: Kind,
    value: u64,
}

impl Model for Sample {
    ghost use Rattle.std.specs.Prelude.{ℕ};
    ghost use Rattle.mon_sample.specs.Kind.{kind_tag};
    ghost use Rattle.mon_sample.specs.Key.{key, boots_of, time_of, discontinuity_of, kind_of, sample_value, AreFields};
    ghost use Rattle.mon_sample.specs.Digits.{fields_back};

    ghost Value = { ℕ };

    ghost view = { λ s. key s.boots s.time s.discontinuity (kind_tag s.kind) s.value };

    ghost invariant = { λ s. AreFields s.boots s.time s.discontinuity s.kind s.value };

    ghost inverse = { λ k. record {
      boots = boots_of k;
      time = time_of k;
      discontinuity =
          discontinuity_of k;
      kind = kind_of k;
      value = sample_value k;
    } };

    ghost inverse_ok = { λ a h. λ i. let e = fields_back a.boots a.time a.discontinuity a.kind
        a.value h in record {
          boots = e.boots_back i;
          time = e.time_back i;
          discontinuity =
              e.discontinuity_back i;
          kind = e.kind_is i;
          value = e.value_back i;
        } };
}

impl Sample {
    /// A sample of these fields. `boots` and `time` are the agent's snmpEngineBoots and
    /// snmpEngineTime, at most 2147483647 (RFC 3411 section 5); `discontinuity` is the value of the
    /// object's discontinuity indicator, 0 where it has none; `value` is the object's value modulo
    /// 2^64.
    pub fn new(boots: u32, time: u32, discontinuity: u32, kind: Kind, value: u64) -> Self
        requires boots { boots < 2 ^ 31 }
        requires time { time < 2 ^ 31 }
        requires value { IsTrue (holds kind value) }
        ensures { result ≡ key boots time discontinuity (kind_tag kind) value }
    {
        Sample {
            boots,
            time,
            discontinuity,
            kind,
            value,
        }
    }

    /// How often the agent had started (snmpEngineBoots, RFC 3411 section 5), 0 to 2147483647.
    pub fn boots(&self) -> u32
        ensures boots { result ≡ boots_of self.now }
        ensures small { boots_of self.now < 2 ^ 31 }
    {
        self.boots
    }

    /// Seconds since the agent's last start (snmpEngineTime, RFC 3411 section 5), 0 to 2147483647.
    pub fn time(&self) -> u32
        ensures time { result ≡ time_of self.now }
        ensures small { time_of self.now < 2 ^ 31 }
    {
        self.time
    }

    /// The value of the object's discontinuity indicator (RFC 2578 section 7.1.6), 0 where it has
    /// none.
    pub fn discontinuity(&self) -> u32
        ensures { result ≡ discontinuity_of self.now }
    {
        self.discontinuity
    }

    /// The type of the value.
    pub fn kind(&self) -> Kind
        ensures { result ≡ kind_of self.now }
    {
        self.kind
    }

    /// The value modulo 2^64, in the range of its kind.
    pub fn value(&self) -> u64
        ensures value { result ≡ sample_value self.now }
        ensures in_range { IsTrue (holds (kind_of self.now) (sample_value self.now)) }
    {
        self.value
    }

    /// The number that the value means: of an INTEGER it is signed.
    pub fn number(&self) -> i128
        ensures { result ≡ number_of (kind_of self.now) (sample_value self.now) }
    {
        self.kind.number(self.value)
    }

    /// Returns `true` if both are the same sample.
    #[inline(always)]
    pub fn is_same(&self, other: &Sample) -> bool
        ensures { IsTrue result ↔ (self.now ≡ other.now) }
    {
        if self.value != other.value || self.time != other.time {
            return false;
        }
        if self.boots != other.boots || self.discontinuity != other.discontinuity {
            return false;
        }
        self.kind == other.kind
    }

    /// The order of the two samples' records, octet by octet: the newer is the greater.
    pub fn compare(&self, other: &Sample) -> Ordering
        ensures number { result ≡ nat_cmp self.now other.now }
        ensures octets { result ≡ slice_cmp nat_cmp (octets_of self.now) (octets_of other.now) }
    {
        // Proof: the ranges of both samples' fields.
        let _ = &self.boots;
        let _ = &other.boots;
        let own = stamp(self.boots, self.time);
        let order = own.cmp(&stamp(other.boots, other.time));
        if order.is_ne() {
            return order;
        }
        order
            .then(self.discontinuity.cmp(&other.discontinuity))
            .then(self.kind.tag().cmp(&other.kind.tag()))
            .then(self.value.cmp(&other.value))
    }

    /// Returns the sample's record: boots 4 octets, time 4, discontinuity 4, tag 1, value 8, each
    /// big-endian.
    #[inline(always)]
    pub fn to_record(&self) -> [u8; 21]
        ensures octets { result ≡ octets_of self.now }
        ensures sample { IsSample self.now }
    {
        // Proof: the ranges of the fields.
        let _ = &self.boots;
        let tag = self.kind.tag();
        laid_out(self.boots, self.time, self.discontinuity, tag, self.value)
    }

    /// The sample of a record, or the first fault of its tag, stamp and value.
    pub fn from_record(octets: &[u8; 21]) -> Result<Sample, SampleFault>
        ensures sample { (result ≡ Ok (spelled octets.now)) ↔ IsSample (spelled octets.now) }
        ensures octets { IfOk result (λ s. octets.now ≡ octets_of s) }
        ensures only { (s : ℕ) → IsSample s → octets.now ≡ octets_of s → result ≡ Ok s }

        // The first fault that the octets have.
        ensures tag { (result ≡ Err SampleFault.BadTag) ↔ ¬ (HasTag (spelled octets.now)) }
        ensures stamp { (result ≡ Err SampleFault.BadStamp) ↔
            (HasTag (spelled octets.now) × ¬ (HasStamp (spelled octets.now))) }
        ensures value { (result ≡ Err SampleFault.BadValue)
            ↔ (HasTag (spelled octets.now) × HasStamp (spelled octets.now) × ¬ (HasValue (spelled octets.now))) }
    {
        let parts = digits_of(octets);
        let Some(kind) = Kind::from_tag(parts.tag) else {
            return Err(SampleFault::BadTag);
        };
        if parts.boots >= STAMP_LIMIT || parts.time >= STAMP_LIMIT {
            return Err(SampleFault::BadStamp);
        }
        if !kind.holds(parts.value) {
            return Err(SampleFault::BadValue);
        }
        Ok(Sample {
            boots: parts.boots,
            time: parts.time,
            discontinuity: parts.discontinuity,
            kind,
            value: parts.value,
        })
    }
}

/// Boots and time as one number, in the same order.
fn stamp(boots: u32, time: u32) -> u64
    ensures { result ≡ boots * 2 ^ 32 + time }
{
    (u64::from(boots) << 32) + u64::from(time)
}

/// The numbers in a record, whatever they are.
#[derive(Clone, Copy)]
struct Parts {
    boots: u32,
    time: u32,
    discontinuity: u32,
    tag: u8,
    value: u64,
}

/// The parts are the digits of the number that the octets spell.
fn digits_of(octets: &[u8; 21]) -> Parts
    ensures boots { result.boots ≡ boots_of (spelled octets.now) }
    ensures time { result.time ≡ time_of (spelled octets.now) }
    ensures discontinuity { result.discontinuity ≡ discontinuity_of (spelled octets.now) }
    ensures tag { result.tag ≡ tag_of (spelled octets.now) }
    ensures value { result.value ≡ sample_value (spelled octets.now) }
    ensures whole { key result.boots result.time result.discontinuity result.tag result.value
        ≡ spelled octets.now }
    ensures octets { octets.now ≡ octets_of (spelled octets.now) }
{
    parts_of(octets)
}

#[tactic(auto, unfolding(crate::specs::Record::layout))]
#[inline(always)]
fn laid_out(boots: u32, time: u32, discontinuity: u32, tag: u8, value: u64) -> [u8; 21]
    ensures { result ≡ layout boots time discontinuity tag value }
{
    let mut record = [0; 21];
    record[..4].copy_from_slice(&boots.to_be_bytes());
    record[4..8].copy_from_slice(&time.to_be_bytes());
    record[8..12].copy_from_slice(&discontinuity.to_be_bytes());
    record[12] = tag;
    record[13..].copy_from_slice(&value.to_be_bytes());
    record
}

#[tactic(auto, unfolding(crate::specs::Record::boots_at, crate::specs::Record::time_at, crate::specs::Record::discontinuity_at, crate::specs::Record::tag_at, crate::specs::Record::value_at))]
fn parts_of(octets: &[u8; 21]) -> Parts
    ensures boots { result.boots ≡ boots_at octets.now }
    ensures time { result.time ≡ time_at octets.now }
    ensures discontinuity { result.discontinuity ≡ discontinuity_at octets.now }
    ensures tag { result.tag ≡ tag_at octets.now }
    ensures value { result.value ≡ value_at octets.now }
    ensures boots_fit { result.boots < 2 ^ 32 }
    ensures time_fits { result.time < 2 ^ 32 }
    ensures discontinuity_fits { result.discontinuity < 2 ^ 32 }
    ensures tag_fits { result.tag < 2 ^ 8 }
    ensures value_fits { result.value < 2 ^ 64 }
{
    let [
        b0,
        b1,
        b2,
        b3,
        t0,
        t1,
        t2,
        t3,
        m0,
        m1,
        m2,
        m3,
        tag,
        v0,
        v1,
        v2,
        v3,
        v4,
        v5,
        v6,
        v7,
    ] = *octets;
    Parts {
        boots: u32::from_be_bytes([b0, b1, b2, b3]),
        time: u32::from_be_bytes([t0, t1, t2, t3]),
        discontinuity: u32::from_be_bytes([m0, m1, m2, m3]),
        tag,
        value: u64::from_be_bytes([v0, v1, v2, v3, v4, v5, v6, v7]),
    }
}
