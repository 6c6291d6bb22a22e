//! Reading fields from left to right. Each call returns what it read, or the first fault from the
//! left.

ghost use Rattle.std.specs.Prelude.{◌≡◌, ◌≢◌, ◌≤◌, ◌<◌, ◌↔◌, IfOk, IsTrue, length};
ghost use Rattle.mon_fields.specs.Reading.{AreOctets, Gives, octet_at, field_at, u32_at, sample_of, rises, samples_at};

use crate::fault::LayoutFault;
use crate::list::SampleList;
use mon_sample::Sample;
use std::alloc::Global;
use std::marker::Model;

/// The octets of a sample's record.
const RECORD: usize = 21;

/// Reads octets from left to right. Contracts see what is left of them.
#[derive(Drop)]
pub struct Reader<'a> {
    rest: &'a [u8],
}

impl<'a> Model for Reader<'a> {
    ghost use Rattle.std.specs.Prelude.{List, ℕ};
    ghost use Rattle.mon_fields.specs.Reading.{AreOctets};

    ghost Value = { List ℕ };

    ghost view = { λ r. r.rest.now };

    ghost invariant = { λ r. AreOctets r.rest.now };
}

impl<'a> Reader<'a> {
    /// Returns a reader of these octets.
    pub fn new(octets: &'a [u8]) -> Self
        ensures { result ≡ octets.now }
    {
        Reader { rest: octets }
    }

    /// Returns `true` if nothing is left.
    pub fn is_empty(&self) -> bool
        ensures { IsTrue result ↔ (length self.now ≡ 0) }
    {
        self.rest.is_empty()
    }

    /// Reads one octet. `Truncated` if there is none.
    #[tactic(auto, unfolding(crate::specs::Reading::octet_at))]
    pub fn octet(&mut self) -> Result<u8, LayoutFault>
        ensures octets { AreOctets self.old }
        ensures gives { Gives (λ x. (x, self.new)) result (octet_at self.old) }
        ensures no_memory { result ≢ Err LayoutFault.OutOfMemory }
    {
        let [octet, rest @ ..] = self.rest else {
            return Err(LayoutFault::Truncated);
        };
        self.rest = rest;
        Ok(*octet)
    }

    /// Reads the next `len` octets. `Truncated` if there are fewer.
    #[tactic(auto, unfolding(crate::specs::Reading::field_at))]
    pub fn take(&mut self, len: usize) -> Result<&'a [u8], LayoutFault>
        ensures gives { Gives (λ x. (x.now, self.new)) result (field_at len self.old) }
        ensures len { IfOk result (λ x. length x.now ≡ len) }
        ensures no_memory { result ≢ Err LayoutFault.OutOfMemory }
    {
        if self.rest.len() < len {
            return Err(LayoutFault::Truncated);
        }
        let (field, rest) = self.rest.split_at(len);
        self.rest = rest;
        Ok(field)
    }

    /// Reads a number of four octets, big-endian. `Truncated` if there are fewer.
    #[tactic(auto, unfolding(crate::specs::Reading::u32_at))]
    pub fn number(&mut self) -> Result<u32, LayoutFault>
        ensures gives { Gives (λ x. (x, self.new)) result (u32_at self.old) }
        ensures no_memory { result ≢ Err LayoutFault.OutOfMemory }
    {
        let mut number = [0; 4];
        number.copy_from_slice(self.take(4)?);
        Ok(u32::from_be_bytes(number))
    }

    /// Reads `count` rising samples, a record each. Of each sample, one after another: `Truncated`
    /// if its record is cut short, `BadSample` if the record is no sample's, `NotRising` if it does
    /// not exceed the sample before. The capacity is allocated once, before the first sample is
    /// read; `OutOfMemory` if that is refused.
    #[tactic(auto, unfolding(crate::specs::Reading::samples_at))]
    pub fn samples(&mut self, alloc: Global, count: u8) -> Result<SampleList, LayoutFault>
        ensures { Gives (λ x. (x, self.new)) result (samples_at count self.old) }
    {
        let count = usize::from(count);
        let mut samples = Vec::with_capacity(alloc, count)?;
        let mut last = None;
        while samples.len() < count {
            let record = self.take(RECORD)?;
            let sample = sample_of(record)?;
            if !rises(last, &sample) {
                return Err(LayoutFault::NotRising);
            }
            samples.push(sample)?;
            last = Some(sample);
        }
        Ok(SampleList::new(samples))
    }
}

/// Returns the sample of a record of 21 octets. `BadSample` if it is no sample's.
#[tactic(auto, unfolding(crate::specs::Reading::sample_of))]
fn sample_of(octets: &[u8]) -> Result<Sample, LayoutFault>
    requires { length octets.now ≡ 21 }
    ensures gives { Gives (λ s. s) result (sample_of octets.now) }
    ensures no_memory { result ≢ Err LayoutFault.OutOfMemory }
{
    let mut record = [0; RECORD];
    record.copy_from_slice(octets);
    match Sample::from_record(&record) {
        Ok(sample) => Ok(sample),
        Err(_) => Err(LayoutFault::BadSample),
    }
}

/// Returns `true` if a sample exceeds the one before it, if there is one.
fn rises(last: Option<Sample>, sample: &Sample) -> bool
    ensures { result ≡ rises last sample.now }
{
    match last {
        Some(last) => last.compare(sample).is_lt(),
        None => true,
    }
}
