//! Writing fields within capacity that was allocated before, so that no writer can fail.

ghost use Rattle.std.specs.Prelude.{◌≡◌, ◌≤◌, ◌<◌, ◌+◌, ◌*◌, ◌^◌, ◌++◌, ◌∷◌, [], length, vec_len, vec_capacity};
ghost use Rattle.std.specs.Int.{w32, to_be_bytes};
ghost use Rattle.std.specs.List.{AllByRecursion};
ghost use Rattle.mon_oid.specs.Oid.{IsOid};
ghost use Rattle.mon_sample.specs.Key.{IsSample};
ghost use Rattle.mon_sample.specs.Record.{octets_of};
ghost use Rattle.mon_fields.specs.Layout.{numbers_octets, instance_octets, samples_octets};

use mon_oid::Oid;
use mon_sample::Sample;

/// The octets of a sample's record.
const RECORD: usize = 21;

/// The octets of a number.
const NUMBER: usize = 4;

/// Appends an octet.
pub fn put_octet(out: &mut Vec<u8>, octet: u8)
    requires room { vec_len out.old < vec_capacity out.old }
    ensures items { out.new.items ≡ out.old.items ++ octet ∷ [] }
    ensures len { vec_len out.new ≡ vec_len out.old + 1 }
    ensures capacity { vec_capacity out.old ≤ vec_capacity out.new }
{
    out.push(octet).unwrap();
}

/// Appends octets.
pub fn put_octets(out: &mut Vec<u8>, octets: &[u8])
    requires room { vec_len out.old + length octets.now ≤ vec_capacity out.old }
    ensures items { out.new.items ≡ out.old.items ++ octets.now }
    ensures len { vec_len out.new ≡ vec_len out.old + length octets.now }
    ensures capacity { vec_capacity out.old ≤ vec_capacity out.new }
{
    out.extend_from_slice(octets).unwrap();
}

/// Appends a number of four octets, the greatest first.
pub fn put_u32(out: &mut Vec<u8>, number: u32)
    requires room { vec_len out.old + 4 ≤ vec_capacity out.old }
    ensures items { out.new.items ≡ out.old.items ++ to_be_bytes w32 number }
    ensures len { vec_len out.new ≡ vec_len out.old + 4 }
    ensures capacity { vec_capacity out.old ≤ vec_capacity out.new }
{
    put_octets(out, &number.to_be_bytes());
}

/// Appends numbers, four octets each.
fn put_numbers(out: &mut Vec<u8>, numbers: &[u32])
    requires room { vec_len out.old + 4 * length numbers.now ≤ vec_capacity out.old }
    ensures items { out.new.items ≡ out.old.items ++ numbers_octets numbers.now }
    ensures len { vec_len out.new ≡ vec_len out.old + 4 * length numbers.now }
    ensures capacity { vec_capacity out.old ≤ vec_capacity out.new }
{
    let start = out.len();
    out.resize(start + NUMBER * numbers.len(), 0).unwrap();
    write_numbers(&mut out[start..], numbers);
}

/// Writes numbers, four octets each, over as many octets.
fn write_numbers(octets: &mut [u8], numbers: &[u32])
    requires { length octets.old ≡ 4 * length numbers.now }
    ensures { octets.new ≡ numbers_octets numbers.now }
{
    let mut at = 0;
    for number in numbers {
        octets[at..at + NUMBER].copy_from_slice(&number.to_be_bytes());
        at += NUMBER;
    }
}

/// How many octets an instance takes, at most 769: of the engine id's octets there are fewer than
/// 256.
pub fn instance_size(engine: &[u8], name: &Oid) -> usize
    requires { length engine.now < 256 }
    ensures size { result ≡ length (instance_octets engine.now name.now) }
    ensures few { result ≤ 769 }
    ensures oid { IsOid name.now }
{
    2 + engine.len() + 4 * name.parts().len()
}

/// Appends an instance: the engine id's length and octets, the count of the name's sub-identifiers
/// and these.
#[tactic(auto, unfolding(crate::specs::Layout::instance_octets))]
pub fn put_instance(out: &mut Vec<u8>, engine: &[u8], name: &Oid)
    requires engine { length engine.now < 256 }
    requires room { vec_len out.old + length (instance_octets engine.now name.now)
        ≤ vec_capacity out.old }
    ensures items { out.new.items ≡ out.old.items ++ instance_octets engine.now name.now }
    ensures len { vec_len out.new ≡ vec_len out.old + length (instance_octets engine.now name.now) }
    ensures capacity { vec_capacity out.old ≤ vec_capacity out.new }
    ensures oid { IsOid name.now }
{
    let parts = name.parts();
    put_octet(out, engine.len() as u8);
    put_octets(out, engine);
    put_octet(out, parts.len() as u8);
    put_numbers(out, parts);
}

/// How many octets these samples take, fewer than 256 of them: 21 each.
pub fn samples_size(samples: &[Sample]) -> usize
    requires { length samples.now < 256 }
    ensures { result ≡ length (samples_octets samples.now) }
{
    RECORD * samples.len()
}

/// Appends samples, a record of 21 octets each.
pub fn put_samples(out: &mut Vec<u8>, samples: &[Sample])
    requires room { vec_len out.old + length (samples_octets samples.now) ≤ vec_capacity out.old }
    ensures items { out.new.items ≡ out.old.items ++ samples_octets samples.now }
    ensures len { vec_len out.new ≡ vec_len out.old + length (samples_octets samples.now) }
    ensures capacity { vec_capacity out.old ≤ vec_capacity out.new }
    ensures samples { AllByRecursion IsSample samples.now }
{
    let start = out.len();
    out.resize(start + RECORD * samples.len(), 0).unwrap();
    write_records(&mut out[start..], samples);
}

/// Writes the records of samples over as many octets.
fn write_records(octets: &mut [u8], samples: &[Sample])
    requires { length octets.old ≡ 21 * length samples.now }
    ensures octets { octets.new ≡ samples_octets samples.now }
    ensures samples { AllByRecursion IsSample samples.now }
{
    let mut at = 0;
    for sample in samples {
        octets[at..at + RECORD].copy_from_slice(&sample.to_record());
        at += RECORD;
    }
}
