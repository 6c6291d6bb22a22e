//! Elements of BER: a tag, a length and contents (X.690 8.1).
//! Each reader returns what it read and what follows it, or the first fault from the left.

ghost use Rattle.std.specs.Prelude.{◌≡◌, ◌≢◌, ◌≤◌, ◌<◌, length, IfOk};
ghost use Rattle.mon_ber.specs.Numbers.{big_endian};
ghost use Rattle.mon_ber.specs.Reading.{Gives, length_at, contents_at, element_at, tag_at};

use crate::fault::BerFault;
use crate::number::big_endian;
use crate::tag::Tag;

/// A length, and what follows it: one octet up to 0x7f, or 0x81 to 0x84 and this many octets,
/// leading zeros allowed; `BadLength` for another first octet (X.690 8.1.3).
#[tactic(auto, using(crate::proofs::Numbers::power_of_four), unfolding(crate::specs::Reading::length_at))]
fn length_at(octets: &[u8]) -> Result<(usize, &[u8]), BerFault>
    ensures gives { Gives (λ x. (x.0, x.1.now)) result (length_at octets.now) }
    ensures shorter { IfOk result (λ x. length x.1.now < length octets.now) }
    ensures no_memory { result ≢ Err BerFault.OutOfMemory }
{
    let [first, rest @ ..] = octets else {
        return Err(BerFault::Truncated);
    };
    if *first < 0x80 {
        return Ok((usize::from(*first), rest));
    }
    if *first == 0x80 || *first > 0x84 {
        return Err(BerFault::BadLength);
    }
    let count = usize::from(*first - 0x80);
    if rest.len() < count {
        return Err(BerFault::Truncated);
    }
    let (digits, rest) = rest.split_at(count);
    Ok((big_endian(digits) as usize, rest))
}

/// After a tag: the contents, and what follows the element. `BadLength` for a length of another
/// form, `Truncated` where the octets end first.
#[tactic(auto, unfolding(crate::specs::Reading::contents_at))]
pub fn contents_at(octets: &[u8]) -> Result<(&[u8], &[u8]), BerFault>
    ensures gives { Gives (λ x. (x.0.now, x.1.now)) result (contents_at octets.now) }
    ensures shorter { IfOk result (λ x. length x.1.now < length octets.now) }
    ensures no_memory { result ≢ Err BerFault.OutOfMemory }
{
    let (len, rest) = length_at(octets)?;
    if rest.len() < len {
        return Err(BerFault::Truncated);
    }
    Ok(rest.split_at(len))
}

/// An element with this tag: its contents, and what follows it. `BadTag` for another tag, which
/// is tested before the length.
#[tactic(auto, unfolding(crate::specs::Reading::element_at))]
pub fn element_at(tag: u8, octets: &[u8]) -> Result<(&[u8], &[u8]), BerFault>
    ensures gives { Gives (λ x. (x.0.now, x.1.now)) result (element_at tag octets.now) }
    ensures shorter { IfOk result (λ x. length x.1.now < length octets.now) }
    ensures no_memory { result ≢ Err BerFault.OutOfMemory }
{
    let [first, rest @ ..] = octets else {
        return Err(BerFault::Truncated);
    };
    if *first != tag {
        return Err(BerFault::BadTag);
    }
    contents_at(rest)
}

/// Reads the tag of a value. `Truncated` if there is no octet, `BadTag` if it is no tag of a value.
#[tactic(auto, unfolding(crate::specs::Reading::tag_at))]
pub fn tag_at(octets: &[u8]) -> Result<(Tag, &[u8]), BerFault>
    ensures gives { Gives (λ x. (x.0, x.1.now)) result (tag_at octets.now) }
    ensures shorter { IfOk result (λ x. length x.1.now < length octets.now) }
    ensures no_memory { result ≢ Err BerFault.OutOfMemory }
{
    let [first, rest @ ..] = octets else {
        return Err(BerFault::Truncated);
    };
    match Tag::from_octet(*first) {
        Some(tag) => Ok((tag, rest)),
        None => Err(BerFault::BadTag),
    }
}
