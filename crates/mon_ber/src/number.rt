//! Numbers, big-endian and in two's complement (X.690 8.3).

ghost use Rattle.std.specs.Prelude.{◌≡◌, ◌≢◌, ◌≤◌, ◌<◌, ◌^◌, length};
ghost use Rattle.mon_ber.specs.Numbers.{big_endian};
ghost use Rattle.mon_ber.specs.Reading.{Gives, number_of, integer_of, unsigned_of};

use crate::fault::BerFault;

/// The number of which these are the digits in base 256.
pub(crate) fn big_endian(octets: &[u8]) -> u128
    requires { length octets.now ≤ 9 }
    ensures value { result ≡ big_endian octets.now }
    ensures below { result < 256 ^ length octets.now }
{
    let mut number: u128 = 0;
    for octet in octets {
        number = number * 256 + u128::from(*octet);
    }
    number
}

/// A number of 1 to 9 octets in two's complement.
#[tactic(auto, using(crate::proofs::Numbers::power_of_nine), unfolding(crate::specs::Reading::number_of))]
fn number_of(contents: &[u8]) -> Result<i128, BerFault>
    ensures gives { Gives (λ z. z) result (number_of contents.now) }
    ensures no_memory { result ≢ Err BerFault.OutOfMemory }
{
    let [first, rest @ ..] = contents else {
        return Err(BerFault::BadLength);
    };
    if rest.is_empty() && *first < 0x80 {
        return Ok(i128::from(*first));
    }
    if rest.len() > 8 {
        return Err(BerFault::BadLength);
    }
    let number = big_endian(contents);
    if *first < 0x80 {
        return Ok(number as i128);
    }
    let limit = 256u128.pow(contents.len() as u32);
    Ok(-1 - (limit - 1 - number) as i128)
}

/// Reads an INTEGER of 32 bits. `BadLength` unless it has 1 to 9 octets, else `OutOfRange`.
#[tactic(auto, unfolding(crate::specs::Reading::integer_of))]
pub(crate) fn integer_of(contents: &[u8]) -> Result<i32, BerFault>
    ensures gives { Gives (λ z. z) result (integer_of contents.now) }
    ensures no_memory { result ≢ Err BerFault.OutOfMemory }
{
    i32::try_from(number_of(contents)?).map_err(|_| BerFault::OutOfRange)
}

/// Reads a number from 0 to 4294967295. `BadLength` unless it has 1 to 9 octets, else `OutOfRange`.
#[tactic(auto, unfolding(crate::specs::Reading::unsigned_of))]
pub(crate) fn u32_of(contents: &[u8]) -> Result<u32, BerFault>
    ensures gives { Gives (λ n. n) result (unsigned_of (2 ^ 32) contents.now) }
    ensures no_memory { result ≢ Err BerFault.OutOfMemory }
{
    u32::try_from(number_of(contents)?).map_err(|_| BerFault::OutOfRange)
}

/// Reads a number from 0 to 18446744073709551615. `BadLength` unless it has 1 to 9 octets, else
/// `OutOfRange`.
#[tactic(auto, unfolding(crate::specs::Reading::unsigned_of))]
pub(crate) fn u64_of(contents: &[u8]) -> Result<u64, BerFault>
    ensures gives { Gives (λ n. n) result (unsigned_of (2 ^ 64) contents.now) }
    ensures no_memory { result ≢ Err BerFault.OutOfMemory }
{
    u64::try_from(number_of(contents)?).map_err(|_| BerFault::OutOfRange)
}
