//! The fields of a line.

ghost use Rattle.std.specs.Prelude.{◌≡◌, ◌==◌, IfOk, option_map, position};
ghost use Rattle.std.specs.Str.{bytes_eq};
ghost use Rattle.mon_rehearsal.specs.Fields.{cut, number_in, numbers_in, octets_in, some_octets};

use hex::FromHexError;
use itoa::Buffer;
use mon_ber::Octets;
use std::alloc::{AllocError, Global};

/// Returns what precedes the first octet of this value, and what follows it.
pub(crate) fn cut(text: &[u8], mark: u8) -> Option<(&[u8], &[u8])>
    ensures { option_map (λ parts. (parts.0.now, parts.1.now)) result ≡ cut mark text.now }
{
    match place_of(text, mark) {
        Some(place) => Some((&text[..place], &text[place + 1..])),
        None => None,
    }
}

/// Returns the place of the first octet of this value.
fn place_of(text: &[u8], mark: u8) -> Option<usize>
    ensures { result ≡ position (λ octet. octet == mark) text.now }
{
    text.iter().position(|octet| *octet == mark)
}

/// Returns `true` if a field is this word.
pub(crate) fn is(field: &[u8], word: &str) -> bool
    ensures { result ≡ bytes_eq field.now word.now }
{
    field == word.as_bytes()
}

/// The number that a text spells in decimal, without a leading 0.
pub(crate) fn number(text: &[u8]) -> Option<u32>
    ensures { result ≡ number_in text.now }
{
    match std::str::from_utf8(text) {
        Ok(text) => decimal(text),
        Err(_) => None,
    }
}

/// Returns the number that a field spells as a text.
fn decimal(text: &str) -> Option<u32>
    ensures { result ≡ number_in text.now }
{
    let Ok(number) = text.parse::<u32>() else {
        return None;
    };
    if Buffer::new().format(number) == text {
        Some(number)
    } else {
        None
    }
}

/// Two numbers with a blank between them.
#[tactic(auto, unfolding(crate::specs::Fields::numbers_in))]
pub(crate) fn numbers(text: &[u8]) -> Option<(u32, u32)>
    ensures { result ≡ numbers_in text.now }
{
    let Some((first, second)) = cut(text, b' ') else {
        return None;
    };
    let Some(first) = number(first) else {
        return None;
    };
    let Some(second) = number(second) else {
        return None;
    };
    Some((first, second))
}

/// The octets that hex digits in either case spell: at least one.
pub(crate) fn octets(alloc: Global, text: &[u8]) -> Result<Option<Octets>, AllocError>
    ensures { IfOk result (λ octets. octets ≡ octets_in text.now) }
{
    match hex::decode(alloc, text) {
        Ok(octets) => Ok(some_octets(octets)),
        Err(FromHexError::OutOfMemory) => Err(AllocError),
        Err(_) => Ok(None),
    }
}

/// The octets, where there are any.
fn some_octets(octets: Vec<u8>) -> Option<Octets>
    ensures { result ≡ some_octets octets.items }
{
    if octets.is_empty() {
        None
    } else {
        Some(Octets::new(octets))
    }
}
