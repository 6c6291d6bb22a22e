//! Reading the values of object identifiers.

ghost use Rattle.std.specs.Prelude.{◌≡◌, ◌≤◌, ◌-◌, length, drop, IfOk};
ghost use Rattle.std.specs.Option.{option_map};
ghost use Rattle.mon_smi.specs.Reading.{Gives, name_at, number_of, sub_at, in_parens_at, component_at, parent_at, enough, numbers_at, value_at};

use crate::kind::TokenKind;
use crate::lexeme::Lexeme;
use crate::read_fault::ReadFault;
use crate::rules::{begins, last, punctuation_at};
use std::alloc::Global;

/// A word, and what follows it.
pub(crate) fn name_at<'a, 's>(ls: &'a [Lexeme<'s>]) -> Option<(&'a str, &'a [Lexeme<'s>])>
    ensures { option_map (λ x. (x.0.now, x.1.now)) result ≡ name_at ls.now }
{
    let [first, rest @ ..] = ls else {
        return None;
    };
    match first.word() {
        Some(word) => Some((word, rest)),
        None => None,
    }
}

/// The number that decimal digits spell, below 2^32; leading zeros count for nothing.
fn number_of(digits: &[u8]) -> Option<u32>
    ensures { result ≡ number_of digits.now }
{
    if digits.is_empty() {
        return None;
    }
    let mut number: u64 = 0;
    let mut rest = digits;
    while let [byte, after @ ..] = rest {
        if !byte.is_ascii_digit() {
            return None;
        }
        number = 10 * number + u64::from(*byte - b'0');
        if number > 0xffff_ffff {
            return None;
        }
        rest = after;
    }
    Some(number as u32)
}

/// A sub-identifier, and what follows it.
#[tactic(auto, unfolding(crate::specs::Reading::sub_at))]
fn sub_at<'a, 's>(ls: &'a [Lexeme<'s>]) -> Result<(u32, &'a [Lexeme<'s>]), ReadFault<'a, 's>>
    ensures { Gives (λ x. (x.0, x.1.now)) result (sub_at ls.now) }
{
    let [first, rest @ ..] = ls else {
        return Err(ReadFault::BrokenOff(ls));
    };
    let Some(digits) = first.digits() else {
        return Err(ReadFault::BrokenOff(ls));
    };
    match number_of(digits.as_bytes()) {
        Some(number) => Ok((number, rest)),
        None => Err(ReadFault::BrokenOff(ls)),
    }
}

/// A sub-identifier in parentheses.
#[tactic(auto, unfolding(crate::specs::Reading::in_parens_at))]
fn in_parens_at<'a, 's>(ls: &'a [Lexeme<'s>]) -> Result<(u32, &'a [Lexeme<'s>]), ReadFault<'a, 's>>
    ensures { Gives (λ x. (x.0, x.1.now)) result (in_parens_at ls.now) }
{
    let rest = punctuation_at(TokenKind::LeftParen, ls)?;
    let (number, rest) = sub_at(rest)?;
    let rest = punctuation_at(TokenKind::RightParen, rest)?;
    Ok((number, rest))
}

/// A sub-identifier, or a word with one in parentheses.
#[tactic(auto, unfolding(crate::specs::Reading::component_at))]
fn component_at<'a, 's>(ls: &'a [Lexeme<'s>]) -> Result<(u32, &'a [Lexeme<'s>]), ReadFault<'a, 's>>
    ensures { Gives (λ x. (x.0, x.1.now)) result (component_at ls.now) }
{
    match name_at(ls) {
        Some((_, rest)) => in_parens_at(rest),
        None => sub_at(ls),
    }
}

/// The word that an identifier begins with, and what follows it.
fn parent_at<'a, 's>(ls: &'a [Lexeme<'s>]) -> (Option<&'a str>, &'a [Lexeme<'s>])
    ensures { (option_map (λ w. w.now) result.0, result.1.now) ≡ parent_at ls.now }
{
    match name_at(ls) {
        Some((word, rest)) => {
            if begins(TokenKind::LeftParen, rest) {
                return (None, ls);
            }
            (Some(word), rest)
        }
        None => (None, ls),
    }
}

/// Sub-identifiers up to the closing brace, and how many tokens are left there.
fn numbers_at<'a, 's>(
    alloc: Global,
    ls: &'a [Lexeme<'s>],
) -> Result<(Vec<u32>, usize), ReadFault<'a, 's>>
    ensures gives { Gives (λ x. (x.0.items, drop (length ls.now - x.1) ls.now)) result
        (numbers_at ls.now) }
    ensures within { IfOk result (λ x. x.1 ≤ length ls.now) }
{
    let mut numbers = Vec::new(alloc);
    let mut left = ls.len();
    while !begins(TokenKind::RightBrace, last(ls, left)) {
        let (number, rest) = component_at(last(ls, left))?;
        numbers.push(number)?;
        left = rest.len();
    }
    Ok((numbers, left))
}

/// Returns `true` if there are as many sub-identifiers as after this parent, or after none.
fn enough(parent: Option<&str>, numbers: &[u32]) -> bool
    ensures { result ≡ enough (option_map (λ w. w.now) parent.entry) numbers.now }
{
    match parent {
        Some(_) => 1 <= numbers.len(),
        None => 2 <= numbers.len(),
    }
}

/// The parent and the sub-identifiers of a value.
#[derive(Drop)]
pub(crate) struct Value<'a> {
    pub parent: Option<&'a str>,
    pub numbers: Vec<u32>,
}

/// The value of an object identifier (RFC 2578 section 3.1), and what follows it.
#[tactic(auto, unfolding(crate::specs::Reading::value_at))]
pub(crate) fn value_at<'a, 's>(
    alloc: Global,
    ls: &'a [Lexeme<'s>],
) -> Result<(Value<'a>, &'a [Lexeme<'s>]), ReadFault<'a, 's>>
    ensures { Gives (λ x. ((option_map (λ w. w.now) x.0.parent, x.0.numbers.items), x.1.now)) result
        (value_at ls.now) }
{
    let inner = punctuation_at(TokenKind::LeftBrace, ls)?;
    let (parent, behind) = parent_at(inner);
    let (numbers, left) = numbers_at(alloc, behind)?;
    let rest = last(behind, left);
    if !enough(parent, numbers.as_slice()) {
        return Err(ReadFault::BrokenOff(rest));
    }
    let rest = punctuation_at(TokenKind::RightBrace, rest)?;
    Ok((Value { parent, numbers }, rest))
}
