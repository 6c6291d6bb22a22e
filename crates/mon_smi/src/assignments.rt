//! Reading assignments.

ghost use Rattle.std.specs.Prelude.{◌≡◌};
ghost use Rattle.mon_smi.specs.Reading.{Gives, is_macro, one, up_to, identifier_at, object_at, macro_at, head_at, definition_at, is_convention, textual_at, type_body_at, assignment_of, assignment_at};

use crate::definition::Definition;
use crate::kind::TokenKind;
use crate::lexeme::{Lexeme, begins_capital, begins_small};
use crate::numbers::Numbers;
use crate::read_fault::ReadFault;
use crate::rules::{
    begins, begins_word, convention_at, object_type_at, punctuation_at, type_at, word_at,
};
use crate::values::value_at;
use crate::word::Word;
use std::alloc::Global;

/// Returns `true` if the word is a macro whose clauses are passed over.
fn is_macro(l: &Lexeme) -> bool
    ensures { result ≡ is_macro l.now }
{
    l.is_word("MODULE-IDENTITY")
        || l.is_word("OBJECT-IDENTITY")
        || l.is_word("NOTIFICATION-TYPE")
        || l.is_word("OBJECT-GROUP")
        || l.is_word("NOTIFICATION-GROUP")
        || l.is_word("MODULE-COMPLIANCE")
        || l.is_word("AGENT-CAPABILITIES")
}

/// A macro's name.
fn macro_name_at<'a, 's>(ls: &'a [Lexeme<'s>]) -> Result<&'a [Lexeme<'s>], ReadFault<'a, 's>>
    ensures { Gives (λ rest. rest.now) result (one is_macro ls.now) }
{
    let [first, rest @ ..] = ls else {
        return Err(ReadFault::BrokenOff(ls));
    };
    if is_macro(first) {
        return Ok(rest);
    }
    Err(ReadFault::BrokenOff(ls))
}

/// The first such punctuation, and what follows it.
pub(crate) fn up_to<'a, 's>(
    kind: TokenKind,
    ls: &'a [Lexeme<'s>],
) -> Result<&'a [Lexeme<'s>], ReadFault<'a, 's>>
    ensures { Gives (λ rest. rest.now) result (up_to kind ls.now) }
{
    let mut rest = ls;
    while let [first, after @ ..] = rest {
        if first.is_punctuation(kind) {
            return Ok(rest);
        }
        rest = after;
    }
    Err(ReadFault::BrokenOff(rest))
}

/// Reads the keywords before an identifier's value.
#[tactic(auto, unfolding(crate::specs::Reading::identifier_at))]
fn identifier_at<'a, 's>(ls: &'a [Lexeme<'s>]) -> Result<&'a [Lexeme<'s>], ReadFault<'a, 's>>
    ensures { Gives (λ rest. rest.now) result (identifier_at ls.now) }
{
    let rest = word_at("OBJECT", ls)?;
    word_at("IDENTIFIER", rest)
}

/// An OBJECT-TYPE.
#[tactic(auto, unfolding(crate::specs::Reading::object_at))]
fn object_at<'a, 's>(ls: &'a [Lexeme<'s>]) -> Result<&'a [Lexeme<'s>], ReadFault<'a, 's>>
    ensures { Gives (λ rest. rest.now) result (object_at ls.now) }
{
    let rest = word_at("OBJECT-TYPE", ls)?;
    object_type_at(rest)
}

/// Another macro, up to its value.
#[tactic(auto, unfolding(crate::specs::Reading::macro_at))]
fn macro_at<'a, 's>(ls: &'a [Lexeme<'s>]) -> Result<&'a [Lexeme<'s>], ReadFault<'a, 's>>
    ensures { Gives (λ rest. rest.now) result (macro_at ls.now) }
{
    let rest = macro_name_at(ls)?;
    up_to(TokenKind::Assign, rest)
}

/// Reads what comes between a value's name and its assignment punctuation.
#[tactic(auto, unfolding(crate::specs::Reading::head_at))]
fn head_at<'a, 's>(ls: &'a [Lexeme<'s>]) -> Result<&'a [Lexeme<'s>], ReadFault<'a, 's>>
    ensures { Gives (λ rest. rest.now) result (head_at ls.now) }
{
    if begins_word("OBJECT", ls) {
        return identifier_at(ls);
    }
    if begins_word("OBJECT-TYPE", ls) {
        return object_at(ls);
    }
    macro_at(ls)
}

/// A value's assignment, after its name.
#[tactic(auto, unfolding(crate::specs::Reading::definition_at))]
fn definition_at<'a, 's>(
    alloc: Global,
    name: &str,
    ls: &'a [Lexeme<'s>],
) -> Result<(Definition, &'a [Lexeme<'s>]), ReadFault<'a, 's>>
    ensures { Gives (λ x. (x.0, x.1.now)) result (definition_at name.now ls.now) }
{
    let rest = head_at(ls)?;
    let rest = punctuation_at(TokenKind::Assign, rest)?;
    let (value, rest) = value_at(alloc, rest)?;
    let name = Word::from_str(alloc, name)?;
    let parent = match value.parent {
        Some(parent) => Some(Word::from_str(alloc, parent)?),
        None => None,
    };
    let numbers = Numbers::new(value.numbers);
    let definition = Definition {
        name,
        parent,
        numbers,
    };
    Ok((definition, rest))
}

/// Returns `true` if the clauses of a textual convention come next.
fn is_convention(ls: &[Lexeme]) -> bool
    ensures { result ≡ is_convention ls.now }
{
    let [first, second, rest @ ..] = ls else {
        return false;
    };
    first.is_word("TEXTUAL-CONVENTION")
        && (second.is_word("DISPLAY-HINT") || second.is_word("STATUS"))
        && !begins(TokenKind::Assign, rest)
}

/// A textual convention.
#[tactic(auto, unfolding(crate::specs::Reading::textual_at))]
fn textual_at<'a, 's>(ls: &'a [Lexeme<'s>]) -> Result<&'a [Lexeme<'s>], ReadFault<'a, 's>>
    ensures { Gives (λ rest. rest.now) result (textual_at ls.now) }
{
    let rest = word_at("TEXTUAL-CONVENTION", ls)?;
    convention_at(rest)
}

/// A type's assignment, after its name.
#[tactic(auto, unfolding(crate::specs::Reading::type_body_at))]
fn type_body_at<'a, 's>(ls: &'a [Lexeme<'s>]) -> Result<&'a [Lexeme<'s>], ReadFault<'a, 's>>
    ensures { Gives (λ rest. rest.now) result (type_body_at ls.now) }
{
    let rest = punctuation_at(TokenKind::Assign, ls)?;
    if is_convention(rest) {
        return textual_at(rest);
    }
    type_at(rest)
}

/// An assignment of this name, with which the whole begins: a value's, or a type's, which is passed
/// over.
#[tactic(auto, unfolding(crate::specs::Reading::assignment_of))]
fn assignment_of<'a, 's>(
    alloc: Global,
    name: &str,
    whole: &'a [Lexeme<'s>],
    ls: &'a [Lexeme<'s>],
) -> Result<(Option<Definition>, &'a [Lexeme<'s>]), ReadFault<'a, 's>>
    ensures { Gives (λ x. (x.0, x.1.now)) result (assignment_of name.now whole.now ls.now) }
{
    if begins_small(name) {
        let (definition, rest) = definition_at(alloc, name, ls)?;
        return Ok((Some(definition), rest));
    }
    if begins_capital(name) {
        let rest = type_body_at(ls)?;
        return Ok((None, rest));
    }
    Err(ReadFault::BrokenOff(whole))
}

/// An assignment, and what follows it.
#[tactic(auto, unfolding(crate::specs::Reading::assignment_at))]
pub(crate) fn assignment_at<'a, 's>(
    alloc: Global,
    ls: &'a [Lexeme<'s>],
) -> Result<(Option<Definition>, &'a [Lexeme<'s>]), ReadFault<'a, 's>>
    ensures { Gives (λ x. (x.0, x.1.now)) result (assignment_at ls.now) }
{
    let [first, rest @ ..] = ls else {
        return Err(ReadFault::BrokenOff(ls));
    };
    let Some(name) = first.word() else {
        return Err(ReadFault::BrokenOff(ls));
    };
    assignment_of(alloc, name, ls, rest)
}
