//! Tokens with their texts.

ghost use Rattle.std.specs.Prelude.{◌≡◌, ◌≤◌, ◌-◌, length, take, drop, IfOk};
ghost use Rattle.std.specs.Str.{IsUtf8};
ghost use Rattle.std.specs.Option.{option_map};
ghost use Rattle.mon_smi.specs.Lexemes.{IsTokenOf, AreTokensOf, lexeme_at, lexemes, code_of, same_text, is_word, is_punctuation, word_of, digits_of, begins_small, begins_capital, is_any_word, is_capital};

use crate::kind::TokenKind;
use crate::scan::byte_at;
use crate::token::{Span, Token};
use std::alloc::{AllocError, Global};
use std::marker::Model;

/// A token of a text, with its text where it is a word or a number.
#[derive(Drop)]
pub(crate) struct Lexeme<'a> {
    kind: TokenKind,
    text: &'a str,
}

impl<'a> Model for Lexeme<'a> {
    ghost use Rattle.mon_smi.specs.Lexemes.{Lexeme, lexeme_of};

    ghost Value = { Lexeme };

    ghost view = { λ l. lexeme_of l.kind l.text.now };
}

/// The text of these bytes, which are UTF-8.
fn text_of(bytes: &[u8]) -> &str
    requires { IsUtf8 bytes.now }
    ensures { result.now ≡ bytes.now }
{
    match str::from_utf8(bytes) {
        Ok(text) => text,
        Err(_) => "",
    }
}

/// The bytes of a token.
fn slice_of(text: &[u8], span: Span) -> &[u8]
    requires begun { span.start ≤ span.end }
    requires within { span.end ≤ length text.now }
    ensures { result.now ≡ take (span.end - span.start) (drop span.start text.now) }
{
    &text[span.start..span.end]
}

/// A token with its text.
fn lexeme_at(text: &[u8], token: Token) -> Lexeme
    requires { IsTokenOf text.now token }
    ensures { result ≡ lexeme_at text.now token }
{
    let slice = slice_of(text, token.span);
    let text = match token.kind {
        TokenKind::Word => text_of(slice),
        TokenKind::Number => text_of(slice),
        _ => "",
    };
    Lexeme {
        kind: token.kind,
        text,
    }
}

/// These tokens with their texts.
pub(crate) fn lexemes<'a>(
    alloc: Global,
    text: &'a [u8],
    tokens: &[Token],
) -> Result<Vec<Lexeme<'a>>, AllocError>
    requires { AreTokensOf text.now tokens.now }
    ensures { IfOk result (λ v. v.items ≡ lexemes text.now tokens.now) }
{
    let mut lexemes = Vec::new(alloc);
    let mut rest = tokens;
    while let [token, after @ ..] = rest {
        lexemes.push(lexeme_at(text, *token))?;
        rest = after;
    }
    Ok(lexemes)
}

/// The number of a kind.
fn code_of(kind: TokenKind) -> u8
    ensures { result ≡ code_of kind }
{
    kind as u8
}

/// Returns `true` if the texts are the same.
fn same_text(text: &str, other: &str) -> bool
    ensures { result ≡ same_text text.now other.now }
{
    text == other
}

impl<'a> Lexeme<'a> {
    /// Returns `true` if it is this word.
    pub(crate) fn is_word(&self, text: &str) -> bool
        ensures { result ≡ is_word text.now self.now }
    {
        match self.kind {
            TokenKind::Word => same_text(self.text, text),
            _ => false,
        }
    }

    /// Returns `true` if it is a token of this kind, which is neither a word nor a number.
    pub(crate) fn is_punctuation(&self, kind: TokenKind) -> bool
        ensures { result ≡ is_punctuation kind self.now }
    {
        match self.kind {
            TokenKind::Word | TokenKind::Number => false,
            _ => code_of(self.kind) == code_of(kind),
        }
    }

    /// The text of a word.
    pub(crate) fn word(&self) -> Option<&str>
        ensures { option_map (λ w. w.now) result ≡ word_of self.now }
    {
        match self.kind {
            TokenKind::Word => Some(self.text),
            _ => None,
        }
    }

    /// The text of a number.
    pub(crate) fn digits(&self) -> Option<&str>
        ensures { option_map (λ d. d.now) result ≡ digits_of self.now }
    {
        match self.kind {
            TokenKind::Number => Some(self.text),
            _ => None,
        }
    }

    /// Returns `true` if it is a word.
    pub(crate) fn is_any_word(&self) -> bool
        ensures { result ≡ is_any_word self.now }
    {
        matches!(self.kind, TokenKind::Word)
    }

    /// Returns `true` if it is a word with a capital first letter.
    pub(crate) fn is_capital(&self) -> bool
        ensures { result ≡ is_capital self.now }
    {
        match self.kind {
            TokenKind::Word => begins_capital(self.text),
            _ => false,
        }
    }
}

/// Returns `true` if the first letter is small.
pub(crate) fn begins_small(word: &str) -> bool
    ensures { result ≡ begins_small word.now }
{
    byte_at(word.as_bytes(), 0).is_ascii_lowercase()
}

/// Returns `true` if the first letter is a capital.
pub(crate) fn begins_capital(word: &str) -> bool
    ensures { result ≡ begins_capital word.now }
{
    byte_at(word.as_bytes(), 0).is_ascii_uppercase()
}
