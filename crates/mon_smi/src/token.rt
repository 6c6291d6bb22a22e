//! Tokens, which are slices of the text that they were read from.

ghost use Rattle.std.specs.Prelude.{◌≡◌, ◌≤◌, ◌-◌, length, take, drop, IfSome, IfNone};
ghost use Rattle.std.specs.Str.{IsUtf8};

use crate::kind::TokenKind;

/// The bytes of a text from `start` up to, and without, `end`.
#[derive(Clone, Copy, Debug, PartialEq, Eq)]
pub struct Span {
    /// Where the first byte is.
    pub start: usize,
    /// Where the first byte after it is.
    pub end: usize,
}

impl Span {
    /// Returns the part of the text that it spans. `None` if the text ends before the span does, if
    /// the span ends before it starts, or if it cuts a character.
    pub fn slice(self, text: &str) -> Option<&str>
        ensures some { IfSome result (λ slice. slice.now ≡ take (self.end - self.start)
            (drop self.start text.now)) }
        ensures ordered { IfSome result (λ _. self.start ≤ self.end) }
        ensures within { IfSome result (λ _. self.end ≤ length text.now) }
        ensures none { IfNone result (self.start ≤ self.end → self.end ≤ length text.now
            → ¬ (IsUtf8 (take (self.end - self.start) (drop self.start text.now)))) }
    {
        let octets = text.as_bytes().get(self.start..self.end)?;
        str::from_utf8(octets).ok()
    }
}

/// A token of a text.
#[derive(Clone, Copy, Debug, PartialEq, Eq)]
pub struct Token {
    /// What it is.
    pub kind: TokenKind,
    /// Where it is.
    pub span: Span,
}

/// What is at a place of a text: a token, or with no kind a space or a comment.
#[derive(Clone, Copy)]
pub struct Piece {
    /// The kind of the token.
    pub kind: Option<TokenKind>,
    /// The number of bytes.
    pub len: usize,
}
