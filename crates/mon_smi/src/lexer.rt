//! Cutting a text into tokens.

ghost use Rattle.std.specs.Prelude.{◌≡◌, ◌<◌, ◌≤◌, ◌+◌, ◌^◌, ◌++◌, ℕ, List, length, IfOk, IfErr, OnOk, IsErr};
ghost use Rattle.mon_smi.specs.Tokens.{char_len, token_of, AreTokens, IsStuck, IsFaultAt, IsFaultOfTokens};
ghost use Rattle.mon_smi.specs.declared.text_fault.TextFault.TheVariants.{OutOfMemory};

use crate::pieces::piece_at;
use crate::scan::behind;
use crate::text_fault::TextFault;
use crate::token::{Piece, Span, Token};
use std::alloc::Global;

/// The number of bytes of the character at the front.
fn char_len(text: &[u8]) -> usize
    requires { 0 < length text.now }
    ensures within { result ≤ length text.now }
    ensures len { result ≡ char_len text.now }
{
    let mut len = 1;
    while len < text.len() && 0x80 <= text[len] && text[len] < 0xc0 {
        len += 1;
    }
    len
}

/// Returns why no piece is at this place.
fn fault_at(start: usize, rest: &[u8]) -> TextFault
    requires some { 0 < length rest.now }
    requires within { start + length rest.now < 2 ^ 64 }
    ensures { IsFaultAt result start rest.now }
{
    if rest[0] == b'"' {
        return TextFault::Unclosed;
    }
    let end = start + char_len(rest);
    TextFault::Unexpected(Span { start, end })
}

/// Adds the piece's token, where it is one.
fn keep(tokens: &mut Vec<Token>, start: usize, piece: Piece) -> Result<(), TextFault>
    requires { start + piece.len < 2 ^ 64 }
    ensures kept { OnOk result (tokens.new.items ≡ tokens.old.items
        ++ token_of start piece.len piece.kind) }
    ensures memory { IfErr result (λ e. e ≡ OutOfMemory) }
{
    let Some(kind) = piece.kind else {
        return Ok(());
    };
    let end = start + piece.len;
    tokens.push(Token {
        kind,
        span: Span { start, end },
    })?;
    Ok(())
}

/// The tokens of the bytes of a text.
fn tokens_of(alloc: Global, text: &[u8]) -> Result<Vec<Token>, TextFault>
    ensures found { IfOk result (λ v. AreTokens text.now v.items) }
    ensures fault { IfErr result (λ e. IsFaultOfTokens e text.now) }
{
    let mut tokens = Vec::new(alloc);
    let mut start = 0;
    let mut rest = text;
    while !rest.is_empty() {
        let Some(piece) = piece_at(rest) else {
            return Err(fault_at(start, rest));
        };
        keep(&mut tokens, start, piece)?;
        rest = behind(rest, piece.len);
        start += piece.len;
    }
    Ok(tokens)
}

/// Cuts a text into its tokens, read from the left: each one is the longest at its place, and only
/// space and comments come between them (RFC 2578 section 3). A comment opens at `--` with all
/// hyphens after it, and closes at the next `--` with its hyphens or at the end of the line.
/// `Unclosed` if the text ends inside a string, `Unexpected` where no token begins.
pub fn tokens(alloc: Global, text: &str) -> Result<Vec<Token>, TextFault>
    // The tokens, with their spans.
    ensures found { IfOk result (λ v. AreTokens text.now v.items) }
    // A text is refused where it comes to a place at which no piece is,
    ensures fault { IfErr result (λ e. IsFaultOfTokens e text.now) }
    // and such a text is always refused.
    ensures stuck { (at : ℕ) (rest : List ℕ) → IsStuck text.now at rest → IsErr result }
{
    tokens_of(alloc, text.as_bytes())
}
