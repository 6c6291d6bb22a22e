//! What is at the front of a text.

ghost use Rattle.std.specs.Prelude.{◌≡◌};
ghost use Rattle.mon_smi.specs.Tokens.{is_space};
ghost use Rattle.mon_smi.specs.Scan.{token, passed, signed, hyphen_at, quoted_bits_at, punctuation_at, behind_at, piece_at};

use crate::kind::TokenKind;
use crate::scan::{Run, behind, byte_at, closing_len, comment_len, run_len, word_len};
use crate::token::Piece;

/// A token of this length.
fn token(kind: TokenKind, len: usize) -> Option<Piece>
    ensures { result ≡ token kind len }
{
    Some(Piece {
        kind: Some(kind),
        len,
    })
}

/// This many bytes that are no token.
fn skip(len: usize) -> Option<Piece>
    ensures { result ≡ passed len }
{
    Some(Piece { kind: None, len })
}

/// A comment or a number, after its first hyphen.
fn hyphen_at(text: &[u8]) -> Option<Piece>
    ensures { result ≡ hyphen_at text.now }
{
    if byte_at(text, 0) == b'-' {
        return skip(comment_len(text) + 1);
    }
    let digits = run_len(Run::Digits, text);
    if digits == 0 {
        return None;
    }
    token(TokenKind::Number, digits + 1)
}

/// Hex or binary digits, after the first single quote.
fn quoted_bits_at(text: &[u8]) -> Option<Piece>
    ensures { result ≡ quoted_bits_at text.now }
{
    let digits = run_len(Run::HexDigits, text);
    let bits = run_len(Run::Bits, text);
    let [b'\'', letter, ..] = behind(text, digits) else {
        return None;
    };
    match *letter {
        b'h' | b'H' => token(TokenKind::Hex, digits + 3),
        b'b' | b'B' if bits == digits => token(TokenKind::Binary, digits + 3),
        _ => None,
    }
}

/// A punctuation of one byte.
fn punctuation_at(byte: u8) -> Option<Piece>
    ensures { result ≡ punctuation_at byte }
{
    match byte {
        b'{' => token(TokenKind::LeftBrace, 1),
        b'}' => token(TokenKind::RightBrace, 1),
        b'(' => token(TokenKind::LeftParen, 1),
        b')' => token(TokenKind::RightParen, 1),
        b'[' => token(TokenKind::LeftBracket, 1),
        b']' => token(TokenKind::RightBracket, 1),
        b',' => token(TokenKind::Comma, 1),
        b';' => token(TokenKind::Semicolon, 1),
        b'|' => token(TokenKind::Bar, 1),
        _ => None,
    }
}

/// Reads what follows a first byte of no word, digits or space.
fn behind_at(first: u8, rest: &[u8]) -> Option<Piece>
    ensures { result ≡ behind_at first rest.now }
{
    match first {
        b'-' => hyphen_at(rest),
        b'"' => token(TokenKind::Quoted, closing_len(rest)? + 1),
        b'\'' => quoted_bits_at(rest),
        b':' if byte_at(rest, 0) == b':' && byte_at(rest, 1) == b'=' => token(TokenKind::Assign, 3),
        b'.' if byte_at(rest, 0) == b'.' => token(TokenKind::Range, 2),
        b'.' => token(TokenKind::Dot, 1),
        _ => punctuation_at(first),
    }
}

/// Returns `true` if the byte is blank, tab, LF, VT, FF or CR.
fn is_space(byte: u8) -> bool
    ensures { result ≡ is_space byte }
{
    byte == b' ' || (b'\t' <= byte && byte <= b'\r')
}

/// The token, space or comment at the front.
#[tactic(auto, unfolding(crate::specs::Scan::piece_at))]
pub(crate) fn piece_at(text: &[u8]) -> Option<Piece>
    ensures { result ≡ piece_at text.now }
{
    let [first, rest @ ..] = text else {
        return None;
    };
    if is_space(*first) {
        return skip(1);
    }
    if first.is_ascii_alphabetic() {
        return token(TokenKind::Word, word_len(text));
    }
    if first.is_ascii_digit() {
        return token(TokenKind::Number, run_len(Run::Digits, text));
    }
    behind_at(*first, rest)
}
