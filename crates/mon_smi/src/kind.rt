//! The kinds of token.

/// What a token of a module's text is (RFC 2578 section 3 writes modules in a subset of ASN.1).
#[derive(Clone, Copy, Debug, PartialEq, Eq)]
pub enum TokenKind {
    /// A letter, then letters, digits, `_` and single `-`, which is not last.
    Word,
    /// Digits, or `-` and digits.
    Number,
    /// A text between `"`, in which `""` is a quote.
    Quoted,
    /// Hex digits, as `'0aF'H`.
    Hex,
    /// Binary digits, as `'01'B`.
    Binary,
    /// `::=`
    Assign,
    /// `..`
    Range,
    /// `{`
    LeftBrace,
    /// `}`
    RightBrace,
    /// `(`
    LeftParen,
    /// `)`
    RightParen,
    /// `[`
    LeftBracket,
    /// `]`
    RightBracket,
    /// `,`
    Comma,
    /// `;`
    Semicolon,
    /// `.`
    Dot,
    /// `|`
    Bar,
}
