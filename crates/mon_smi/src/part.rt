//! What follows the keyword of a clause.

/// What a clause of an OBJECT-TYPE or a TEXTUAL-CONVENTION says (RFC 2578 section 7, RFC 2579
/// section 3).
#[derive(Clone, Copy)]
pub(crate) enum Part {
    /// A type.
    Syntax,
    /// A quoted string.
    Text,
    /// How the object may be accessed.
    Access,
    /// The state of the definition, as `current` or `obsolete`.
    Status,
    /// A word, whatever it says.
    Word,
    /// Tokens between braces.
    Group,
}
