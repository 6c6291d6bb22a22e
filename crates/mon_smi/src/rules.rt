//! Reading types and the clauses of macros.

ghost use Rattle.std.specs.Prelude.{◌≡◌, ◌≤◌, ◌-◌, length, drop};
ghost use Rattle.mon_smi.specs.Reading.{Gives, word_at, punctuation_at, begins, begins_word, one, nested_at, group_at, is_pair, is_sequence_of, type_name_at, maybe_group, type_at, is_access, is_status, part_at, clause_at, optional_at, index_at, syntax_at, described_at, object_type_at, convention_at};
ghost use Rattle.mon_smi.specs.Lexemes.{is_capital, is_any_word};

use crate::kind::TokenKind;
use crate::lexeme::Lexeme;
use crate::part::Part;
use crate::read_fault::ReadFault;

/// This many tokens at the end.
pub(crate) fn last<'a, 's>(ls: &'a [Lexeme<'s>], left: usize) -> &'a [Lexeme<'s>]
    requires { left ≤ length ls.now }
    ensures { result.now ≡ drop (length ls.now - left) ls.now }
{
    &ls[ls.len() - left..]
}

/// This word, and what follows it.
pub(crate) fn word_at<'a, 's>(
    word: &str,
    ls: &'a [Lexeme<'s>],
) -> Result<&'a [Lexeme<'s>], ReadFault<'a, 's>>
    ensures { Gives (λ rest. rest.now) result (word_at word.now ls.now) }
{
    let [first, rest @ ..] = ls else {
        return Err(ReadFault::BrokenOff(ls));
    };
    if first.is_word(word) {
        return Ok(rest);
    }
    Err(ReadFault::BrokenOff(ls))
}

/// This punctuation, and what follows it.
pub(crate) fn punctuation_at<'a, 's>(
    kind: TokenKind,
    ls: &'a [Lexeme<'s>],
) -> Result<&'a [Lexeme<'s>], ReadFault<'a, 's>>
    ensures { Gives (λ rest. rest.now) result (punctuation_at kind ls.now) }
{
    let [first, rest @ ..] = ls else {
        return Err(ReadFault::BrokenOff(ls));
    };
    if first.is_punctuation(kind) {
        return Ok(rest);
    }
    Err(ReadFault::BrokenOff(ls))
}

/// Returns `true` if this punctuation comes next.
pub(crate) fn begins(kind: TokenKind, ls: &[Lexeme]) -> bool
    ensures { result ≡ begins kind ls.now }
{
    let [first, ..] = ls else {
        return false;
    };
    first.is_punctuation(kind)
}

/// Returns `true` if this word comes next.
pub(crate) fn begins_word(word: &str, ls: &[Lexeme]) -> bool
    ensures { result ≡ begins_word word.now ls.now }
{
    let [first, ..] = ls else {
        return false;
    };
    first.is_word(word)
}

/// The rest of a group, after its opening punctuation.
fn nested_at<'a, 's>(
    left: TokenKind,
    right: TokenKind,
    ls: &'a [Lexeme<'s>],
) -> Result<&'a [Lexeme<'s>], ReadFault<'a, 's>>
    ensures { Gives (λ rest. rest.now) result (nested_at left right 0 ls.now) }
{
    let mut depth: usize = 0;
    let mut rest = ls;
    while let [first, after @ ..] = rest {
        rest = after;
        if first.is_punctuation(left) {
            depth += 1;
        } else if first.is_punctuation(right) {
            if depth == 0 {
                return Ok(rest);
            }
            depth -= 1;
        }
    }
    Err(ReadFault::BrokenOff(rest))
}

/// A group between these punctuation.
#[tactic(auto, unfolding(crate::specs::Reading::group_at))]
fn group_at<'a, 's>(
    left: TokenKind,
    right: TokenKind,
    ls: &'a [Lexeme<'s>],
) -> Result<&'a [Lexeme<'s>], ReadFault<'a, 's>>
    ensures { Gives (λ rest. rest.now) result (group_at left right ls.now) }
{
    let rest = punctuation_at(left, ls)?;
    nested_at(left, right, rest)
}

/// Returns `true` if two words come next that are a type's name, and no assignment of the second
/// begins.
fn is_pair(word: &str, other: &str, ls: &[Lexeme]) -> bool
    ensures { result ≡ is_pair word.now other.now ls.now }
{
    let [first, second, rest @ ..] = ls else {
        return false;
    };
    first.is_word(word) && second.is_word(other) && !begins(TokenKind::Assign, rest)
}

/// Returns `true` if a type comes next that is a sequence of another one.
fn is_sequence_of(ls: &[Lexeme]) -> bool
    ensures { result ≡ is_sequence_of ls.now }
{
    let [first, second, third, ..] = ls else {
        return false;
    };
    first.is_word("SEQUENCE") && second.is_word("OF") && third.is_capital()
}

/// A word with a capital first letter.
fn capital_at<'a, 's>(ls: &'a [Lexeme<'s>]) -> Result<&'a [Lexeme<'s>], ReadFault<'a, 's>>
    ensures { Gives (λ rest. rest.now) result (one is_capital ls.now) }
{
    let [first, rest @ ..] = ls else {
        return Err(ReadFault::BrokenOff(ls));
    };
    if first.is_capital() {
        return Ok(rest);
    }
    Err(ReadFault::BrokenOff(ls))
}

/// A type's name.
#[tactic(auto, unfolding(crate::specs::Reading::type_name_at))]
fn type_name_at<'a, 's>(ls: &'a [Lexeme<'s>]) -> Result<&'a [Lexeme<'s>], ReadFault<'a, 's>>
    ensures { Gives (λ rest. rest.now) result (type_name_at ls.now) }
{
    if is_pair("OCTET", "STRING", ls) {
        return Ok(&ls[2..]);
    }
    if is_pair("OBJECT", "IDENTIFIER", ls) {
        return Ok(&ls[2..]);
    }
    if is_sequence_of(ls) {
        return Ok(&ls[3..]);
    }
    capital_at(ls)
}

/// A group in braces or parentheses, or none.
#[tactic(auto, unfolding(crate::specs::Reading::maybe_group))]
fn maybe_group<'a, 's>(ls: &'a [Lexeme<'s>]) -> Result<&'a [Lexeme<'s>], ReadFault<'a, 's>>
    ensures { Gives (λ rest. rest.now) result (maybe_group ls.now) }
{
    if begins(TokenKind::LeftBrace, ls) {
        return group_at(TokenKind::LeftBrace, TokenKind::RightBrace, ls);
    }
    if begins(TokenKind::LeftParen, ls) {
        return group_at(TokenKind::LeftParen, TokenKind::RightParen, ls);
    }
    Ok(ls)
}

/// A type.
#[tactic(auto, unfolding(crate::specs::Reading::type_at))]
pub(crate) fn type_at<'a, 's>(ls: &'a [Lexeme<'s>]) -> Result<&'a [Lexeme<'s>], ReadFault<'a, 's>>
    ensures { Gives (λ rest. rest.now) result (type_at ls.now) }
{
    let rest = type_name_at(ls)?;
    maybe_group(rest)
}

/// Returns `true` if the word is one of the accesses.
fn is_access(l: &Lexeme) -> bool
    ensures { result ≡ is_access l.now }
{
    l.is_word("not-accessible")
        || l.is_word("accessible-for-notify")
        || l.is_word("read-only")
        || l.is_word("read-write")
        || l.is_word("read-create")
}

/// How an object may be accessed.
fn access_at<'a, 's>(ls: &'a [Lexeme<'s>]) -> Result<&'a [Lexeme<'s>], ReadFault<'a, 's>>
    ensures { Gives (λ rest. rest.now) result (one is_access ls.now) }
{
    let [first, rest @ ..] = ls else {
        return Err(ReadFault::BrokenOff(ls));
    };
    if is_access(first) {
        return Ok(rest);
    }
    Err(ReadFault::BrokenOff(ls))
}

/// The status of a definition.
fn status_at<'a, 's>(ls: &'a [Lexeme<'s>]) -> Result<&'a [Lexeme<'s>], ReadFault<'a, 's>>
    ensures { Gives (λ rest. rest.now) result (one is_status ls.now) }
{
    let [first, rest @ ..] = ls else {
        return Err(ReadFault::BrokenOff(ls));
    };
    if first.is_word("current") || first.is_word("deprecated") || first.is_word("obsolete") {
        return Ok(rest);
    }
    Err(ReadFault::BrokenOff(ls))
}

/// A word.
fn any_word_at<'a, 's>(ls: &'a [Lexeme<'s>]) -> Result<&'a [Lexeme<'s>], ReadFault<'a, 's>>
    ensures { Gives (λ rest. rest.now) result (one is_any_word ls.now) }
{
    let [first, rest @ ..] = ls else {
        return Err(ReadFault::BrokenOff(ls));
    };
    if first.is_any_word() {
        return Ok(rest);
    }
    Err(ReadFault::BrokenOff(ls))
}

/// What a clause says after its keyword.
#[tactic(auto, unfolding(crate::specs::Reading::part_at))]
fn part_at<'a, 's>(part: Part, ls: &'a [Lexeme<'s>]) -> Result<&'a [Lexeme<'s>], ReadFault<'a, 's>>
    ensures { Gives (λ rest. rest.now) result (part_at part ls.now) }
{
    match part {
        Part::Syntax => type_at(ls),
        Part::Text => punctuation_at(TokenKind::Quoted, ls),
        Part::Access => access_at(ls),
        Part::Status => status_at(ls),
        Part::Word => any_word_at(ls),
        Part::Group => group_at(TokenKind::LeftBrace, TokenKind::RightBrace, ls),
    }
}

/// A clause.
#[tactic(auto, unfolding(crate::specs::Reading::clause_at))]
fn clause_at<'a, 's>(
    keyword: &str,
    part: Part,
    ls: &'a [Lexeme<'s>],
) -> Result<&'a [Lexeme<'s>], ReadFault<'a, 's>>
    ensures { Gives (λ rest. rest.now) result (clause_at keyword.now part ls.now) }
{
    let rest = word_at(keyword, ls)?;
    part_at(part, rest)
}

/// A clause, or none.
#[tactic(auto, unfolding(crate::specs::Reading::optional_at))]
fn optional_at<'a, 's>(
    keyword: &str,
    part: Part,
    ls: &'a [Lexeme<'s>],
) -> Result<&'a [Lexeme<'s>], ReadFault<'a, 's>>
    ensures { Gives (λ rest. rest.now) result (optional_at keyword.now part ls.now) }
{
    if begins_word(keyword, ls) {
        return clause_at(keyword, part, ls);
    }
    Ok(ls)
}

/// How the rows of a table are named, or nothing.
#[tactic(auto, unfolding(crate::specs::Reading::index_at))]
fn index_at<'a, 's>(ls: &'a [Lexeme<'s>]) -> Result<&'a [Lexeme<'s>], ReadFault<'a, 's>>
    ensures { Gives (λ rest. rest.now) result (index_at ls.now) }
{
    if begins_word("AUGMENTS", ls) {
        return clause_at("AUGMENTS", Part::Group, ls);
    }
    optional_at("INDEX", Part::Group, ls)
}

/// What an object's values are, and how it may be accessed.
#[tactic(auto, unfolding(crate::specs::Reading::syntax_at))]
fn syntax_at<'a, 's>(ls: &'a [Lexeme<'s>]) -> Result<&'a [Lexeme<'s>], ReadFault<'a, 's>>
    ensures { Gives (λ rest. rest.now) result (syntax_at ls.now) }
{
    let rest = clause_at("SYNTAX", Part::Syntax, ls)?;
    let rest = optional_at("UNITS", Part::Text, rest)?;
    clause_at("MAX-ACCESS", Part::Access, rest)
}

/// The status and the texts of a definition; which words its status may be, `status` says.
#[tactic(auto, unfolding(crate::specs::Reading::described_at))]
fn described_at<'a, 's>(
    status: Part,
    ls: &'a [Lexeme<'s>],
) -> Result<&'a [Lexeme<'s>], ReadFault<'a, 's>>
    ensures { Gives (λ rest. rest.now) result (described_at status ls.now) }
{
    let rest = clause_at("STATUS", status, ls)?;
    let rest = clause_at("DESCRIPTION", Part::Text, rest)?;
    optional_at("REFERENCE", Part::Text, rest)
}

/// The clauses of an OBJECT-TYPE (RFC 2578 section 7).
#[tactic(auto, unfolding(crate::specs::Reading::object_type_at))]
pub(crate) fn object_type_at<'a, 's>(
    ls: &'a [Lexeme<'s>],
) -> Result<&'a [Lexeme<'s>], ReadFault<'a, 's>>
    ensures { Gives (λ rest. rest.now) result (object_type_at ls.now) }
{
    let rest = syntax_at(ls)?;
    let rest = described_at(Part::Status, rest)?;
    let rest = index_at(rest)?;
    optional_at("DEFVAL", Part::Group, rest)
}

/// The clauses of a TEXTUAL-CONVENTION (RFC 2579 section 3).
#[tactic(auto, unfolding(crate::specs::Reading::convention_at))]
pub(crate) fn convention_at<'a, 's>(
    ls: &'a [Lexeme<'s>],
) -> Result<&'a [Lexeme<'s>], ReadFault<'a, 's>>
    ensures { Gives (λ rest. rest.now) result (convention_at ls.now) }
{
    let rest = optional_at("DISPLAY-HINT", Part::Text, ls)?;
    let rest = described_at(Part::Word, rest)?;
    clause_at("SYNTAX", Part::Syntax, rest)
}
