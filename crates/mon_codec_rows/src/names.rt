//! Object identifiers: what a text or numbers are read as, and how two compare.

use mon_oid::Oid;
use mon_row_texts::{parsed, put_fault, put_name, two};
use std::alloc::Global;

/// Says how many sub-identifiers the identifier has that these words spell, its text, and whether a
/// copy is equal; or the fault.
pub(crate) fn row(alloc: Global, text: &mut String, words: &str) -> Option<()> {
    let name = match Oid::parse(alloc, words) {
        Ok(name) => name,
        Err(why) => return put_fault(text, why.number(), why.name()),
    };
    let copy = name.try_clone(alloc).ok()?;
    write!(text, "{} ", name.parts().len()).ok()?;
    put_name(alloc, text, &name)?;
    write!(text, " {}", copy == name).ok()
}

/// Appends the text of the identifier of these numbers, with spaces between them; or the fault.
pub(crate) fn made(alloc: Global, text: &mut String, words: &str) -> Option<()> {
    let mut parts: Vec<u32> = Vec::new(alloc);
    for word in words.split(' ') {
        parts.push(parsed(word)?).ok()?;
    }
    match Oid::from_parts(alloc, parts.as_slice()) {
        Ok(name) => put_name(alloc, text, &name),
        Err(why) => put_fault(text, why.number(), why.name()),
    }
}

/// Says how the first of two identifiers compares with the second, whether they are equal, and if
/// the first is a prefix of the second.
pub(crate) fn compared(alloc: Global, text: &mut String, words: &str) -> Option<()> {
    let (own, other) = two(words, ' ')?;
    let own = Oid::parse(alloc, own).ok()?;
    let other = Oid::parse(alloc, other).ok()?;
    let (order, same) = (own.compare(&other), own.cmp(&other));
    let (equal, prefix) = (own == other, own.is_prefix_of(&other));
    write!(text, "{order:?} {same:?} {equal} {prefix}").ok()
}
